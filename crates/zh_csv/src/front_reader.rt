//! A reader of the front of a text: it ends where a record is too long.
ghost use Rattle.std.specs.Io.{ReadsAtMost};
ghost use Rattle.std.specs.Io.KnownBytes.{ReadConsumes};
ghost use Rattle.std.specs.Prelude.{◌≡◌, ◌≤◌, ◌<◌, ◌-◌, ◌++◌, ℕ, List, length, option_map, take};
ghost use Rattle.zh_csv.specs.Front.{point_after, front, front_of, left_at, most_read};
ghost use Rattle.zh_csv.specs.Fronts.{front_left};

use crate::records::MOST_BYTES;
use std::io::{Read, Result};

/// The most bytes that are read of one record. A field can be in quotation marks, and each of its bytes can be a
/// quotation mark, which is written twice.
const MOST_READ: usize = 3 * MOST_BYTES;

/// The state of the scanner at a byte of a text, and how many more bytes of the current record are read.
#[derive(Clone, Copy)]
struct Limit {
    point: Point,
    left: usize,
}

impl Limit {
    /// Counts one byte that was read.
    fn count(&mut self, byte: u8)
        requires { 0 < self.old.left }
        ensures { (self.new.point ≡ point_after self.old.point byte)
            × (self.new.left ≡ left_at most_read (point_after self.old.point byte) (self.old.left - 1)) }
    {
        self.point = self.point.after(byte);
        self.left = match self.point {
            Point::Between => MOST_READ,
            _ => self.left - 1,
        };
    }

    /// Counts the next bytes, up to the limit, and returns how many of them are read.
    fn pass(&mut self, bytes: &[u8]) -> usize
        ensures count { (result ≤ length bytes.now) × (0 < self.old.left → 0 < length bytes.now → 0 < result) }
        ensures front { (rest : List ℕ) → front most_read self.old.point self.old.left (bytes.now ++ rest)
            ≡ take result bytes.now ++ front most_read self.new.point self.new.left rest }
    {
        for place in 0..bytes.len() {
            if self.left == 0 {
                return place;
            }
            self.count(bytes[place]);
        }
        bytes.len()
    }
}

/// A reader that ends with its text, or earlier, where a record has more bytes than are read of one.
#[derive(Drop)]
pub struct FrontReader<R> {
    inner: R,
    limit: Limit,
}

impl<R: Read> FrontReader<R> {
    /// A reader of the front of a text, from its start.
    pub fn new(inner: R) -> Self
        ensures { front_left R.remaining result ≡ option_map front_of (R.remaining inner) }
    {
        FrontReader {
            inner,
            limit: Limit {
                point: Point::Start,
                left: MOST_READ,
            },
        }
    }
}

impl<R: Read> Read for FrontReader<R> {
    ghost remaining = { λ reader. option_map (front most_read reader.limit.point reader.limit.left) (R.remaining reader.inner) };

    fn read(&mut self, buf: &mut [u8]) -> Result<usize>
        ensures bound { ReadsAtMost result buf.new }
        ensures bytes { ReadConsumes (front_left R.remaining self.old) (front_left R.remaining self.new) result buf.new }
    {
        if self.limit.left == 0 {
            return Ok(0);
        }
        let count = self.inner.read(buf)?;
        Ok(self.limit.pass(&buf[..count]))
    }
}

/// The state of the scanner that finds where records end.
#[derive(Clone, Copy)]
pub(crate) enum Point {
    /// At the start of the text, where there can be a byte order mark.
    Start,
    /// After the first byte of a byte order mark.
    FirstOfMark,
    /// After the first two bytes of a byte order mark.
    SecondOfMark,
    /// Before a record, or after the last one.
    Between,
    /// Before a field that is not the first of its record.
    Field,
    /// In a field, outside quotation marks.
    Plain,
    /// Inside quotation marks.
    Quoted,
    /// After a quotation mark inside quotation marks: it closes them, or is the first of two that stand for one.
    Closed,
}

impl Point {
    /// The state after a byte.
    pub(crate) fn after(self, byte: u8) -> Point
        ensures { result ≡ point_after self byte }
    {
        match (self, byte) {
            (Point::Quoted, b'"') => Point::Closed,
            (Point::Quoted, _) => Point::Quoted,
            (Point::Start | Point::Between | Point::Field | Point::Closed, b'"') => Point::Quoted,
            (Point::Start, 0xEF) => Point::FirstOfMark,
            (Point::FirstOfMark, 0xBB) => Point::SecondOfMark,
            (Point::SecondOfMark, 0xBF) => Point::Between,
            (_, b',') => Point::Field,
            (_, b'\r' | b'\n') => Point::Between,
            _ => Point::Plain,
        }
    }
}
