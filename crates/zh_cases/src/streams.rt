//! An input that gives one byte per read, and an output that takes a limited number of bytes per write. Both can fail.

use std::alloc::Global;
use std::io::{self, ErrorKind, Read, Write};

/// Gives the bytes of a text one by one, and fails after `left` bytes.
#[derive(Drop)]
pub(crate) struct SlowInput<'a> {
    pub(crate) text: &'a [u8],
    left: u64,
}

impl SlowInput<'_> {
    /// An input that gives this text, and fails after this many bytes.
    pub(crate) fn new(text: &[u8], left: u64) -> SlowInput<'_> {
        SlowInput { text, left }
    }
}

impl Read for SlowInput<'_> {
    fn read(&mut self, buf: &mut [u8]) -> io::Result<usize> {
        if self.left == 0 {
            return Err(ErrorKind::Other.into());
        }
        let [first, rest @ ..] = self.text else {
            return Ok(0);
        };
        let Some(place) = buf.first_mut() else {
            return Ok(0);
        };
        *place = *first;
        self.text = rest;
        self.left -= 1;
        Ok(1)
    }
}

/// Takes bytes from each write, and fails after `left` writes.
#[derive(Drop)]
pub(crate) struct SlowOutput {
    /// What was written.
    pub(crate) bytes: Vec<u8>,
    left: u64,
    /// The most bytes that one write takes.
    takes: usize,
}

impl SlowOutput {
    /// An output that fails after `left` writes, each of which takes at most `takes` bytes.
    pub(crate) fn new(alloc: Global, left: u64, takes: usize) -> SlowOutput {
        SlowOutput {
            bytes: Vec::new(alloc),
            left,
            takes,
        }
    }
}

impl Write for SlowOutput {
    fn write(&mut self, buf: &[u8]) -> io::Result<usize> {
        if self.left == 0 {
            return Err(ErrorKind::BrokenPipe.into());
        }
        let taken = buf.get(..self.takes).unwrap_or(buf);
        if !taken.is_empty() {
            self.bytes.extend_from_slice(taken)?;
            self.left -= 1;
        }
        Ok(taken.len())
    }

    fn flush(&mut self) -> io::Result<()> {
        Ok(())
    }
}
