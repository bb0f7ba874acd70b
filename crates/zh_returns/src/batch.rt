//! The batches of the desks, which collect rows and then write them as bytes, and the numbers of the desks.
ghost use Rattle.std.specs.Prelude.{◌≡◌, ◌≤◌, ◌++◌, ◌∷◌, [], None, length, OnOk, OnErr, ◌+◌, ◌*◌, ◌<◌, false, MatchOption};
ghost use Rattle.zh_returns.specs.Numbers.{IsDesk};
ghost use Rattle.zh_returns.specs.RowFaults.{fault_in};
ghost use Rattle.zh_returns.specs.Rows.{has_key, rows_length, AreRows, IsBatch, IsSpeakableRow, row_key, FitsRow};

use crate::row::{ROW_LENGTH, Row, RowFault, write_row};
use crate::rows::{MOST_ROWS, Rows};
use indexmap::IndexMap;
use std::alloc::{AllocError, Global};
use std::marker::Model;

/// The rows that a desk collects until it commits them, in the order in which they arrived. There are at most 1,000, and no two
/// have the same municipality and list.
#[derive(Drop)]
pub struct Batch {
    rows: IndexMap<(u32, u32), Row>,
}

impl Model for Batch {
    ghost use Rattle.std.specs.Prelude.{List};
    ghost use Rattle.indexmap.specs.IndexMap.{values};
    ghost use Rattle.zh_returns.specs.declared.row.Row.{Row};
    ghost use Rattle.zh_returns.specs.Rows.{AreRows};
    ghost use Rattle.zh_returns.specs.Batches.{AreKeyed};

    ghost Value = { List Row };

    ghost view = { λ batch. values batch.rows };

    ghost invariant = { λ batch. AreKeyed batch.rows.entries × AreRows (values batch.rows) };
}

impl Batch {
    /// An empty batch. It allocates no memory.
    pub fn new(alloc: Global) -> Batch
        ensures { result ≡ [] }
    {
        Batch {
            rows: IndexMap::new(alloc),
        }
    }

    /// The number of rows, 0 to 1,000.
    pub fn len(&self) -> usize
        ensures count { result ≡ length self.now }
        ensures limits { AreRows self.now }
    {
        self.rows.len()
    }

    /// Whether there is a row with this municipality and list. Looks it up in the map, instead of going through the rows.
    pub fn has_key(&self, municipality: u32, list: u32) -> bool
        ensures { result ≡ has_key self.now (municipality, list) }
    {
        self.rows.contains_key(&(municipality, list))
    }

    /// Why the batch does not take a row: the first reason that applies. None if it takes the row.
    pub fn refuses(&self, row: Row) -> Option<RowFault>
        ensures { result ≡ fault_in self.now row }
    {
        if self.has_key(row.municipality, row.list) {
            return Some(RowFault::Twice);
        }
        if self.len() >= MOST_ROWS {
            return Some(RowFault::BatchFull);
        }
        None
    }

    /// Appends a row. If memory is refused, the batch is unchanged.
    pub fn push(&mut self, row: Row) -> Result<(), AllocError>
        requires taken { fault_in self.old row ≡ None }
        requires speakable { IsSpeakableRow row }
        ensures pushed { OnOk result (self.new ≡ self.old ++ row ∷ []) }
        ensures kept { OnErr result (self.new ≡ self.old) }
    {
        let key = (row.municipality, row.list);
        let inserted = self.rows.insert(key, row);
        if inserted.is_err() {
            return Err(AllocError);
        }
        Ok(())
    }

    /// Writes the rows, of which there must be at least one, into these bytes and returns them as borrowed from there. It
    /// allocates no memory.
    pub fn write<'b>(&self, bytes: &'b mut [u8]) -> Rows<'b>
        requires some { 1 ≤ length self.now }
        requires room { rows_length ≤ length bytes.old }
        ensures rows { result ≡ self.now }
        ensures batch { IsBatch result }
    {
        let mut writer = BatchWriter::new(bytes);
        for row in self.rows.values() {
            writer.push(*row);
        }
        writer.finish()
    }
}

/// Writes the rows of a batch, one after another, into the caller's bytes. It allocates no memory.
#[derive(Drop)]
pub struct BatchWriter<'a> {
    bytes: &'a mut [u8],
    count: usize,
}

impl<'a> Model for BatchWriter<'a> {
    ghost use Rattle.std.specs.Prelude.{length};
    ghost use Rattle.zh_returns.specs.Pushed.{Pushed, AreWritten};
    ghost use Rattle.zh_returns.specs.RowBytes.{rows_from};

    ghost Value = { Pushed };

    ghost view = { λ w. record { rows = rows_from w.count w.bytes.now; room = length w.bytes.now } };

    ghost invariant = { λ w. AreWritten w.bytes.now w.count };
}

impl<'a> BatchWriter<'a> {
    /// A writer into these bytes. A row takes 11 bytes.
    pub fn new(bytes: &'a mut [u8]) -> BatchWriter<'a>
        ensures rows { result.rows ≡ [] }
        ensures room { result.room ≡ length bytes.old }
    {
        BatchWriter { bytes, count: 0 }
    }

    /// Writes a row after the others.
    pub fn push(&mut self, row: Row)
        requires few { length self.old.rows < MOST_ROWS }
        requires new { has_key self.old.rows (row_key row) ≡ false }
        requires room { ROW_LENGTH * (length self.old.rows + 1) ≤ self.old.room }
        requires fits { FitsRow row }
        requires number { 1 ≤ row.number }
        ensures { self.new ≡ record self.old { rows = self.old.rows ++ (row ∷ []) } }
    {
        let at = ROW_LENGTH * self.count;
        write_row(row, &mut self.bytes[at..at + ROW_LENGTH]);
        self.count += 1;
    }

    /// The rows that were pushed, as a batch.
    pub fn finish(self) -> Rows<'a>
        requires { 1 ≤ length self.rows }
        ensures rows { result ≡ self.entry.rows }
        ensures batch { IsBatch result }
    {
        let BatchWriter { bytes, count } = self;
        Rows::new(&bytes[..ROW_LENGTH * count])
    }
}

/// A desk that sends lines. There are eight, with the numbers 1 to 8.
#[derive(Clone, Copy)]
pub struct Desk {
    pub number: u8,
    pub ghost from_one: { 1 ≤ number },
    pub ghost there: { number ≤ 8 },
}

impl Desk {
    /// The desk with this number, if there is one.
    pub fn new(number: u32) -> Option<Desk>
        ensures { MatchOption result (¬ IsDesk number) (λ desk. desk.number ≡ number) }
    {
        if !(1..=8).contains(&number) {
            return None;
        }
        Some(Desk {
            number: number as u8,
        })
    }
}
