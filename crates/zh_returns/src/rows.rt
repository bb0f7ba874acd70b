//! The rows of a batch.

ghost use Rattle.std.specs.Prelude.{◌≡◌, ◌<◌, List, Some, length, slice_get};
ghost use Rattle.std.specs.List.{flat_map};
ghost use Rattle.zh_returns.specs.declared.row.Row.{Row};
ghost use Rattle.zh_returns.specs.Decoding.{Decodes};
ghost use Rattle.zh_returns.specs.RowBytes.{rows_in};
ghost use Rattle.zh_returns.specs.Rows.{row_spelling, IsBatch};

use crate::row::{ROW_LENGTH, Row, row_of};
use crate::row_checks::{are_numbered, have_own_keys};
use std::marker::Model;

/// The greatest number of rows of a batch.
pub const MOST_ROWS: usize = 1_000;

/// The rows of a batch, as a view of their bytes: 1 to 1,000 returns, no two with the same key.
#[derive(Drop)]
pub struct Rows<'a> {
    bytes: &'a [u8],
}

impl<'a> Model for Rows<'a> {
    ghost use Rattle.std.specs.Prelude.{List};
    ghost use Rattle.zh_returns.specs.declared.row.Row.{Row};

    ghost Value = { List Row };

    ghost use Rattle.zh_returns.specs.RowBytes.{rows_inside, AreRowBytes};

    ghost view = { rows_inside };

    ghost invariant = { AreRowBytes };
}

impl<'a> Rows<'a> {
    /// The rows that these bytes spell.
    pub(crate) fn new(bytes: &'a [u8]) -> Rows<'a>
        requires spelling { flat_map row_spelling (rows_in bytes.now) ≡ bytes.now }
        requires batch { IsBatch (rows_in bytes.now) }
        ensures { result ≡ rows_in bytes.now }
    {
        Rows { bytes }
    }

    /// The rows of a batch that these bytes spell. None if they do not spell a batch.
    pub(crate) fn read(bytes: &'a [u8]) -> Option<Rows<'a>>
        ensures { Decodes IsBatch (flat_map row_spelling) bytes.now result }
    {
        let count = bytes.len() / ROW_LENGTH;
        if bytes.len() != ROW_LENGTH * count || count == 0 || count > MOST_ROWS {
            return None;
        }
        if !are_numbered(bytes) || !have_own_keys(bytes) {
            return None;
        }
        Some(Rows { bytes })
    }

    /// The number of rows, 1 to 1,000.
    pub fn len(&self) -> usize
        ensures count { result ≡ length self.now }
        ensures batch { IsBatch self.now }
    {
        self.bytes.len() / ROW_LENGTH
    }

    /// Row `i`, counted from 0.
    pub fn get(&self, i: usize) -> Row
        requires { i < length self.now }
        ensures { slice_get self.now i ≡ Some result }
    {
        let bytes = self.bytes;
        let at = ROW_LENGTH * i;
        row_of(&bytes[at..at + ROW_LENGTH])
    }

    /// The bytes of the rows, one after another.
    pub(crate) fn bytes(&self) -> &'a [u8]
        ensures { result.now ≡ flat_map row_spelling self.now }
    {
        self.bytes
    }
}
