//! The texts of a folder in memory.
ghost use Rattle.std.specs.Prelude.{◌≡◌, ◌↔◌, Some, IsErr};
ghost use Rattle.std.specs.Io.{ReadsAtMost};
ghost use Rattle.std.specs.Io.KnownBytes.{ReadConsumes};

use std::io::{Cursor, ErrorKind, Read, Result};

/// A text in memory. A given number of reads pass, and then each read fails.
#[derive(Drop)]
pub struct MemoryText {
    pub(crate) text: Cursor<Vec<u8>>,
    pub(crate) reads: u64,
}

impl Read for MemoryText {
    ghost remaining = { λ text. ⟦<Cursor<Vec<u8>> as Read>⟧.remaining text.text };

    fn read(&mut self, buf: &mut [u8]) -> Result<usize>
        ensures bound { ReadsAtMost result buf.new }
        ensures bytes { ReadConsumes (⟦<Cursor<Vec<u8>> as Read>⟧.remaining self.old.text)
            (⟦<Cursor<Vec<u8>> as Read>⟧.remaining self.new.text) result buf.new }
        ensures fails { IsErr result ↔ (self.old.reads ≡ 0) }
    {
        let Some(left) = self.reads.checked_sub(1) else {
            return Err(ErrorKind::Other.into());
        };
        self.reads = left;
        self.text.read(buf)
    }
}
