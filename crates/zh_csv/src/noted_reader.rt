//! A reader that notes when a read fails. After that every read fails.

ghost use Rattle.std.specs.Prelude.{◌≡◌, ◌↔◌, ◌⊎◌, true, false, IsErr};
ghost use Rattle.std.specs.Io.{ReadsAtMost};
ghost use Rattle.std.specs.Io.KnownBytes.{ReadConsumes};
ghost use Rattle.zh_csv.specs.Noted.{has_failed, inner_reader};

use std::io::{ErrorKind, Read, Result};

/// A reader that notes when a read fails.
///
/// Every error counts as a failure, that of an interrupted read too. Nothing clears the note. Once it is set, every read
/// fails, and the underlying reader is not called any more.
#[derive(Drop)]
pub struct NotedReader<R> {
    inner: R,
    has_failed: bool,
}

impl<R: Read> NotedReader<R> {
    /// A reader on which no read has failed yet.
    pub fn new(inner: R) -> Self
        ensures over { inner_reader result ≡ inner }
        ensures fresh { has_failed result ≡ false }
    {
        NotedReader {
            inner,
            has_failed: false,
        }
    }

    /// Whether a read has failed so far.
    pub fn has_failed(&self) -> bool
        ensures { result ≡ has_failed self.now }
    {
        self.has_failed
    }
}

impl<R: Read> Read for NotedReader<R> {
    ghost remaining = { λ reader. R.remaining reader.inner };

    fn read(&mut self, buf: &mut [u8]) -> Result<usize>
        ensures bound { ReadsAtMost result buf.new }
        ensures bytes { ReadConsumes (R.remaining (inner_reader self.old)) (R.remaining (inner_reader self.new)) result buf.new }
        ensures over { has_failed self.old ≡ true → IsErr result × (self.new ≡ self.old) }
        ensures noted { (has_failed self.new ≡ true) ↔ ((has_failed self.old ≡ true) ⊎ IsErr result) }
    {
        if self.has_failed {
            return Err(ErrorKind::Other.into());
        }
        let result = self.inner.read(buf);
        self.has_failed |= result.is_err();
        result
    }
}
