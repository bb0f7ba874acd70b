//! Cutting the input into lines.

ghost use Rattle.std.specs.Prelude.{◌≡◌, ◌++◌, ◌∷◌, MatchOption};
ghost use Rattle.zh_office.specs.Text.{HasNoEnd, truncated};

use arrayvec::ArrayVec;
use memchr::memchr;

/// How many bytes of a line are kept: one more than the longest line that is allowed, so that a longer one is noticed.
const LINE_BYTES: usize = 121;

/// The kept bytes of a line that has not ended.
pub(crate) type PartialLine = ArrayVec<u8, LINE_BYTES>;

/// Appends bytes to a line, as far as they are kept.
pub(crate) fn extend_line(line: &mut PartialLine, more: &[u8])
    ensures { line.new.items ≡ truncated (line.old.items ++ more.now) }
{
    let count = more.len().min(line.remaining_capacity());
    line.try_extend_from_slice(&more[..count]).unwrap();
}

/// The bytes before the first LF and the bytes after it, or `None` if there is none.
pub(crate) fn split_line(bytes: &[u8]) -> Option<(&[u8], &[u8])>
    ensures { MatchOption result (HasNoEnd bytes.now)
        (λ parts. HasNoEnd parts.0.now × (bytes.now ≡ parts.0.now ++ 10 ∷ parts.1.now)) }
{
    let end = memchr(b'\n', bytes)?;
    Some((&bytes[..end], &bytes[end + 1..]))
}
