//! Writing bytes to a writer.
ghost use Rattle.std.specs.Prelude.{◌≡◌, ℕ, ◌<◌, [], length, take, IsOk, OnOk, OnErr};
ghost use Rattle.std.specs.Io.KnownBytes.{Appends};

use std::io::Write;
use thiserror::Error;

/// A write returned an error or took no byte.
#[derive(Clone, Copy, Debug, Error)]
#[error("write")]
pub struct WriteFault;

/// Writes all of the bytes, in as many writes as the writer needs. After an error only a proper prefix of them is written.
///
/// Fails at the first write that takes no byte or returns an error, even if it was only interrupted.
pub fn put<W: Write>(out: &mut W, bytes: &[u8]) -> Result<(), WriteFault>
    ensures all { OnOk result (Appends (W.contents out.old) (W.contents out.new) bytes.now) }
    ensures nothing { bytes.now ≡ [] → IsOk result }
    ensures front { OnErr result ((n : ℕ) × (n < length bytes.now)
        × Appends (W.contents out.old) (W.contents out.new) (take n bytes.now)) }
{
    let mut rest = bytes;
    while !rest.is_empty() {
        let Ok(written) = out.write(rest) else {
            return Err(WriteFault);
        };
        if written == 0 {
            return Err(WriteFault);
        }
        rest = &rest[written..];
    }
    Ok(())
}
