//! The buffer through which a sheet is written, so that only a few writes are needed.
ghost use Rattle.std.specs.Prelude.{◌≡◌, ◌+◌, ◌≤◌, [], length, OnErr, OnOk};
ghost use Rattle.zh_sheet_text.specs.Printing.{Prints, WritesFront};

use arrayvec::ArrayVec;
use std::io::Write;
use zh_text::{WriteFault, put};

/// The capacity of the buffer in bytes.
pub(crate) const ROOM: usize = 4096;

/// An upper bound of the bytes of a part.
pub(crate) const PART: usize = 41;

/// An upper bound of the bytes of a line.
pub(crate) const LINE: usize = 512;

/// Text that is still to be written. It allocates nothing.
pub(crate) type WriteBuffer = ArrayVec<u8, ROOM>;

/// Writes all text in the buffer and empties it.
pub(crate) fn send<W: Write>(buffer: &mut WriteBuffer, out: &mut W) -> Result<(), WriteFault>
    ensures sends { OnOk result (Prints (W.contents out.old) buffer.old.items (W.contents out.new) buffer.new.items []) }
    ensures empty { OnOk result (buffer.new.items ≡ []) }
    ensures front { OnErr result (WritesFront (W.contents out.old) (W.contents out.new) buffer.old.items) }
{
    put(out, buffer.as_slice())?;
    buffer.clear();
    Ok(())
}

/// Makes room in the buffer for one more line, by writing its text if necessary.
pub(crate) fn make_room<W: Write>(buffer: &mut WriteBuffer, out: &mut W) -> Result<(), WriteFault>
    ensures sends { OnOk result (Prints (W.contents out.old) buffer.old.items (W.contents out.new) buffer.new.items []) }
    ensures room { OnOk result (length buffer.new.items + LINE ≤ ROOM) }
    ensures front { OnErr result (WritesFront (W.contents out.old) (W.contents out.new) buffer.old.items) }
{
    if buffer.remaining_capacity() < LINE {
        send(buffer, out)?;
    }
    Ok(())
}
