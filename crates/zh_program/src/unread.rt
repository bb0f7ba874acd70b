//! Arguments that can't be read from the operating system.

ghost use Rattle.std.specs.IoError.{error_kind};
ghost use Rattle.std.specs.Prelude.{◌≡◌};
ghost use Rattle.zh_program.specs.Does.{unread};
ghost use Rattle.zh_program.specs.Remarks.{BecameOf};

use crate::fault::TaskFault;
use crate::report::{make_remark, report};
use std::io::{Error, ErrorKind, Write};
use zh_file::World;

/// Returns the status for arguments that can't be read and reports the reason: 2 if one of them is not UTF-8, 1 if memory was
/// refused.
pub fn refuse_unread<I, O, E: Write, F>(error: &Error, world: &mut World<I, O, E, F>) -> u8
    ensures status { result ≡ (unread (error_kind error.now)).0 }
    ensures rest { world.new ≡ record world.old { faults = world.new.faults; remark = world.new.remark } }
    ensures said { BecameOf world.new.remark (E.contents world.old.faults) (E.contents world.new.faults)
        (unread (error_kind error.now)).1 }
{
    match error.kind() {
        ErrorKind::InvalidData => {
            world.remark = make_remark(b"error: an argument is not UTF-8\n", &mut world.faults);
            2
        }
        _ => {
            world.remark = report(None, TaskFault::Memory, &mut world.faults);
            1
        }
    }
}
