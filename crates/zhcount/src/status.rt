//! Runs the program on the operating system's arguments and turns its status into an exit code.

ghost use Rattle.std.specs.IoError.{error_kind};
ghost use Rattle.std.specs.Prelude.{◌≡◌, drop, map, string_bytes, MatchResult};
ghost use Rattle.std.specs.Process.{exit_status};
ghost use Rattle.zh_program.specs.Does.{ProgramDoes, unread};
ghost use Rattle.zh_program.specs.Program.{NothingDone};
ghost use Rattle.zh_program.specs.Remarks.{BecameOf};
ghost use Rattle.zh_program.specs.World.{known};

use std::alloc::Global;
use std::io;
use std::io::{Read, Write};
use std::mem::forget;
use std::process::ExitCode;
use zh_file::{Ended, Files, World};
use zh_program::{Used, program, refuse_unread};

/// The arguments after the program's name.
fn after_name(all: &[String]) -> &[String]
    ensures { result.now ≡ drop 1 all.now }
{
    match all.split_first() {
        Some((_name, others)) => others,
        None => &[],
    }
}

/// Runs the program on the arguments after its name. Returns its status, 0 to 2, as the exit code of the process, and what the
/// task hands over. If the arguments can't be read, it reports why and does nothing else. The status is then 2 if one of them is
/// not UTF-8, and 1 if memory was refused.
pub(crate) fn run<I: Read, O: Write, E: Write, F: Files>(
    alloc: Global,
    arguments: io::Result<Vec<String>>,
    right: F::Right,
    world: &mut World<I, O, E, F>,
) -> Ended<ExitCode, Used<I, O, F::Disk, F::Text>>
    ensures { MatchResult arguments (λ all. ProgramDoes (known I.Read O.Write E.Write F.Files F.Disk.Disk)
        (map string_bytes (drop 1 all.items)) world.old world.new (exit_status result.result) result.used)
        (λ error. (exit_status result.result ≡ (unread (error_kind error)).0) × NothingDone world.old world.new result.used
        × BecameOf world.new.remark (E.contents world.old.faults) (E.contents world.new.faults) (unread (error_kind error)).1) }
{
    match arguments {
        Ok(all) => {
            let Ended { result, used } = program(alloc, after_name(&all), right, world);
            Ended {
                result: ExitCode::from(result),
                used,
            }
        }
        Err(error) => Ended {
            result: ExitCode::from(refuse_unread(&error, world)),
            used: None,
        },
    }
}

/// The status with which the program ended. What its task hands over is forgotten, not dropped: no destructor runs on it, and
/// the operating system closes the disk's file when the process ends.
pub(crate) fn status_of<T, D: Drop>(ended: Ended<T, D>) -> T
    ensures { result ≡ ended.result }
{
    let Ended { result, used } = ended;
    forget(used);
    result
}
