//! Writing a table of a set-up.

ghost use Rattle.std.specs.Prelude.{MatchResult};
ghost use Rattle.zh_program.specs.List.{IsSplitIf, Listed, MayList, RefusesList};
ghost use Rattle.zh_program.specs.Shown.{GivesShown};
ghost use Rattle.zh_program.specs.World.{known};

use crate::fault::TaskFault;
use crate::shown::{Shown, write_shown};
use crate::texts::setup_at;
use std::alloc::Global;
use std::io::{Read, Write};
use zh_districts::Setup;
use zh_file::{Files, World};
use zh_tables::{Table, exceeds_load, write_list};

/// A table. If it has more returns than one load takes, a remark says how to split it.
fn advise(alloc: Global, text: Vec<u8>, exceeds: bool) -> Result<Shown, TaskFault>
    ensures { GivesShown (IsSplitIf exceeds text.items) result }
{
    if !exceeds {
        return Ok(Shown::Text(text));
    }
    let mut line = Vec::new(alloc);
    line.extend_from_slice(
        b"zhcount: more than 1,000 returns, to be split by --constituency or --municipality\n",
    )?;
    Ok(Shown::Advised(text, line))
}

/// A table of a set-up as text, with advice if it has more returns than one load takes. An error says why there is no table.
fn list_of(alloc: Global, setup: &Setup, table: Table) -> Result<Shown, TaskFault>
    ensures { MatchResult result (MayList setup.now table) (RefusesList setup.now table) }
{
    let text = write_list(alloc, setup, table, Vec::new(alloc))?;
    let exceeds = exceeds_load(alloc, setup, table)?;
    advise(alloc, text, exceeds)
}

/// Writes a table of the set-up at a path.
pub(crate) fn list_at<I: Read, O: Write, E: Write, F: Files>(
    alloc: Global,
    path: &str,
    table: Table,
    world: &mut World<I, O, E, F>,
) -> Result<(), TaskFault>
    ensures { Listed (known I.Read O.Write E.Write F.Files F.Disk.Disk) path.now table world.old world.new result }
{
    let setup = setup_at(alloc, &mut world.files, path)?;
    let shown = list_of(alloc, &setup, table)?;
    write_shown(&shown, world)
}
