//! Answering a query from the count that a disk holds.

ghost use Rattle.zh_program.specs.Query.{MayShow, ShowsHeld};
ghost use Rattle.zh_program.specs.Shown.{GivesShown};
ghost use Rattle.zh_program.specs.World.{known};

use crate::fault::TaskFault;
use crate::seats_counted::seats_by_count;
use crate::shown::{Shown, shown_seats, write_shown};
use std::alloc::Global;
use std::io::{Read, Write};
use zh_arguments::Query;
use zh_count_tables::{votes_table, write_votes};
use zh_districts::Setup;
use zh_file::{Files, World};
use zh_office::Office;
use zh_tables::{said_of, write_status};

/// What a query shows of an office's count. An error means that memory was refused.
fn shown(alloc: Global, office: &Office<'_>, query: Query) -> Result<Shown, TaskFault>
    ensures { GivesShown (MayShow query office.now.ledger.tally) result }
{
    let count = office.count();
    match query {
        Query::Export => Ok(Shown::Text(office.export(Vec::new(alloc))?)),
        Query::Status(view) => {
            let text = write_status(alloc, count, view, Vec::new(alloc))?;
            let said = said_of(alloc, count, view)?;
            Ok(Shown::Advised(text, said))
        }
        Query::Votes {
            of,
            is_table: false,
        } => {
            let text = write_votes(alloc, count, office.totals(), of, Vec::new(alloc))?;
            Ok(Shown::Text(text))
        }
        Query::Votes { of, is_table: true } => {
            let text = votes_table(alloc, count, office.totals(), of)?;
            Ok(Shown::Text(text))
        }
        Query::Seats { is_final, layout } => {
            let seats = seats_by_count(alloc, office, is_final);
            shown_seats(alloc, count.setup(), seats, layout)
        }
    }
}

/// Opens the office on a disk and writes what a query asks for.
pub(crate) fn show<I: Read, O: Write, E: Write, F: Files>(
    alloc: Global,
    setup: &Setup,
    query: Query,
    world: &mut World<I, O, E, F>,
    disk: &mut F::Disk,
) -> Result<(), TaskFault>
    ensures { ShowsHeld (known I.Read O.Write E.Write F.Files F.Disk.Disk) query setup.now
        (world.old, disk.old) (world.new, disk.new) result }
{
    let office = Office::open(alloc, setup, disk)?;
    let shown = shown(alloc, &office, query)?;
    write_shown(&shown, world)
}
