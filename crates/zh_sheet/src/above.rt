//! The seats of the constituencies and of the groups, which come before those of the lists.
ghost use Rattle.zh_sheet.specs.Stages.{IsAboveLists, StandAbove};

use crate::fault::SheetFault;
use std::alloc::Global;
use zh_districts::seats;
use zh_divisors::Shares;
use zh_quorum::participating;
use zh_totals::Totals;
use zh_upper::{Upper, upper, voters};

/// The seats of the constituencies and of the groups, with everything that they follow from.
#[derive(Drop)]
pub(crate) struct Above {
    pub seats: Shares,
    pub taking: Vec<bool>,
    pub voters: Vec<u64>,
    pub upper: Upper,
}

/// The seats of the constituencies and of the groups for these totals, or the first reason why there are none. `Memory` can
/// come in place of either.
pub(crate) fn seats_above(alloc: Global, totals: &Totals<'_>) -> Result<Above, SheetFault>
    ensures { IsAboveLists (StandAbove totals.now) totals.now result }
{
    let setup = totals.setup();
    let seats = seats(alloc, setup)?;
    let taking = participating(alloc, totals)?;
    let voters = voters(alloc, totals, seats.seats())?;
    let upper = upper(alloc, &voters, &taking, setup.house())?;
    Ok(Above {
        seats,
        taking,
        voters,
        upper,
    })
}
