//! What the lot decides if seats are tied.
ghost use Rattle.std.specs.Prelude.{IfOk};
ghost use Rattle.zh_sheet.specs.Lots.{AreGroupRanges, AreListRanges, IsLotFor};
ghost use Rattle.zh_sheet.specs.Reasons.{HaveNoSheet, IsListTie, sheet_fault};
ghost use Rattle.zh_sheet.specs.Refusals.{IfRefused, IsRefusedAbove};
ghost use Rattle.zh_upper.specs.declared.fault.UpperRefusal.TheVariants.{Tied};

use crate::fault::{SheetFault, SheetRefusal};
use crate::list_ranges::ListRanges;
use crate::list_seats::ListSeats;
use crate::reason::{ListTie, NoSheet};
use std::alloc::{AllocError, Global};
use zh_districts::{seats, tied};
use zh_lower::{Ranges, lot};
use zh_quorum::participating;
use zh_totals::Totals;
use zh_upper::{SeatRanges, UpperRefusal, upper_ranges, voters};

/// What the lot decides if seats are tied. Constituencies and groups are numbered as in the set-up.
#[derive(Drop)]
pub enum Lot {
    /// The lot decides between the constituencies that are marked.
    Constituencies(Vec<bool>),
    /// The fewest and the most seats of each group in the whole canton.
    Groups(SeatRanges),
    /// The fewest and the most seats of each list of the seated groups.
    Lists(ListRanges),
}

/// The fewest and the most seats of each group, if the seats of the groups are tied. The constituencies then have seats, so
/// this fails only if memory is refused.
fn tied_groups(alloc: Global, totals: &Totals<'_>) -> Result<SeatRanges, AllocError>
    requires { IsRefusedAbove totals.now Tied }
    ensures { IfOk result (AreGroupRanges totals.now) }
{
    let setup = totals.setup();
    let Ok(seats) = seats(alloc, setup) else {
        return Err(AllocError);
    };
    let taking = participating(alloc, totals)?;
    let voters = voters(alloc, totals, seats.seats())?;
    upper_ranges(alloc, &voters, &taking, setup.house())
}

/// The fewest and the most seats of each list, if the seats of the lists are tied. Fails if memory is refused.
fn tied_lists(alloc: Global, totals: &Totals<'_>, tied: &ListTie) -> Result<ListRanges, AllocError>
    requires { IsListTie totals.now tied.now }
    ensures { IfOk result (AreListRanges totals.now) }
{
    let asked = &tied.asked;
    let constituencies = totals.setup().constituencies();
    let question = asked
        .matrix
        .question(asked.above.seats.seats(), &asked.column_totals);
    let Ranges { least, most } = lot(alloc, &question, &tied.tie)?;
    let of_least = Vec::from_slice(alloc, &asked.seated)?;
    let of_most = Vec::from_slice(alloc, &asked.seated)?;
    Ok(ListRanges::new(
        ListSeats::new(constituencies, of_least, least),
        ListSeats::new(constituencies, of_most, most),
    ))
}

/// What the lot decides, if the refusal is one of the three ties. None if it is another one. No lot is drawn. Fails if memory is
/// refused.
pub fn explain_tie(
    alloc: Global,
    totals: &Totals<'_>,
    none: &NoSheet,
) -> Result<Option<Lot>, AllocError>
    requires { HaveNoSheet totals.now none.now }
    ensures { IfOk result (λ lot. IfRefused (sheet_fault none.now) (λ refusal. IsLotFor totals.now refusal lot)) }
{
    match none {
        NoSheet::Fault(SheetFault::Refused(SheetRefusal::TiedSeats)) => {
            Ok(Some(Lot::Constituencies(tied(alloc, totals.setup())?)))
        }
        NoSheet::Fault(SheetFault::Refused(SheetRefusal::NoUpperSeats(UpperRefusal::Tied))) => {
            Ok(Some(Lot::Groups(tied_groups(alloc, totals)?)))
        }
        NoSheet::Tied(_, _, tied) => Ok(Some(Lot::Lists(tied_lists(alloc, totals, tied)?))),
        _ => Ok(None),
    }
}
