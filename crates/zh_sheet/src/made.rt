//! The sheet of the totals of a count.
ghost use Rattle.std.specs.Prelude.{IfErr};
ghost use Rattle.zh_sheet.specs.Made.{IsMade};
ghost use Rattle.zh_sheet.specs.Reasons.{HaveNoSheet, sheet_or_fault};

use crate::fault::SheetFault;
use crate::list_question::ListQuestion;
use crate::reason::{NoSheet, no_sheet};
use crate::sheet::Sheet;
use std::alloc::Global;
use zh_lower::find_or_reason;
use zh_totals::Totals;

/// The sheet of these totals, as `make` gives it, or why there is none, with everything that was found out about it.
pub fn make_or_reason<'s>(alloc: Global, totals: &Totals<'s>) -> Result<Sheet<'s>, NoSheet>
    ensures made { IsMade totals.now (sheet_or_fault result) }
    ensures none { IfErr result (HaveNoSheet totals.now) }
{
    let asked = ListQuestion::of(alloc, totals)?;
    let copy = totals.copy(alloc)?;
    let row_totals = asked.above.seats.seats();
    match find_or_reason(alloc, &asked.matrix, row_totals, &asked.column_totals) {
        Ok(lower) => Ok(Sheet::with_lists(copy, asked, lower)),
        Err(reason) => Err(no_sheet(totals, asked, reason)),
    }
}

/// The sheet of these totals, or why there is none: the first case that holds decides, in the order of `SheetRefusal`.
///
/// No divisors of any scale give other seats. The divisors are those of the first state of the search that gives seats. If
/// none does, the decision finds them (docs/DEFINITIONS.md, "How divisors are found"). Both depend only on the votes and the
/// set-up, so the same votes have only one sheet. If the seats of the lists are tied, no divisors give seats without a
/// quotient on a half. `Exhausted` is returned only if no state of the search gives seats or is tied, and the decision gives
/// no divisors in millionths either. `Memory` can be returned in place of every answer.
pub fn make<'s>(alloc: Global, totals: &Totals<'s>) -> Result<Sheet<'s>, SheetFault>
    ensures { IsMade totals.now result }
{
    Ok(make_or_reason(alloc, totals)?)
}
