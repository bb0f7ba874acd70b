//! The seats computed from a count.

ghost use Rattle.std.specs.Prelude.{◌≡◌, Bool, IfErr, IfOk};
ghost use Rattle.zh_office.specs.Sheets.{MayAnswerSheet, MayGiveFor};
ghost use Rattle.zh_totals.specs.Counting.{totals_of};
ghost use Rattle.zh_sheet.specs.Reasons.{HaveNoSheet};
ghost use Rattle.zh_sheet_text.specs.declared.mark.Source.TheVariants as sources;
ghost use Rattle.zh_program.specs.Results.{IsReasonFor, answer_of, refusal_answer, told};

use std::alloc::Global;
use zh_commands::Refusal;
use zh_office::{NotGiven, Office};
use zh_returns::Reason;
use zh_sheet::{Lot, NoSheet, SheetFault, SheetRefusal, explain_tie};
use zh_sheet_text::{Mark, MarkedSheet, NoSeats, Source};
use zh_totals::Totals;

/// The reason why a fault leaves no seats, with the seats that the lot decides, if given.
fn told(fault: SheetFault, lot: Option<Lot>) -> NoSeats
    ensures { result ≡ told fault lot }
{
    match fault {
        SheetFault::Memory => NoSeats::Refused(Refusal::Memory),
        SheetFault::Refused(refusal) => match lot {
            Some(lot) => NoSeats::Tied(refusal, lot),
            None => NoSeats::Refused(Refusal::Sheet(refusal)),
        },
    }
}

/// The reason why no sheet was made of these totals, with the seats that the lot decides if seats are tied, and with the reason
/// of an exhausted search. If memory is refused for that, it is the reason.
fn why_none(alloc: Global, totals: &Totals<'_>, none: NoSheet) -> NoSeats
    requires { HaveNoSheet totals.now none }
    ensures answer { (is_final : Bool) → MayGiveFor totals.now is_final (refusal_answer result) }
    ensures reason { IsReasonFor totals.now result }
{
    let Ok(lot) = explain_tie(alloc, totals, &none) else {
        return NoSeats::Refused(Refusal::Memory);
    };
    match none {
        NoSheet::Exhausted(reason) => NoSeats::Exhausted(reason),
        NoSheet::Fault(fault) => told(fault, lot),
        NoSheet::Tied(constituency, group, _tie) => {
            told(
                SheetFault::Refused(SheetRefusal::TiedLower(constituency, group)),
                lot,
            )
        }
    }
}

/// The seats of an office's count, as the line `sheet` would give them or, if `is_final`, the line `final`; or the reason why
/// there are none.
pub(crate) fn seats_by_count<'s>(
    alloc: Global,
    office: &Office<'s>,
    is_final: bool,
) -> Result<MarkedSheet<'s>, NoSeats>
    ensures answer { MayAnswerSheet office.now.ledger.tally is_final (answer_of result) }
    ensures mark { IfOk result (λ seats. seats.mark
        ≡ record { is_final = is_final; accepted = office.now.ledger.tally.accepted; source = sources.Count }) }
    ensures reason { IfErr result (IsReasonFor (totals_of office.now.ledger.tally)) }
{
    match office.sheet(is_final) {
        Ok(sheet) => {
            let mark = Mark {
                is_final,
                accepted: office.count().accepted(),
                source: Source::Count,
            };
            Ok(MarkedSheet { sheet, mark })
        }
        Err(NotGiven::NotClosed(municipality)) => {
            Err(NoSeats::Refused(Refusal::Judged(Reason::NotClosed(municipality))))
        }
        Err(NotGiven::NoSheet(none)) => Err(why_none(alloc, office.totals(), none)),
    }
}
