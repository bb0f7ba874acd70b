//! Why there is no sheet, with everything that was found out about it.
ghost use Rattle.std.specs.Prelude.{◌≡◌, ◌≤◌, Err, length};
ghost use Rattle.zh_decided.specs.Decisions.{Decides};
ghost use Rattle.zh_decided.specs.Rooms.{found};
ghost use Rattle.zh_lower.specs.Reasons.{HandsOver};
ghost use Rattle.zh_lower.specs.Tried.{AreTried};
ghost use Rattle.zh_sheet.specs.Reasons.{HaveNoSheet, IsReasonAmong, sheet_fault};
ghost use Rattle.zh_sheet.specs.Stages.{IsAsked, question_in};

use crate::fault::{SheetFault, SheetRefusal};
use crate::list_question::ListQuestion;
use crate::list_seats::ListSeats;
use std::alloc::AllocError;
use zh_decided::{Decision, MarkedRows};
use zh_lower::{Decided, NoLower, Tie};
use zh_totals::Totals;

/// Why neither the search nor the decision found divisors for a sheet. Constituencies and groups are numbered as in the set-up.
#[derive(Drop)]
pub enum ExhaustedReason {
    /// The seated groups with votes in these constituencies together have fewer seats than the constituencies, so no seats
    /// follow from any divisors.
    Impossible(MarkedRows),
    /// Two different matrices follow from the same divisors, if quotients near a half (within the factor 1 + 2^-17) can be rounded
    /// either way. They differ first in this constituency and this group.
    NearlyTied(u32, u32),
    /// These are the only seats, but no divisors in millionths give any, if those of groups are from 1.05 to 999,900 and those
    /// of constituencies from 1.05 to 999,900,000,000.
    Beyond(ListSeats),
}

/// A tie between the seats of lists, with the question for the lower apportionment.
#[derive(Drop)]
pub struct ListTie {
    pub(crate) asked: ListQuestion,
    pub(crate) tie: Tie,
}

/// Why no sheet is made, with everything that was found out about it.
#[derive(Drop)]
pub enum NoSheet {
    /// This fault, which comes before the search for the seats of the lists or is `Memory`.
    Fault(SheetFault),
    /// The seats of the lists are tied, first in this constituency and this group.
    Tied(u32, u32, ListTie),
    /// The search found neither seats of the lists nor a tie, and the decision gave no divisors for a sheet, for this reason.
    Exhausted(ExhaustedReason),
}

impl From<SheetFault> for NoSheet {
    ghost use Rattle.zh_sheet.specs.declared.reason.NoSheet.TheVariants.{Fault};

    ghost from_gives = { λ fault none. none ≡ Fault fault };

    fn from(fault: SheetFault) -> NoSheet {
        NoSheet::Fault(fault)
    }
}

impl From<AllocError> for NoSheet {
    ghost use Rattle.zh_sheet.specs.declared.fault.SheetFault.TheVariants.{Memory};
    ghost use Rattle.zh_sheet.specs.declared.reason.NoSheet.TheVariants.{Fault};

    ghost from_gives = { λ _ none. none ≡ Fault Memory };

    fn from(_error: AllocError) -> NoSheet {
        NoSheet::Fault(SheetFault::Memory)
    }
}

impl From<NoSheet> for SheetFault {
    ghost from_gives = { λ none fault. fault ≡ sheet_fault none };

    fn from(none: NoSheet) -> SheetFault {
        match none {
            NoSheet::Fault(fault) => fault,
            NoSheet::Tied(constituency, group, _) => {
                SheetFault::Refused(SheetRefusal::TiedLower(constituency, group))
            }
            NoSheet::Exhausted(_) => SheetFault::Refused(SheetRefusal::Exhausted),
        }
    }
}

/// The reason that a decision gives for the question that was asked, with constituencies and groups numbered as in the set-up.
fn reason_of(constituencies: u32, asked: ListQuestion, decided: Decided) -> ExhaustedReason
    requires rows { constituencies ≡ asked.matrix.rows }
    requires columns { length asked.seated.items ≡ asked.matrix.columns }
    requires decides { Decides (question_in asked) (found decided.findings) decided.decision }
    requires tried { AreTried (question_in asked) (found decided.findings) decided.decision }
    ensures { IsReasonAmong (question_in asked) asked.seated.items result }
{
    let groups = asked.seated;
    let Decided { decision, findings } = decided;
    match decision {
        Decision::Impossible(rows) => ExhaustedReason::Impossible(rows),
        Decision::NearlyTied(constituency, column, _divisors) => {
            ExhaustedReason::NearlyTied(constituency, groups[(column - 1) as usize])
        }
        Decision::Beyond(_divisors) => ExhaustedReason::Beyond(ListSeats::new(
            constituencies,
            groups,
            findings.seats,
        )),
        Decision::Seats => unreachable!(),
    }
}

/// Why there is no sheet if the lists get no seats. Constituencies and groups are numbered as in the set-up.
pub(crate) fn no_sheet(totals: &Totals<'_>, asked: ListQuestion, reason: NoLower) -> NoSheet
    requires asked { IsAsked totals.now asked }
    requires reason { HandsOver (question_in asked) (Err reason) }
    ensures { HaveNoSheet totals.now result }
{
    match reason {
        NoLower::Memory => NoSheet::Fault(SheetFault::Memory),
        NoLower::NoVotes(constituency) => {
            NoSheet::Fault(SheetFault::Refused(SheetRefusal::NoVotes(constituency)))
        }
        NoLower::Unbalanced => unreachable!(),
        NoLower::Tied(tie) => {
            let group = asked.seated[(tie.column - 1) as usize];
            NoSheet::Tied(tie.row, group, ListTie { asked, tie })
        }
        NoLower::Exhausted(decided) => {
            let constituencies = totals.setup().constituencies();
            NoSheet::Exhausted(reason_of(constituencies, asked, decided))
        }
    }
}
