//! After a search without seats: the seats of the decision, and divisors that give them.
ghost use Rattle.std.specs.Bool.{OnFalse, OnTrue};
ghost use Rattle.std.specs.Prelude.{◌≡◌, ◌*◌, ◌≤◌, All, IsTrue, length};
ghost use Rattle.zh_decided.specs.Boxes.{GiveWithin};
ghost use Rattle.zh_decided.specs.Decisions.{Decides};
ghost use Rattle.zh_decided.specs.Rooms.{found};
ghost use Rattle.zh_matrices.specs.Asked.{asked};
ghost use Rattle.zh_matrices.specs.Divisors.{AreWithinLimits};
ghost use Rattle.zh_lower.specs.Outcomes.{IsProper};
ghost use Rattle.zh_lower.specs.Tried.{AreTried};
ghost use Rattle.zh_lower.specs.Rooms.{IsDivisorRoom, divisors_in};
ghost use Rattle.zh_lower.specs.Second.{HaveNoSecond, IsSecondFor};
ghost use Rattle.zh_lower.specs.Shown.{IsSecondOrThird, IsThird};
ghost use Rattle.zh_matrices.specs.SeatMatrix.{IsStrict};

use crate::divisors::{DivisorRoom, find_divisors, gives_from};
use zh_decided::{Decision, Findings};
use zh_matrices::{Proposal, Question};

/// What was decided for a question for which the search found no seats.
#[derive(Drop)]
pub struct Decided {
    pub decision: Decision,
    pub findings: Findings,
}

/// The scale by which columns are divided, so that their limit of 1,000,000 becomes 1.
const SCALE: u64 = 1_000_000;

/// Leaves in `room` divisors that give the seats: the middle from the columns of the decision, which is easier to read, or the
/// divisors of the decision themselves if that middle does not give the seats.
fn make_readable<'x>(question: &'x Question<'x>, decided: &'x Findings, room: &mut DivisorRoom)
    requires proper { IsProper (asked question.now) }
    requires give { GiveWithin (asked question.now) decided.now.of_rows.items decided.now.of_columns.items decided.now.seats.items }
    requires few { All (λ s. s ≤ 400) decided.now.seats.items }
    requires room { IsDivisorRoom (asked question.now) room.old }
    ensures third { IsThird (asked question.now) (divisors_in room.new) }
    ensures strict { IsStrict (asked question.now) (divisors_in room.new) decided.now.seats.items }
    ensures limits { AreWithinLimits (asked question.now) room.new.of_rows.items room.new.of_columns.items }
{
    room.greatest.copy_from_slice(&decided.of_columns);
    let proposal = Proposal {
        question: &*question,
        seats: decided.seats.as_slice(),
    };
    if gives_from(&proposal, SCALE, room) {
        return;
    }
    room.of_rows.copy_from_slice(&decided.of_rows);
    room.of_columns.copy_from_slice(&decided.of_columns);
}

/// Copies the seats to `into` and tells whether they have a middle (`IsSecondFor`), which is left in `room`.
fn try_seats<'x>(
    question: &'x Question<'x>,
    seats: &'x [u32],
    into: &mut [u32],
    room: &mut DivisorRoom,
) -> bool
    requires proper { IsProper (asked question.now) }
    requires seats { length seats.now ≡ question.now.rows * question.now.columns }
    requires few { All (λ s. s ≤ 400) seats.now }
    requires into { length into.old ≡ question.now.rows * question.now.columns }
    requires room { IsDivisorRoom (asked question.now) room.old }
    ensures taken { into.new ≡ seats.now }
    ensures second { OnTrue result (IsSecondFor (asked question.now) seats.now (divisors_in room.new)) }
    ensures limits { IsTrue result → AreWithinLimits (asked question.now) room.new.of_rows.items room.new.of_columns.items }
    ensures none { OnFalse result (HaveNoSecond (asked question.now) seats.now) }
    ensures room { IsDivisorRoom (asked question.now) room.new }
{
    into.copy_from_slice(seats);
    let proposal = Proposal {
        question: &*question,
        seats: &*seats,
    };
    find_divisors(&proposal, room)
}

/// Whether this decision gives seats with divisors in millionths: the middle for one of its matrices, or else the divisors of
/// the decision itself, made easier to read if possible. The seats are left in `seats`, and the divisors in `room`.
pub(crate) fn seats_by_decision(
    question: &Question<'_>,
    decided: &Decided,
    seats: &mut [u32],
    room: &mut DivisorRoom,
) -> bool
    requires proper { IsProper (asked question.now) }
    requires decides { Decides (asked question.now) (found decided.now.findings) decided.now.decision }
    requires seats { length seats.old ≡ question.now.rows * question.now.columns }
    requires room { IsDivisorRoom (asked question.now) room.old }
    ensures later { OnTrue result (IsSecondOrThird (asked question.now) (divisors_in room.new)) }
    ensures strict { IsTrue result → IsStrict (asked question.now) (divisors_in room.new) seats.new }
    ensures limits { IsTrue result → AreWithinLimits (asked question.now) room.new.of_rows.items room.new.of_columns.items }
    ensures tried { OnFalse result (AreTried (asked question.now) (found decided.now.findings) decided.now.decision) }
{
    let findings = &decided.findings;
    match &decided.decision {
        Decision::Seats => {
            if !try_seats(&*question, &findings.seats, seats, room) {
                make_readable(&*question, findings, room);
            }
            true
        }
        Decision::NearlyTied(_row, _column, _divisors) => {
            try_seats(&*question, &findings.seats, seats, room)
                || try_seats(&*question, &findings.others, seats, room)
        }
        Decision::Beyond(_divisors) => try_seats(&*question, &findings.seats, seats, room),
        Decision::Impossible(_rows) => false,
    }
}
