//! Divisors for seats that are found elsewhere: the middle of those that give them.
ghost use Rattle.std.specs.Bool.{OnFalse, OnTrue};
ghost use Rattle.std.specs.Prelude.{◌≡◌, ℕ, ◌*◌, ◌/◌, ◌^◌, ◌≤◌, ◌↔◌, IsTrue, List, length};
ghost use Rattle.zh_lower.specs.Outcomes.{IsProper};
ghost use Rattle.zh_lower.specs.Rooms.{IsDivisorRoom, divisors_in};
ghost use Rattle.zh_lower.specs.Second.{HaveNoSecond, IsMiddle, IsSecondFor, IsSecondWithin, middle_from, scaled_down};
ghost use Rattle.zh_matrices.specs.Asked.{asked};
ghost use Rattle.zh_matrices.specs.Divisors.{AreWithin, AreWithinLimits, Divisors, millionths};
ghost use Rattle.zh_matrices.specs.SeatMatrix.{IsStrict};

use crate::extremes::settle;
use crate::half_step::{middle_columns, middle_rows};
use std::alloc::{AllocError, Global};
use zh_matrices::{Proposal, Question, Rounding, follows};

/// Divisors in millionths, and the room for finding them.
#[derive(Drop)]
pub(crate) struct DivisorRoom {
    pub of_rows: Vec<u64>,
    pub of_columns: Vec<u64>,
    /// The column divisors from which a middle is computed: the greatest that give some seats, or those of the decision.
    pub greatest: Vec<u64>,
}

impl DivisorRoom {
    ghost use Rattle.std.specs.Prelude.{IfOk};
    ghost use Rattle.zh_matrices.specs.Asked.{asked};
    ghost use Rattle.zh_lower.specs.Rooms.{IsDivisorRoom};

    /// Room for the divisors of a question. Fails if memory is refused.
    pub fn new(alloc: Global, question: &Question<'_>) -> Result<DivisorRoom, AllocError>
        ensures { IfOk result (IsDivisorRoom (asked question.now)) }
    {
        Ok(DivisorRoom {
            of_rows: vec![in alloc; 0; question.rows]?,
            of_columns: vec![in alloc; 0; question.columns]?,
            greatest: vec![in alloc; 0; question.columns]?,
        })
    }
}

const NARROW: u64 = 1_000_000_000;

const WIDE: u64 = 1_000_000_000_000;

/// Whether the middle from the column divisors in `room` gives the seats. The middle is left there.
fn middle_gives(proposal: &Proposal<'_>, room: &mut DivisorRoom) -> bool
    requires proper { IsProper (asked proposal.now.question.now) }
    requires room { IsDivisorRoom (asked proposal.now.question.now) room.old }
    requires columns { AreWithin proposal.now.question.now.columns (10 ^ 12) room.old.of_columns.items }
    ensures middle { divisors_in room.new ≡ middle_from (asked proposal.now.question.now) room.old.of_columns.items }
    ensures limits { AreWithinLimits (asked proposal.now.question.now) room.new.of_rows.items room.new.of_columns.items }
    ensures gives { IsTrue result ↔ IsStrict (asked proposal.now.question.now) (divisors_in room.new) proposal.now.seats.now }
    ensures greatest { room.new.greatest.items ≡ room.old.greatest.items }
    ensures room { IsDivisorRoom (asked proposal.now.question.now) room.new }
{
    middle(proposal.question, &mut room.of_rows, &mut room.of_columns);
    follows(Rounding::Strict, proposal, &room.of_rows, &room.of_columns)
}

/// Whether a middle from the column divisors in `room.greatest` gives the seats, which must be the only ones that follow
/// strictly from any divisors: the middle from these divisors over `scale` or, if that fails, from them as they are. The middle
/// is left in `room`.
pub(crate) fn gives_from(proposal: &Proposal<'_>, scale: u64, room: &mut DivisorRoom) -> bool
    requires proper { IsProper (asked proposal.now.question.now) }
    requires room { IsDivisorRoom (asked proposal.now.question.now) room.old }
    requires greatest { AreWithin proposal.now.question.now.columns (10 ^ 12) room.old.greatest.items }
    requires scale { 1 ≤ scale }
    requires only { (x : Divisors) (others : List ℕ) →
        IsStrict (asked proposal.now.question.now) x others → others ≡ proposal.now.seats.now }
    ensures middle { IsTrue result → IsMiddle (asked proposal.now.question.now) scale room.old.greatest.items (divisors_in room.new) }
    ensures strict { IsTrue result → IsStrict (asked proposal.now.question.now) (divisors_in room.new) proposal.now.seats.now }
    ensures none { OnFalse result ((x : Divisors) → IsMiddle (asked proposal.now.question.now) scale room.old.greatest.items x →
        ¬ IsStrict (asked proposal.now.question.now) x proposal.now.seats.now) }
    ensures limits { AreWithinLimits (asked proposal.now.question.now) room.new.of_rows.items room.new.of_columns.items }
    ensures room { IsDivisorRoom (asked proposal.now.question.now) room.new }
{
    scale_down(&room.greatest, scale, &mut room.of_columns);
    if middle_gives(proposal, room) {
        return true;
    }
    room.of_columns.copy_from_slice(&room.greatest);
    middle_gives(proposal, room)
}

/// Whether the seats have a middle with column divisors up to `top` (`IsSecondWithin`), which is left in `room`.
fn find_within(proposal: &Proposal<'_>, top: u64, room: &mut DivisorRoom) -> bool
    requires proper { IsProper (asked proposal.now.question.now) }
    requires room { IsDivisorRoom (asked proposal.now.question.now) room.old }
    requires from { 1000000 ≤ top }
    requires at_most { top ≤ 10 ^ 12 }
    ensures second { OnTrue result
        (IsSecondWithin (asked proposal.now.question.now) top proposal.now.seats.now (divisors_in room.new)) }
    ensures limits { IsTrue result →
        AreWithinLimits (asked proposal.now.question.now) room.new.of_rows.items room.new.of_columns.items }
    ensures none { OnFalse result
        ((x : Divisors) → ¬ IsSecondWithin (asked proposal.now.question.now) top proposal.now.seats.now x) }
    ensures room { IsDivisorRoom (asked proposal.now.question.now) room.new }
{
    if !settle(proposal, top, &mut room.of_rows, &mut room.greatest) {
        return false;
    }
    if !follows(Rounding::Strict, proposal, &room.of_rows, &room.greatest) {
        return false;
    }
    gives_from(proposal, top / 1_000_000, room)
}

/// Whether the seats have a middle with column divisors up to 1,000 or, if not, up to 1,000,000. It is left in `room`.
pub(crate) fn find_divisors(proposal: &Proposal<'_>, room: &mut DivisorRoom) -> bool
    requires proper { IsProper (asked proposal.now.question.now) }
    requires room { IsDivisorRoom (asked proposal.now.question.now) room.old }
    ensures second { OnTrue result (IsSecondFor (asked proposal.now.question.now) proposal.now.seats.now (divisors_in room.new)) }
    ensures limits { IsTrue result →
        AreWithinLimits (asked proposal.now.question.now) room.new.of_rows.items room.new.of_columns.items }
    ensures none { OnFalse result (HaveNoSecond (asked proposal.now.question.now) proposal.now.seats.now) }
    ensures room { IsDivisorRoom (asked proposal.now.question.now) room.new }
{
    find_within(proposal, NARROW, room) || find_within(proposal, WIDE, room)
}

const TIMES: u32 = 16;

/// Sets each row divisor, and then each column divisor, to the middle of its range, 16 times.
pub(crate) fn middle(question: &Question<'_>, of_rows: &mut [u64], of_columns: &mut [u64])
    requires proper { IsProper (asked question.now) }
    requires rows { length of_rows.old ≡ question.now.rows }
    requires columns { AreWithin question.now.columns (10 ^ 12) of_columns.old }
    ensures middle { millionths of_rows.new of_columns.new ≡ middle_from (asked question.now) of_columns.old }
    ensures limits { AreWithinLimits (asked question.now) of_rows.new of_columns.new }
{
    for _time in 0..TIMES {
        middle_rows(question, of_columns, of_rows);
        middle_columns(question, of_rows, of_columns);
    }
}

/// Writes the column divisors over `scale`, rounded down but not below 1 millionth, to `into`.
pub(crate) fn scale_down(of_columns: &[u64], scale: u64, into: &mut [u64])
    requires scale { 1 ≤ scale }
    requires room { length into.old ≡ length of_columns.now }
    ensures { into.new ≡ scaled_down scale of_columns.now }
{
    for column in 0..of_columns.len() {
        into[column] = (of_columns[column] / scale).max(1);
    }
}
