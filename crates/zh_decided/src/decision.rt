//! The decision: it finds a matrix with the totals, makes it a least-cost flow, and takes the divisors from the flow's
//! potentials.
ghost use Rattle.std.specs.Prelude.{◌≡◌, IfOk, length, ◌*◌, ◌≤◌, ◌↔◌, IfSome};
ghost use Rattle.zh_decided.specs.Boxes.{NoneGiven};
ghost use Rattle.zh_decided.specs.Decisions.{Decides, GivesOrBeyond, LeavesNone, SaysImpossible};
ghost use Rattle.zh_decided.specs.Floats.{floating};
ghost use Rattle.zh_decided.specs.Gaps.{IsGap};
ghost use Rattle.zh_decided.specs.Impossible.{IsPossible};
ghost use Rattle.zh_decided.specs.Rooms.{IsDecisionRoom, IsFindingsRoom, found};
ghost use Rattle.zh_decided.specs.Sweeps.{StandsFree};
ghost use Rattle.zh_decided.specs.Tables.{AreLogTables};
ghost use Rattle.zh_decided.specs.Taken.{logs, priced_in};
ghost use Rattle.zh_decided.specs.Ways.{AreBalanced};
ghost use Rattle.zh_matrices.specs.Asked.{asked};
ghost use Rattle.zh_matrices.specs.Fitting.{FitsVotes};
ghost use Rattle.zh_matrices.specs.NearlyTied.{AreNearlyTied};
ghost use Rattle.zh_matrices.specs.Question.{AreSeatTotals};

use crate::boxes::give_within;
use crate::cycles::{make_cheapest, turn_cycle};
use crate::differences::first_difference;
use crate::floating::{FloatingDivisors, floating_divisors};
use crate::impossible::{MarkedRows, place_all};
use crate::logarithms::{take_odd_logarithms, take_vote_logarithms};
use crate::prices::{LogTable, PricedSeats};
use crate::sweep_bounds::Bounds;
use crate::sweeps::{Gap, Potentials, Swept, close_gap, sweep};
use std::alloc::{AllocError, Global};
use zh_matrices::Question;

/// What was decided for a question.
#[derive(Drop)]
pub enum Decision {
    /// No matrix on the votes has the totals: the votes of these rows lie in columns that together have fewer seats than these
    /// rows.
    Impossible(MarkedRows),
    /// Divisors in millionths give the seats, with no quotient on a half.
    Seats,
    /// A near tie: two different matrices nearly follow from these divisors. The first cell in which they differ is in this row
    /// and this column, both counted from 1.
    NearlyTied(u32, u32, FloatingDivisors),
    /// The seats follow strictly from these divisors. No divisors in millionths give any seats, if those of rows are from 1.05
    /// to 999,900,000,000 and those of columns from 1.05 to 999,900.
    Beyond(FloatingDivisors),
}

/// How many odd numbers have a logarithm in the tables: those from 1 to 801.
pub(crate) const ODDS: usize = 401;

/// What a decision found: the seats of each cell, row by row; the divisors in millionths that give them; and the other matrix
/// of a near tie. The seats are valid after every decision but `Impossible`, the divisors after `Seats`, the other matrix after
/// `NearlyTied`.
#[derive(Drop)]
pub struct Findings {
    pub seats: Vec<u32>,
    pub of_rows: Vec<u64>,
    pub of_columns: Vec<u64>,
    pub others: Vec<u32>,
}

/// Room for a decision, which leaves its findings there.
#[derive(Drop)]
pub struct DecisionRoom {
    pub findings: Findings,
    pub(crate) vote_logarithms: Vec<u64>,
    pub(crate) odd_logarithms: Vec<u64>,
}

/// A vector of `count` zeros.
fn zeros(alloc: Global, count: usize) -> Result<Vec<u64>, AllocError>
    ensures { IfOk result (λ zeros. length zeros.items ≡ count) }
{
    vec![in alloc; 0; count]
}

impl DecisionRoom {
    ghost use Rattle.std.specs.Prelude.{◌≤◌};
    ghost use Rattle.zh_decided.specs.Rooms.{IsDecisionRoom};

    /// Room for a question with this many rows and columns, at most 32 each. Fails if memory is refused.
    pub fn new(alloc: Global, rows: usize, columns: usize) -> Result<Self, AllocError>
        requires few_rows { rows ≤ 32 }
        requires few_columns { columns ≤ 32 }
        ensures { IfOk result (IsDecisionRoom rows columns) }
    {
        Ok(DecisionRoom {
            findings: Findings {
                seats: vec![in alloc; 0; rows * columns]?,
                of_rows: zeros(alloc, rows)?,
                of_columns: zeros(alloc, columns)?,
                others: vec![in alloc; 0; rows * columns]?,
            },
            vote_logarithms: zeros(alloc, rows * columns)?,
            odd_logarithms: zeros(alloc, ODDS)?,
        })
    }
}

/// The slacks of a decision: each next seat must be too expensive by `GIVEN`, and each last seat cheap enough by `TAKEN`. They
/// cover the rounding of divisors from 2^20 millionths on (4,096 units) and the errors of the logarithms (6 units). A matrix
/// that is a least-cost flow with these slacks is the only one that follows from any divisors.
const GIVEN: u64 = 4_102;

const TAKEN: u64 = 6;

/// The sweep with these slacks ended at these potentials, so the seats are the only ones. Either divisors in millionths give
/// them and are written to `of_rows` and `of_columns`, or no divisors in millionths in the ranges of `Beyond` do, and
/// floating-point divisors are returned.
fn only_seats(
    priced: &PricedSeats<'_>,
    potentials: &Potentials,
    of_rows: &mut [u64],
    of_columns: &mut [u64],
) -> Option<FloatingDivisors>
    requires totals { AreSeatTotals priced.now.question.now.rows priced.now.question.now.row_totals.now }
    requires tables { AreLogTables (asked priced.now.question.now) (logs priced.now.logarithms.now) }
    requires fits { FitsVotes (asked priced.now.question.now) priced.now.seats.now }
    requires still { StandsFree (priced_in priced.now) 4102 6 potentials.now }
    requires rows { length of_rows.old ≡ priced.now.question.now.rows }
    requires columns { length of_columns.old ≡ priced.now.question.now.columns }
    ensures decides { GivesOrBeyond (asked priced.now.question.now) of_rows.new of_columns.new priced.now.seats.now result }
    ensures none { IfSome result (λ _. NoneGiven (asked priced.now.question.now)) }
{
    if give_within(priced, of_rows, of_columns) {
        return None;
    }
    Some(floating_divisors(priced.question, potentials))
}

/// The sweep with these slacks ended in a cycle, so the matrix is nearly tied with another one, which is written to `others`.
/// Returns the row and the column of the first cell in which they differ, both counted from 1, and divisors from which both
/// nearly follow.
fn near_tie(priced: &PricedSeats<'_>, gap: Gap, others: &mut [u32]) -> (u32, u32, FloatingDivisors)
    requires totals { AreSeatTotals priced.now.question.now.rows priced.now.question.now.row_totals.now }
    requires tables { AreLogTables (asked priced.now.question.now) (logs priced.now.logarithms.now) }
    requires fits { FitsVotes (asked priced.now.question.now) priced.now.seats.now }
    requires gap { IsGap (priced_in priced.now) gap }
    requires narrow { gap.cycle_at ≤ 4108 }
    requires others { length others.old ≡ priced.now.question.now.rows * priced.now.question.now.columns }
    ensures tied { AreNearlyTied (asked priced.now.question.now) (floating result.2) priced.now.seats.now others.new result.0 result.1 }
    ensures other_fits { FitsVotes (asked priced.now.question.now) others.new }
{
    let gap = close_gap(priced, gap);
    others.copy_from_slice(priced.seats);
    turn_cycle(priced.question, others, &gap.cycle);
    let Some((row, column)) = first_difference(priced.question, priced.seats, others) else {
        unreachable!();
    };
    (
        row,
        column,
        floating_divisors(priced.question, &gap.potentials),
    )
}

/// Decides with tables of logarithms. `findings` must contain a matrix on the votes with the totals; the seats of the decision
/// replace it.
fn decide_by<'x>(
    question: &'x Question<'x>,
    logarithms: &'x LogTable<'x>,
    findings: &mut Findings,
) -> Decision
    requires totals { AreSeatTotals question.now.rows question.now.row_totals.now }
    requires tables { AreLogTables (asked question.now) (logs logarithms.now) }
    requires fits { FitsVotes (asked question.now) findings.old.seats.items }
    requires room { IsFindingsRoom question.now.rows question.now.columns findings.old }
    ensures decides { Decides (asked question.now) (found findings.new) result }
    ensures possible { ¬ SaysImpossible result }
    ensures none { LeavesNone (asked question.now) result }
{
    let potentials = make_cheapest(question, logarithms, &mut findings.seats);
    let seats = findings.seats.as_slice();
    let priced = PricedSeats {
        question: &*question,
        logarithms: &*logarithms,
        seats,
    };
    match sweep(&priced, Bounds::free(GIVEN, TAKEN)) {
        Swept::Still(potentials) => {
            let (of_rows, of_columns) = (&mut findings.of_rows, &mut findings.of_columns);
            match only_seats(&priced, &potentials, of_rows, of_columns) {
                None => Decision::Seats,
                Some(divisors) => Decision::Beyond(divisors),
            }
        }
        Swept::Cycle(cycle) => {
            let gap = Gap {
                still_at: 0,
                cycle_at: GIVEN + TAKEN,
                potentials,
                cycle,
            };
            let (row, column, divisors) = near_tie(&priced, gap, &mut findings.others);
            Decision::NearlyTied(row, column, divisors)
        }
        Swept::Out => unreachable!(),
    }
}

/// Decides a question. Its row totals and its column totals must have the same sum.
///
/// `Impossible` is returned if and only if no matrix on the votes has the totals. The other decisions leave their findings in
/// the room.
pub fn decide(question: &Question<'_>, room: &mut DecisionRoom) -> Decision
    requires totals { AreSeatTotals question.now.rows question.now.row_totals.now }
    requires balanced { AreBalanced (asked question.now) }
    requires room { IsDecisionRoom question.now.rows question.now.columns room.old }
    ensures decides { Decides (asked question.now) (found room.new.findings) result }
    ensures impossible { SaysImpossible result ↔ (¬ IsPossible (asked question.now)) }
    ensures none { LeavesNone (asked question.now) result }
{
    if let Err(rows) = place_all(question, &mut room.findings.seats) {
        return Decision::Impossible(rows);
    }
    take_vote_logarithms(question, &mut room.vote_logarithms);
    take_odd_logarithms(&mut room.odd_logarithms);
    let logarithms = LogTable {
        of_votes: &room.vote_logarithms,
        of_odds: &room.odd_logarithms,
    };
    decide_by(question, &logarithms, &mut room.findings)
}
