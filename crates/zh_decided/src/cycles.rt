//! Cycles of cells along which seats can move. They are read from the trail of a sweep and cancelled, until the matrix is a
//! least-cost flow (cycle cancelling).
ghost use Rattle.std.specs.Prelude.{◌≡◌, ◌≢◌, ℕ, ◌+◌, ◌-◌, ◌<◌, ◌≤◌, IfNone, IfSome, ◌*◌, length};
ghost use Rattle.zh_decided.specs.Prices.{AreLogs, Logs, cells, cost, priced};
ghost use Rattle.zh_decided.specs.Sweeps.{step_at, IsCircle, StandsFree, last_prices, next_prices};
ghost use Rattle.zh_decided.specs.Taken.{logs};
ghost use Rattle.zh_decided.specs.Turns.{IsCheapest, IsTurned, KeepsNearlyFair, MakesAnother, PassesOn};
ghost use Rattle.zh_matrices.specs.Asked.{asked};
ghost use Rattle.zh_matrices.specs.Fitting.{FitsVotes};
ghost use Rattle.zh_matrices.specs.Question.{AreSeatTotals, cell};

use crate::prices::{LogTable, PricedSeats};
use crate::sweep_bounds::Bounds;
use crate::sweeps::{Potentials, Swept, sweep};
use zh_matrices::Question;

/// The greatest number of levels of a sweep: one more than the greatest number of columns.
pub(crate) const LEVELS: usize = 33;

/// A seat in a column moves from the row `giver` to the row `taker`.
#[derive(Clone, Copy)]
pub struct Transfer {
    pub giver: usize,
    pub column: usize,
    pub taker: usize,
}

/// The first `length` of these steps. The giver of each step is the taker of the next one, and the giver of the last step the
/// taker of the first.
#[derive(Clone, Copy)]
pub struct Cycle {
    pub(crate) steps: [Transfer; LEVELS],
    pub(crate) length: usize,
}

/// Steps back from the last level, one per level: the giver lowered the column, and the column lowered the taker. `source` is
/// the column that lowered the last giver.
#[derive(Clone, Copy)]
pub(crate) struct Trail {
    pub steps: [Transfer; LEVELS],
    pub length: usize,
    pub source: Option<usize>,
}

impl Trail {
    /// A trail of one step, whose taker is not known yet.
    pub(crate) fn new(giver: usize, column: usize, source: Option<usize>) -> Self
        ensures length { result.length ≡ 1 }
        ensures giver { (step_at result.steps 0).giver ≡ giver }
        ensures column { (step_at result.steps 0).column ≡ column }
        ensures source { result.source ≡ source }
    {
        let step = Transfer {
            giver,
            column,
            taker: giver,
        };
        Trail {
            steps: [step; LEVELS],
            length: 1,
            source,
        }
    }

    /// The place of the first step in this column, if there is one.
    pub(crate) fn position(&self, column: usize) -> Option<usize>
        requires { self.now.length ≤ 33 }
        ensures here { IfSome result (λ k. k < self.now.length) }
        ensures column { IfSome result (λ k. (step_at self.now.steps k).column ≡ column) }
        ensures nowhere { IfNone result ((k : ℕ) → k < self.now.length → (step_at self.now.steps k).column ≢ column) }
    {
        for place in 0..self.length {
            if self.steps[place].column == column {
                return Some(place);
            }
        }
        None
    }

    /// The giver of the last step.
    fn last_giver(&self) -> usize
        requires some { 1 ≤ self.now.length }
        requires few { self.now.length ≤ 33 }
        ensures { result ≡ (step_at self.now.steps (self.now.length - 1)).giver }
    {
        self.steps[self.length - 1].giver
    }

    /// The trail with one more step, a level further back.
    pub(crate) fn and(mut self, giver: usize, column: usize, source: Option<usize>) -> Self
        requires some { 1 ≤ self.length }
        requires few { self.length ≤ 32 }
        ensures length { result.length ≡ self.length + 1 }
        ensures same { (k : ℕ) → k < self.length → step_at result.steps k ≡ step_at self.steps k }
        ensures step { step_at result.steps self.length ≡ record {
          giver = giver;
          column = column;
          taker = (step_at self.steps (self.length - 1)).giver;
        } }
        ensures source { result.source ≡ source }
    {
        let taker = self.last_giver();
        self.steps[self.length] = Transfer {
            giver,
            column,
            taker,
        };
        self.length += 1;
        self.source = source;
        self
    }

    /// The steps from a place on, closed into a cycle.
    pub(crate) fn circle_from(&self, first: usize) -> Cycle
        requires few { self.now.length ≤ 33 }
        requires first { first < self.now.length }
        ensures length { result.length ≡ self.now.length - first }
        ensures giver { (k : ℕ) → k < result.length → (step_at result.steps k).giver ≡ (step_at self.now.steps (first + k)).giver }
        ensures column { (k : ℕ) → k < result.length → (step_at result.steps k).column ≡ (step_at self.now.steps (first + k)).column }
        ensures taker { (k : ℕ) → 1 ≤ k → k < result.length → (step_at result.steps k).taker ≡ (step_at self.now.steps (first + k)).taker }
        ensures closed { (step_at result.steps 0).taker ≡ (step_at self.now.steps (self.now.length - 1)).giver }
    {
        let mut steps = self.steps;
        for place in first..self.length {
            steps[place - first] = self.steps[place];
        }
        steps[0].taker = self.last_giver();
        Cycle {
            steps,
            length: self.length - first,
        }
    }
}

/// Moves the seat of one step.
fn pass(question: &Question<'_>, seats: &mut [u32], step: Transfer)
    requires seats { length seats.old ≡ question.now.rows * question.now.columns }
    requires giver { step.giver < question.now.rows }
    requires taker { step.taker < question.now.rows }
    requires column { step.column < question.now.columns }
    requires seat { 0 < cell question.now.columns seats.old step.giver step.column }
    requires few { cell question.now.columns seats.old step.taker step.column ≤ 400 }
    ensures { PassesOn (asked question.now) seats.old seats.new step }
{
    seats[step.giver * question.columns + step.column] -= 1;
    seats[step.taker * question.columns + step.column] += 1;
}

/// Cancels a cycle: moves a seat along each of its steps. The totals of rows and columns stay the same.
pub fn turn_cycle(question: &Question<'_>, seats: &mut [u32], cycle: &Cycle)
    requires totals { AreSeatTotals question.now.rows question.now.row_totals.now }
    requires fits { FitsVotes (asked question.now) seats.old }
    requires circle { IsCircle (cells (asked question.now) seats.old) cycle.now }
    ensures fits { FitsVotes (asked question.now) seats.new }
    ensures turned { IsTurned (asked question.now) cycle.now seats.old seats.new }
    ensures fair { KeepsNearlyFair (asked question.now) cycle.now seats.old seats.new }
    ensures another { MakesAnother (asked question.now) cycle.now seats.old seats.new }
    ensures cost { (l : Logs) → AreLogs l →
        cost (asked question.now) l seats.new + last_prices (priced (asked question.now) l seats.old) cycle.now
        ≤ cost (asked question.now) l seats.old + next_prices (priced (asked question.now) l seats.old) cycle.now }
{
    for place in 0..cycle.length {
        pass(question, seats, cycle.steps[place]);
    }
}

/// Cancels cycles until the cost of the matrix is least. Returns potentials that show it.
pub fn make_cheapest<'x>(
    question: &'x Question<'x>,
    logarithms: &'x LogTable<'x>,
    seats: &mut [u32],
) -> Potentials
    requires totals { AreSeatTotals question.now.rows question.now.row_totals.now }
    requires votes { length logarithms.now.of_votes.now ≡ question.now.rows * question.now.columns }
    requires fits { FitsVotes (asked question.now) seats.old }
    ensures fits { FitsVotes (asked question.now) seats.new }
    ensures cheapest { IsCheapest (asked question.now) (logs logarithms.now) seats.new }
    ensures still { StandsFree (priced (asked question.now) (logs logarithms.now) seats.new) 0 0 result }
{
    loop {
        let priced = PricedSeats {
            question: &*question,
            logarithms: &*logarithms,
            seats: &*seats,
        };
        match sweep(&priced, Bounds::free(0, 0)) {
            Swept::Still(potentials) => return potentials,
            Swept::Cycle(cycle) => turn_cycle(question, seats, &cycle),
            Swept::Out => unreachable!(),
        }
    }
}
