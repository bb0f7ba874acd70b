//! The levels of a sweep. Each level is one round of Bellman-Ford: first the rows, then the columns.
ghost use Rattle.std.specs.Prelude.{◌≡◌, ℕ, ◌<◌, ◌≤◌, IfNone, IfSome, None, Some, slice_index, ◌^◌};
ghost use Rattle.zh_decided.specs.Taken.{priced_in};
ghost use Rattle.zh_decided.specs.Levels as words;

use crate::cycles::{Cycle, Trail};
use crate::prices::{Mark, PricedSeats};
use crate::sweep_bounds::Bounds;
use crate::sweeps::Potentials;
use zh_matrices::{LINES, Question};

/// How a sweep ends, or the trail of a column whose potential still falls at the last level.
#[derive(Clone, Copy)]
pub(crate) enum Descent {
    Still(Potentials),
    Out,
    Cycle(Cycle),
    Falls(Trail),
}

/// The first column whose potential fell at this level, and the row that lowered it.
fn first_fallen(question: &Question<'_>, columns: &[Mark; LINES]) -> Option<(usize, usize)>
    ensures column { IfSome result (λ fallen. fallen.0 < question.now.columns) }
    ensures maker { IfSome result (λ fallen. (words.mark_at columns.now fallen.0).maker ≡ Some fallen.1) }
    ensures none { IfNone result ((g : ℕ) → g < question.now.columns → (words.mark_at columns.now g).maker ≡ None) }
{
    for column in 0..question.columns {
        if let Some(row) = columns[column].maker {
            return Some((column, row));
        }
    }
    None
}

/// The potentials of these marks.
fn potentials(marks: &[Mark; LINES]) -> [u64; LINES]
    ensures { (i : ℕ) → i < 32 → slice_index result i ≡ words.potential_at marks.now i }
{
    let mut potentials = [0; LINES];
    for line in 0..LINES {
        potentials[line] = marks[line].potential;
    }
    potentials
}

/// Continues a sweep from these columns: this level, and up to `levels` more.
pub(crate) fn descend(
    priced: &PricedSeats<'_>,
    bounds: Bounds,
    columns: &[Mark; LINES],
    levels: usize,
) -> Descent
    requires caps { (g : ℕ) → g < priced.now.question.now.columns → words.potential_at columns.now g ≤ bounds.column_cap }
    requires above { words.AreAbove (priced_in priced.now) bounds columns.now }
    requires levels { levels ≤ 32 }
    ensures { words.Descends (priced_in priced.now) bounds levels columns.now result }
{
    let Some(rows) = row_marks(priced, bounds, columns) else {
        return Descent::Out;
    };
    let Some(lower) = column_marks(priced, bounds, &rows, columns) else {
        return Descent::Out;
    };
    let Some((fallen, maker)) = first_fallen(priced.question, &lower) else {
        return Descent::Still(Potentials {
            of_rows: potentials(&rows),
            of_columns: potentials(&lower),
        });
    };
    if levels == 0 {
        return Descent::Falls(Trail::new(maker, fallen, rows[maker].maker));
    }
    match descend(priced, bounds, &lower, levels - 1) {
        Descent::Falls(trail) => {
            let Some(column) = trail.source else {
                unreachable!();
            };
            if let Some(first) = trail.position(column) {
                return Descent::Cycle(trail.circle_from(first));
            }
            let Some(giver) = lower[column].maker else {
                unreachable!();
            };
            Descent::Falls(trail.and(giver, column, rows[giver].maker))
        }
        end => end,
    }
}

/// The marks of the rows that follow from these columns. `None` if the potential of a row falls below its floor.
pub(crate) fn row_marks(
    priced: &PricedSeats<'_>,
    bounds: Bounds,
    columns: &[Mark; LINES],
) -> Option<[Mark; LINES]>
    requires columns { (g : ℕ) → g < priced.now.question.now.columns → words.potential_at columns.now g ≤ 2 ^ 44 }
    ensures marks { IfSome result (words.AreRowMarks (priced_in priced.now) bounds columns.now) }
    ensures low { IfNone result (words.IsLowRow (priced_in priced.now) bounds columns.now) }
{
    let mut rows = [Mark {
        potential: 0,
        maker: None,
    }; LINES];
    for row in 0..priced.question.rows {
        let mark = priced.row_mark(bounds, columns, row);
        if mark.potential < bounds.row_floor {
            return None;
        }
        rows[row] = mark;
    }
    Some(rows)
}

/// The marks of the columns that follow from these rows, none above its potential `before`. `None` if the potential of a column
/// falls below its floor.
pub(crate) fn column_marks(
    priced: &PricedSeats<'_>,
    bounds: Bounds,
    rows: &[Mark; LINES],
    before: &[Mark; LINES],
) -> Option<[Mark; LINES]>
    ensures marks { IfSome result
        (words.AreColumnMarks (priced_in priced.now) bounds rows.now before.now) }
    ensures low { IfNone result
        (words.IsLowColumn (priced_in priced.now) bounds rows.now before.now) }
{
    let mut columns = [Mark {
        potential: 0,
        maker: None,
    }; LINES];
    for column in 0..priced.question.columns {
        let before = before[column].potential;
        let mark = priced.column_mark(bounds, rows, before, column);
        if mark.potential < bounds.column_floor {
            return None;
        }
        columns[column] = mark;
    }
    Some(columns)
}
