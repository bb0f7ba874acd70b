//! Augmenting paths. A way says how a row can take one more seat: in a column that is short of one, or from a row that has a
//! way itself.
ghost use Rattle.std.specs.Prelude.{◌≡◌, ℕ, ◌*◌, ◌<◌, ◌↔◌, IfNone, IfSome, IsTrue, None, Some, length};
ghost use Rattle.zh_matrices.specs.Asked.{asked};
ghost use Rattle.zh_decided.specs.Bounds.{asked_in, bounds_of};
ghost use Rattle.zh_decided.specs.Ways as words;

use crate::cells::CellBounds;
use zh_matrices::{LINES, Question, column_sum, row_sum};

/// Where a seat in a column comes from.
#[derive(Clone, Copy)]
pub(crate) enum Source {
    /// The column is short of a seat.
    Spare,
    /// This row gives up a seat.
    Giver(usize),
}

/// How a row can take one more seat.
#[derive(Clone, Copy)]
pub(crate) struct Way {
    /// The column in which it takes the seat.
    pub column: usize,
    pub source: Source,
    /// How many rows had a way before this one.
    pub rank: usize,
}

/// Whether a row has fewer seats than it is to get.
pub(crate) fn row_lacks(question: &Question<'_>, seats: &[u32], row: usize) -> bool
    requires seats { length seats.now ≡ question.now.rows * question.now.columns }
    requires row { row < question.now.rows }
    ensures { IsTrue result ↔ words.RowLacks (asked question.now) seats.now row }
{
    row_sum(question, seats, row) < u64::from(question.row_totals[row])
}

/// Whether a column has fewer seats than it is to get.
pub(crate) fn column_lacks(question: &Question<'_>, seats: &[u32], column: usize) -> bool
    requires seats { length seats.now ≡ question.now.rows * question.now.columns }
    requires column { column < question.now.columns }
    ensures { IsTrue result ↔ words.ColumnLacks (asked question.now) seats.now column }
{
    column_sum(question, seats, column) < u64::from(question.column_totals[column])
}

/// A row that has a way and can give up a seat in a column.
fn giver(
    bounds: &CellBounds<'_>,
    seats: &[u32],
    ways: &[Option<Way>],
    column: usize,
) -> Option<usize>
    requires seats { length seats.now ≡ bounds.now.question.now.rows * bounds.now.question.now.columns }
    requires ways { length ways.now ≡ 32 }
    requires column { column < bounds.now.question.now.columns }
    ensures giver { IfSome result (words.CanGive (asked_in bounds.now) (bounds_of bounds.now) seats.now ways.now column) }
    ensures none { IfNone result (words.HasNoGiver (asked_in bounds.now) (bounds_of bounds.now) seats.now ways.now column) }
{
    for row in 0..bounds.question.rows {
        let place = row * bounds.question.columns + column;
        if ways[row].is_some() && bounds.least[place] < seats[place] {
            return Some(row);
        }
    }
    None
}

/// Where a seat in a column can come from.
fn source_of(
    bounds: &CellBounds<'_>,
    seats: &[u32],
    ways: &[Option<Way>],
    column: usize,
) -> Option<Source>
    requires seats { length seats.now ≡ bounds.now.question.now.rows * bounds.now.question.now.columns }
    requires ways { length ways.now ≡ 32 }
    requires column { column < bounds.now.question.now.columns }
    ensures source { IfSome result (words.IsSource (asked_in bounds.now) (bounds_of bounds.now) seats.now ways.now column) }
    ensures none { IfNone result (words.HasNoSource (asked_in bounds.now) (bounds_of bounds.now) seats.now ways.now column) }
{
    if column_lacks(bounds.question, seats, column) {
        return Some(Source::Spare);
    }
    match giver(bounds, seats, ways, column) {
        Some(row) => Some(Source::Giver(row)),
        None => None,
    }
}

/// Looks for a source for each column that has none yet.
fn add_sources(
    bounds: &CellBounds<'_>,
    seats: &[u32],
    ways: &[Option<Way>],
    sources: &mut [Option<Source>],
)
    requires seats { length seats.now ≡ bounds.now.question.now.rows * bounds.now.question.now.columns }
    requires ways { length ways.now ≡ 32 }
    requires table { length sources.old ≡ 32 }
    requires sources { words.AreSources (asked_in bounds.now) (bounds_of bounds.now) seats.now ways.now sources.old }
    ensures sources { words.AreSources (asked_in bounds.now) (bounds_of bounds.now) seats.now ways.now sources.new }
    ensures none { words.AreAllSources (asked_in bounds.now) (bounds_of bounds.now) seats.now ways.now sources.new }
{
    for column in 0..bounds.question.columns {
        if sources[column].is_none() {
            sources[column] = source_of(bounds, seats, ways, column);
        }
    }
}

/// The first column with a source in which a row can take one more seat.
fn open_column(
    bounds: &CellBounds<'_>,
    seats: &[u32],
    sources: &[Option<Source>],
    row: usize,
) -> Option<(usize, Source)>
    requires seats { length seats.now ≡ bounds.now.question.now.rows * bounds.now.question.now.columns }
    requires sources { length sources.now ≡ 32 }
    requires row { row < bounds.now.question.now.rows }
    ensures column { IfSome result (λ next. next.0 < bounds.now.question.now.columns) }
    ensures room { IfSome result (λ next. words.IsBelowMost (asked_in bounds.now) (bounds_of bounds.now) seats.now row next.0) }
    ensures source { IfSome result (λ next. words.source_at sources.now next.0 ≡ Some next.1) }
    ensures none { IfNone result ((g : ℕ) → g < bounds.now.question.now.columns →
        words.IsBelowMost (asked_in bounds.now) (bounds_of bounds.now) seats.now row g → words.source_at sources.now g ≡ None) }
{
    for column in 0..bounds.question.columns {
        let place = row * bounds.question.columns + column;
        if seats[place] < bounds.most[place]
            && let Some(source) = sources[column]
        {
            return Some((column, source));
        }
    }
    None
}

/// The first row that has no way yet but can take one more seat in a column with a source. Returns the row, the column and the
/// source.
fn next_row(
    bounds: &CellBounds<'_>,
    seats: &[u32],
    ways: &[Option<Way>],
    sources: &[Option<Source>],
) -> Option<(usize, usize, Source)>
    requires seats { length seats.now ≡ bounds.now.question.now.rows * bounds.now.question.now.columns }
    requires ways { length ways.now ≡ 32 }
    requires table { length sources.now ≡ 32 }
    requires all { words.AreAllSources (asked_in bounds.now) (bounds_of bounds.now) seats.now ways.now sources.now }
    ensures row { IfSome result (λ next. next.0 < bounds.now.question.now.rows) }
    ensures new { IfSome result (λ next. words.way_at ways.now next.0 ≡ None) }
    ensures column { IfSome result (λ next. next.1 < bounds.now.question.now.columns) }
    ensures room { IfSome result (λ next. words.IsBelowMost (asked_in bounds.now) (bounds_of bounds.now) seats.now next.0 next.1) }
    ensures source { IfSome result (λ next. words.source_at sources.now next.1 ≡ Some next.2) }
    ensures none { IfNone result (words.AreAllFound (asked_in bounds.now) (bounds_of bounds.now) seats.now ways.now) }
{
    for row in 0..bounds.question.rows {
        if ways[row].is_none()
            && let Some((column, source)) = open_column(bounds, seats, sources, row)
        {
            return Some((row, column, source));
        }
    }
    None
}

/// Finds ways until a row that is short of a seat has one. Returns that row, or `None` if no row that is short of a seat can get
/// a way.
pub(crate) fn reach(
    bounds: &CellBounds<'_>,
    seats: &[u32],
    ways: &mut [Option<Way>],
) -> Option<usize>
    requires seats { length seats.now ≡ bounds.now.question.now.rows * bounds.now.question.now.columns }
    requires ways { length ways.old ≡ 32 }
    requires none { (d : ℕ) → words.way_at ways.old d ≡ None }
    ensures ways { words.AreWays (asked_in bounds.now) (bounds_of bounds.now) seats.now ways.new }
    ensures reached { IfSome result (words.CanTake (asked_in bounds.now) seats.now ways.new) }
    ensures stuck { IfNone result (words.IsStuck (asked_in bounds.now) (bounds_of bounds.now) seats.now ways.new) }
{
    let mut sources = [None; LINES];
    for rank in 0..bounds.question.rows {
        add_sources(bounds, seats, ways, &mut sources);
        let (row, column, source) = next_row(bounds, seats, ways, &sources)?;
        let way = Way {
            column,
            source,
            rank,
        };
        ways[row] = Some(way);
        if row_lacks(bounds.question, seats, row) {
            return Some(row);
        }
    }
    None
}
