//! Numbers of the cells of a matrix, row by row.
ghost use Rattle.std.specs.Prelude.{◌*◌, ◌≤◌, length, ◌≡◌, ℕ, ◌<◌, slice_index};

use zh_matrices::{LINES, Question};

/// The fewest and the most seats that each cell of a question may have (its lower and upper bound), row by row.
#[derive(Drop)]
pub struct CellBounds<'a> {
    pub question: &'a Question<'a>,
    pub least: &'a [u32],
    pub most: &'a [u32],
    ghost each_least: { question.now.rows * question.now.columns ≤ length least.now },
    ghost each_most: { question.now.rows * question.now.columns ≤ length most.now },
}

/// The greatest number of cells of a matrix.
pub(crate) const CELLS: usize = LINES * LINES;

/// N cells without seats.
pub(crate) fn no_seats<const N: usize>() -> [u32; N]
    ensures length { length result ≡ N }
    ensures zeros { (k : ℕ) → slice_index result k ≡ 0 }
{
    [0; N]
}

/// Copies the numbers of all cells of a question.
pub(crate) fn copy_cells(question: &Question<'_>, from: &[u32], into: &mut [u32])
    requires from { question.now.rows * question.now.columns ≤ length from.now }
    requires into { question.now.rows * question.now.columns ≤ length into.old }
    ensures { (k : ℕ) → k < question.now.rows * question.now.columns → slice_index into.new k ≡ slice_index from.now k }
{
    for place in 0..question.votes.len() {
        into[place] = from[place];
    }
}
