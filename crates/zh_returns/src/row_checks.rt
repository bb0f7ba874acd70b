//! Two conditions that the rows of a batch must meet: replacement numbers from 1 on, and no key twice.
ghost use Rattle.std.specs.List.{IsDistinct};
ghost use Rattle.std.specs.Ordering.{eq_by_cmp};
ghost use Rattle.std.specs.Prelude.{◌≡◌, ◌↔◌, ◌*◌, ◌/◌, ◌≤◌, length, map, true, All, ◌||◌, ◌&&◌, ◌==◌, ℕ, ◌+◌, ◌<◌, not, slice_index};
ghost use Rattle.zh_returns.specs.KeySet.{has_mark, is_marked, AreBlocks};
ghost use Rattle.zh_returns.specs.Keys.{key_cmp};
ghost use Rattle.zh_returns.specs.RowBytes.{rows_in};
ghost use Rattle.zh_returns.specs.Rows.{row_key, IsSpeakableRow};

use crate::row::{ROW_LENGTH, row_of};
use crate::rows::MOST_ROWS;

/// Whether the replacement number of each row is at least 1.
pub(crate) fn are_numbered(bytes: &[u8]) -> bool
    ensures { (result ≡ true) ↔ All IsSpeakableRow (rows_in bytes.now) }
{
    for i in 0..bytes.len() / ROW_LENGTH {
        let at = ROW_LENGTH * i;
        if row_of(&bytes[at..at + ROW_LENGTH]).number == 0 {
            return false;
        }
    }
    true
}

/// Whether no two rows have the same key. The tables take about 160 KiB of the stack. Only the check of a batch should need
/// them, so the function is not inlined.
#[inline(never)]
pub(crate) fn have_own_keys(bytes: &[u8]) -> bool
    requires { length bytes.now / ROW_LENGTH ≤ MOST_ROWS }
    ensures { (result ≡ true) ↔ IsDistinct (eq_by_cmp key_cmp) (map row_key (rows_in bytes.now)) }
{
    let mut blocks = no_blocks::<MUNICIPALITIES>();
    let mut marks = no_marks::<MARKS>();
    for i in 0..bytes.len() / ROW_LENGTH {
        let at = ROW_LENGTH * i;
        let row = row_of(&bytes[at..at + ROW_LENGTH]);
        if !insert_key(&mut blocks, &mut marks, i, row.municipality, row.list) {
            return false;
        }
    }
    true
}

/// The number of municipalities that a key can name, in two bytes. For each of them a table has the number of the block in
/// which its keys are marked, counted from 1, or 0 if it has no block.
pub(crate) const MUNICIPALITIES: usize = 65_536;

/// The number of places in a block, one for each list that a key can name.
pub(crate) const LISTS: usize = 256;

/// The length in bytes of as many blocks as there can be keys, with a bit for each place.
pub(crate) const MARKS: usize = MOST_ROWS * LISTS / 8;

pub(crate) fn no_blocks<const N: usize>() -> [u16; N]
    ensures length { length result ≡ N }
    ensures zero { (i : ℕ) → slice_index result i ≡ 0 }
{
    [0; N]
}

pub(crate) fn no_marks<const N: usize>() -> [u8; N]
    ensures length { length result ≡ N }
    ensures zero { (i : ℕ) → slice_index result i ≡ 0 }
{
    [0; N]
}

/// Inserts a key into the set and returns whether it was not there before. Only the first `count` blocks are in use before the
/// call.
pub(crate) fn insert_key(
    blocks: &mut [u16],
    marks: &mut [u8],
    count: usize,
    municipality: u32,
    list: u32,
) -> bool
    requires blocks { length blocks.old ≡ MUNICIPALITIES }
    requires marks { length marks.old ≡ MARKS }
    requires set { AreBlocks blocks.old marks.old count }
    requires few { count < MOST_ROWS }
    requires municipality { municipality < MUNICIPALITIES }
    requires list { list < LISTS }
    ensures blocks { length blocks.new ≡ length blocks.old }
    ensures marks { length marks.new ≡ length marks.old }
    ensures set { AreBlocks blocks.new marks.new (count + 1) }
    ensures fresh { result ≡ not (has_mark blocks.old marks.old municipality list) }
    ensures keys { (m l : ℕ) → l < LISTS → has_mark blocks.new marks.new m l
        ≡ (((m == municipality) && (l == list)) || has_mark blocks.old marks.old m l) }
{
    let municipality = municipality as usize;
    if blocks[municipality] == 0 {
        blocks[municipality] = count as u16 + 1;
    }
    mark(
        marks,
        (blocks[municipality] as usize - 1) * LISTS + list as usize,
    )
}

/// Marks a place and returns whether it was not marked before.
fn mark(marks: &mut [u8], place: usize) -> bool
    requires { place < 8 * length marks.old }
    ensures length { length marks.new ≡ length marks.old }
    ensures fresh { result ≡ not (is_marked marks.old place) }
    ensures marked { (p : ℕ) → is_marked marks.new p ≡ ((p == place) || is_marked marks.old p) }
{
    let byte = marks[place / 8];
    let bit = 1 << (place % 8);
    marks[place / 8] = byte | bit;
    byte & bit == 0
}
