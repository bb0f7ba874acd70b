//! Divisors in millionths, within the limits of a sheet.
ghost use Rattle.std.specs.Prelude.{◌≡◌, ℕ, ◌+◌, ◌-◌, ◌*◌, ◌^◌, ◌<◌, ◌≤◌, IsTrue, List, length, slice_index};
ghost use Rattle.std.specs.Bool.{OnFalse, OnTrue};
ghost use Rattle.zh_decided.specs.Boxes.{AreInBox, AreInFirstBox, GiveWithin, HaveLogs, IsBox, NoneInRange, StandsInBox};
ghost use Rattle.zh_decided.specs.Tables.{AreLogTables};
ghost use Rattle.zh_decided.specs.Logarithms.{log_unit, power};
ghost use Rattle.zh_matrices.specs.Asked.{asked};
ghost use Rattle.zh_matrices.specs.Divisors.{AreWithinLimits, millionths};
ghost use Rattle.zh_matrices.specs.Fitting.{FitsVotes};
ghost use Rattle.zh_matrices.specs.Question.{AreSeatTotals};
ghost use Rattle.zh_matrices.specs.SeatMatrix.{IsStrict};
ghost use Rattle.zh_decided.specs.Sweeps.{StandsFree};
ghost use Rattle.zh_decided.specs.Taken.{logs, priced_in};
ghost use Rattle.zh_decided.specs.declared.sweeps.Potentials.{Potentials};

use crate::logarithms::{antilogarithm, logarithm};
use crate::prices::PricedSeats;
use crate::sweep_bounds::Bounds;
use crate::sweeps::{Swept, sweep};
use zh_matrices::{LINES, MOST_OF_COLUMN, MOST_OF_ROW};

/// The base of the potentials of rows: such a potential is this plus the logarithm of 10^12, less that of the row's divisor in
/// millionths.
const BASE: u64 = 1 << 60;
/// The logarithm of 2.
const UNIT: u64 = 1 << 30;

/// The bounds of a sweep for divisors from 2^bits millionths to the limits of a sheet.
fn box_from(bits: u32) -> Bounds
    requires some { 4 ≤ bits }
    requires few { bits ≤ 20 }
    ensures { IsBox bits result }
{
    // Both divisors of a cell are in millionths, so twice its votes are multiplied by 10^12. That number is also the greatest
    // column divisor.
    let scale = logarithm(MOST_OF_COLUMN);
    let least = u64::from(bits) * UNIT;
    Bounds {
        given: (1 << (32 - bits)) + 6,
        taken: 6,
        row_cap: BASE + scale - least,
        column_cap: scale,
        row_floor: BASE + scale - logarithm(MOST_OF_ROW),
        column_floor: least,
    }
}

/// For each line, `top` less its potential: the logarithm of its divisor.
fn below(top: u64, potentials: &[u64; LINES]) -> [u64; LINES]
    ensures { (i : ℕ) → i < 32 → slice_index result i ≡ top - slice_index potentials.now i }
{
    let mut logarithms = [0; LINES];
    for line in 0..LINES {
        logarithms[line] = top.saturating_sub(potentials[line]);
    }
    logarithms
}

/// Writes to `into` the numbers with these logarithms, from 2^bits to `most` and rounded down.
fn take_numbers(logarithms: &[u64; LINES], bits: u32, most: u64, into: &mut [u64])
    requires some { 4 ≤ bits }
    requires few { bits ≤ 20 }
    requires length { length into.old ≤ 32 }
    requires least { (i : ℕ) → i < length into.old → bits * log_unit ≤ slice_index logarithms.now i }
    requires most { (i : ℕ) → i < length into.old → power 2 (slice_index logarithms.now i) ≤ power most log_unit }
    requires room { 2 ^ 20 ≤ most }
    requires fits { most < 2 ^ 63 }
    ensures { HaveLogs bits most (length into.old) into.new (slice_index logarithms.now) }
{
    for line in 0..into.len() {
        into[line] = antilogarithm(logarithms[line], bits, most);
    }
}

/// Whether the sweep for divisors from 2^bits millionths on ends at potentials. If so, divisors that give the seats are written
/// to `of_rows` and `of_columns`.
fn give_from(
    priced: &PricedSeats<'_>,
    bits: u32,
    of_rows: &mut [u64],
    of_columns: &mut [u64],
) -> bool
    requires some { 4 ≤ bits }
    requires few { bits ≤ 20 }
    requires totals { AreSeatTotals priced.now.question.now.rows priced.now.question.now.row_totals.now }
    requires tables { AreLogTables (asked priced.now.question.now) (logs priced.now.logarithms.now) }
    requires fits { FitsVotes (asked priced.now.question.now) priced.now.seats.now }
    requires rows { length of_rows.old ≡ priced.now.question.now.rows }
    requires columns { length of_columns.old ≡ priced.now.question.now.columns }
    ensures limits { IsTrue result → AreWithinLimits (asked priced.now.question.now) of_rows.new of_columns.new }
    ensures strict { IsTrue result → IsStrict (asked priced.now.question.now) (millionths of_rows.new of_columns.new) priced.now.seats.now }
    ensures in_box { OnTrue result (AreInBox (asked priced.now.question.now) (logs priced.now.logarithms.now)
        priced.now.seats.now bits of_rows.new of_columns.new) }
    ensures moves { OnFalse result ((p : Potentials) → ¬ StandsInBox (asked priced.now.question.now) (logs priced.now.logarithms.now)
        priced.now.seats.now bits p) }
    ensures none { OnFalse result (bits ≡ 20 → (p : Potentials) →
        StandsFree (priced_in priced.now) 4102 6 p → NoneInRange (asked priced.now.question.now) priced.now.seats.now) }
{
    let bounds = box_from(bits);
    match sweep(priced, bounds) {
        Swept::Still(potentials) => {
            let top = bounds.row_cap + u64::from(bits) * UNIT;
            let row_logarithms = below(top, &potentials.of_rows);
            take_numbers(&row_logarithms, bits, MOST_OF_ROW, of_rows);
            take_numbers(&potentials.of_columns, bits, MOST_OF_COLUMN, of_columns);
            true
        }
        Swept::Cycle(_cycle) => false,
        Swept::Out => false,
    }
}

/// Whether divisors in millionths give the seats, in one of five boxes: from 2^20, 2^16, 2^12, 2^8 and 2^4 millionths on. Those
/// of the first box that has some are written to `of_rows` and `of_columns`.
pub(crate) fn give_within(
    priced: &PricedSeats<'_>,
    of_rows: &mut [u64],
    of_columns: &mut [u64],
) -> bool
    requires totals { AreSeatTotals priced.now.question.now.rows priced.now.question.now.row_totals.now }
    requires tables { AreLogTables (asked priced.now.question.now) (logs priced.now.logarithms.now) }
    requires fits { FitsVotes (asked priced.now.question.now) priced.now.seats.now }
    requires rows { length of_rows.old ≡ priced.now.question.now.rows }
    requires columns { length of_columns.old ≡ priced.now.question.now.columns }
    ensures give { OnTrue result (GiveWithin (asked priced.now.question.now) of_rows.new of_columns.new priced.now.seats.now) }
    ensures outside { OnFalse result
        ((rows columns : List ℕ) → ¬ AreInFirstBox (asked priced.now.question.now) priced.now.seats.now rows columns) }
    ensures none { OnFalse result ((p : Potentials) →
        StandsFree (priced_in priced.now) 4102 6 p → NoneInRange (asked priced.now.question.now) priced.now.seats.now) }
{
    for smaller in 0..5 {
        let bits = 20 - 4 * smaller;
        if give_from(priced, bits, of_rows, of_columns) {
            return true;
        }
    }
    false
}
