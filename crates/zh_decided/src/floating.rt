//! Floating-point divisors from potentials.
ghost use Rattle.std.specs.Prelude.{◌+◌, ◌*◌, ◌^◌, ◌≤◌, ℕ, ◌-◌, ◌<◌, slice_index};
ghost use Rattle.zh_decided.specs.Floated.{AreColumnFloats, AreRowFloats, Fit};
ghost use Rattle.zh_decided.specs.Sizes.{HaveShortMantissas};

use crate::logarithms::antilogarithm;
use crate::sweeps::Potentials;
use zh_matrices::{LINES, Question};

/// The logarithm of 2.
const UNIT: u64 = 1 << 30;

/// The number mantissa * 2^exponent.
#[derive(Clone, Copy)]
pub struct Floating {
    pub mantissa: u64,
    pub exponent: u64,
}

impl Floating {
    ghost use Rattle.zh_decided.specs.Floats.{value_of};
    ghost use Rattle.zh_decided.specs.Logarithms.{IsLog, log_unit};

    /// The number with this logarithm, times 2^31, rounded down to a mantissa of at most 2^32.
    pub fn from_logarithm(logarithm: u64) -> Self
        ensures log { IsLog 1 2 (value_of result) (31 * log_unit + logarithm) }
        ensures mantissa { result.mantissa ≤ 2 ^ 32 }
        ensures exponent { result.exponent ≤ 2 ^ 40 }
    {
        let fraction = logarithm % UNIT;
        Floating {
            mantissa: antilogarithm(31 * UNIT + fraction, 31, 1 << 32),
            exponent: logarithm / UNIT,
        }
    }
}

/// A divisor for each row and each column, in units of 2^-32799.
#[derive(Clone, Copy)]
pub struct FloatingDivisors {
    pub of_rows: [Floating; LINES],
    pub of_columns: [Floating; LINES],
}

/// The base of the potentials of rows: such a potential is this less the logarithm of the row's divisor.
const BASE: u64 = 1 << 60;
/// The logarithm of 2^32768. Divisors are scaled up by this number, so that no logarithm is negative.
const LIFT: u64 = 1 << 45;

const NONE: Floating = Floating {
    mantissa: 0,
    exponent: 0,
};

/// The divisors of the rows.
fn of_rows(question: &Question<'_>, potentials: &[u64; LINES]) -> [Floating; LINES]
    requires { (d : ℕ) → d < question.now.rows → slice_index potentials.now d ≤ 2 ^ 60 + 2 ^ 45 }
    ensures logs { AreRowFloats question.now.rows potentials.now result }
    ensures small { HaveShortMantissas question.now.rows result }
{
    let mut divisors = [NONE; LINES];
    for row in 0..question.rows {
        divisors[row] = Floating::from_logarithm(BASE + LIFT - potentials[row]);
    }
    divisors
}

/// The divisors of the columns.
fn of_columns(question: &Question<'_>, potentials: &[u64; LINES]) -> [Floating; LINES]
    requires { (g : ℕ) → g < question.now.columns → slice_index potentials.now g ≤ 2 ^ 44 }
    ensures logs { AreColumnFloats question.now.columns potentials.now result }
    ensures small { HaveShortMantissas question.now.columns result }
{
    let mut divisors = [NONE; LINES];
    for column in 0..question.columns {
        divisors[column] = Floating::from_logarithm(LIFT + potentials[column]);
    }
    divisors
}

/// The divisors of these potentials, in units of 2^-32799.
pub(crate) fn floating_divisors(
    question: &Question<'_>,
    potentials: &Potentials,
) -> FloatingDivisors
    requires { Fit question.now.rows question.now.columns potentials.now }
    ensures rows { AreRowFloats question.now.rows potentials.now.of_rows result.of_rows }
    ensures columns { AreColumnFloats question.now.columns potentials.now.of_columns result.of_columns }
    ensures small_rows { HaveShortMantissas question.now.rows result.of_rows }
    ensures small_columns { HaveShortMantissas question.now.columns result.of_columns }
{
    FloatingDivisors {
        of_rows: of_rows(question, &potentials.of_rows),
        of_columns: of_columns(question, &potentials.of_columns),
    }
}
