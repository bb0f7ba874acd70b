//! The bounds of a sweep: the slacks of its prices, and the caps and floors of its potentials.
ghost use Rattle.std.specs.Prelude.{◌^◌, ◌≤◌};

/// The bounds of a sweep. Potentials are in the unit of the logarithms. Up to one number that is added to all of them, that of a
/// row is 2^60 less the logarithm of its divisor, and that of a column is the logarithm of its divisor.
#[derive(Clone, Copy)]
pub struct Bounds {
    /// The slacks: each next seat must be too expensive by `given`, and each last seat cheap enough by `taken`.
    pub given: u64,
    pub taken: u64,
    /// The greatest potential that a row and a column may have.
    pub row_cap: u64,
    pub column_cap: u64,
    /// The least potential that they may have.
    pub row_floor: u64,
    pub column_floor: u64,
    ghost given_small: { given ≤ 2 ^ 36 },
    ghost taken_small: { taken ≤ 2 ^ 36 },
    ghost column_cap_small: { column_cap ≤ 2 ^ 44 },
    ghost column_floor_from_1: { 1 ≤ column_floor },
}

impl Bounds {
    ghost use Rattle.std.specs.Prelude.{◌≡◌};
    ghost use Rattle.zh_decided.specs.Sweeps.{AreFree};

    /// Bounds with these slacks, at most 2^36 each. They are so wide that no sweep leaves them.
    pub fn free(given: u64, taken: u64) -> Self
        requires given { given ≤ 2 ^ 36 }
        requires taken { taken ≤ 2 ^ 36 }
        ensures free { AreFree result }
        ensures given { result.given ≡ given }
        ensures taken { result.taken ≡ taken }
    {
        Bounds {
            given,
            taken,
            row_cap: 1 << 61,
            column_cap: 1 << 44,
            row_floor: 0,
            column_floor: 1,
        }
    }
}
