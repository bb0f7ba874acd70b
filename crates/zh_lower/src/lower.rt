//! The seats that were found, with their divisors, or why there are none.
ghost use Rattle.std.specs.Prelude.{◌≡◌, ◌-◌, ◌*◌, ◌≤◌, length, slice_index};
ghost use Rattle.zh_lower.specs.Reasons.{fault_of};
ghost use Rattle.zh_lower.specs.declared.lower.LowerFault.TheVariants.{Memory};
ghost use Rattle.zh_matrices.specs.Divisors.{millionths};
ghost use Rattle.zh_matrices.specs.SeatMatrix.{seats_of};

use crate::fallback::Decided;
use crate::tie::Tie;
use std::alloc::AllocError;
use std::marker::Model;

/// The seats of each group (column) in each constituency (row), and the divisors that give them. Rows and columns are counted
/// from 1.
#[derive(Drop)]
pub struct Lower {
    seats: Vec<u32>,
    row_divisors: Vec<u64>,
    column_divisors: Vec<u64>,
}

impl Model for Lower {
    ghost use Rattle.std.specs.Prelude.{◌≡◌, ◌*◌, length};
    ghost use Rattle.zh_matrices.specs.Divisors.{millionths};
    ghost use Rattle.zh_matrices.specs.SeatMatrix.{SeatMatrix};

    ghost Value = { SeatMatrix };

    ghost view = { λ l. record { seats = l.seats.items; divisors = millionths l.row_divisors.items l.column_divisors.items } };

    ghost invariant = { λ l. length l.seats.items ≡ length l.row_divisors.items * length l.column_divisors.items };
}

impl Lower {
    /// These seats, row by row, with a divisor in millionths for each row and each column.
    pub fn new(seats: Vec<u32>, row_divisors: Vec<u64>, column_divisors: Vec<u64>) -> Self
        requires { length seats.items ≡ length row_divisors.items * length column_divisors.items }
        ensures { result ≡ record { seats = seats.items; divisors = millionths row_divisors.items column_divisors.items } }
    {
        Lower {
            seats,
            row_divisors,
            column_divisors,
        }
    }

    /// The seats of a group (column) in a constituency (row).
    pub fn seats(&self, row: u32, column: u32) -> u32
        requires row_from_1 { 1 ≤ row }
        requires row { row ≤ length self.now.divisors.of_rows }
        requires column_from_1 { 1 ≤ column }
        requires column { column ≤ length self.now.divisors.of_columns }
        ensures { result ≡ seats_of self.now row column }
    {
        let before = (row - 1) as usize * self.column_divisors.len();
        self.seats[before + (column - 1) as usize]
    }

    /// The divisor of a constituency in millionths.
    pub fn row_divisor(&self, row: u32) -> u64
        requires from_1 { 1 ≤ row }
        requires there { row ≤ length self.now.divisors.of_rows }
        ensures { result ≡ slice_index self.now.divisors.of_rows (row - 1) }
    {
        self.row_divisors[(row - 1) as usize]
    }

    /// The divisor of a group in millionths.
    pub fn column_divisor(&self, column: u32) -> u64
        requires from_1 { 1 ≤ column }
        requires there { column ≤ length self.now.divisors.of_columns }
        ensures { result ≡ slice_index self.now.divisors.of_columns (column - 1) }
    {
        self.column_divisors[(column - 1) as usize]
    }
}

/// Why a lower apportionment gives no seats. Rows and columns are counted from 1.
#[derive(Clone, Copy)]
pub enum LowerFault {
    /// Memory was refused.
    Memory,
    /// This row is the first one without a vote.
    NoVotes(u32),
    /// The search reached a tie: two different matrices follow weakly from the same divisors. The first quotient on a half is in
    /// this row and this column.
    Tied(u32, u32),
    /// The row totals and the column totals have different sums, or the search found neither seats nor a tie and the decision
    /// gave no seats that can be shown.
    Exhausted,
}

impl From<AllocError> for LowerFault {
    ghost from_gives = { λ _ fault. fault ≡ Memory };

    fn from(_error: AllocError) -> LowerFault {
        LowerFault::Memory
    }
}

/// Why a lower apportionment gives no seats, with everything that was found out about it.
#[derive(Drop)]
pub enum NoLower {
    /// Memory was refused.
    Memory,
    /// This row, counted from 1, is the first without a vote.
    NoVotes(u32),
    /// The row totals and the column totals have different sums.
    Unbalanced,
    /// The search reached this tie.
    Tied(Tie),
    /// The search found neither seats nor a tie, and this decision gave no seats that can be shown.
    Exhausted(Decided),
}

impl From<AllocError> for NoLower {
    ghost use Rattle.zh_lower.specs.declared.lower.NoLower.TheVariants.{Memory};

    ghost from_gives = { λ _ reason. reason ≡ Memory };

    fn from(_error: AllocError) -> NoLower {
        NoLower::Memory
    }
}

impl From<NoLower> for LowerFault {
    ghost from_gives = { λ reason fault. fault ≡ fault_of reason };

    fn from(reason: NoLower) -> LowerFault {
        match reason {
            NoLower::Memory => LowerFault::Memory,
            NoLower::NoVotes(row) => LowerFault::NoVotes(row),
            NoLower::Tied(tie) => LowerFault::Tied(tie.row, tie.column),
            NoLower::Unbalanced | NoLower::Exhausted(_) => LowerFault::Exhausted,
        }
    }
}
