//! What proves that a question has no seats, or none that keep clear of every half.

ghost use Rattle.std.specs.Prelude.{List, ℕ, Bool};
ghost use Rattle.zh_matrices.specs.Divisors.{Divisors};
ghost use Rattle.zh_matrices.specs.NearlyTied.{IsClear, IsNear, IsNearlyTied};
ghost use Rattle.zh_matrices.specs.Question.{Question};
ghost use Rattle.zh_matrices.specs.SeatMatrix.{IsStrict, IsWeak};
ghost use Rattle.zh_matrices.specs.Fitting.{FitsVotes};
ghost use Rattle.zh_decided.specs.Impossible.{HasTooFewSeats};

/// If two different matrices nearly follow from the same divisors, then no divisors of any scale give seats with each quotient
/// clear of every half by more than the same factor, 1 + 2^-17. Seats that follow weakly also follow nearly. Seats that are clear of
/// every half follow strictly.
pub fn near_tie()
    ensures no_clear { (q : Question) (row column : ℕ) → IsNearlyTied q row column →
        (divisors : Divisors) (seats : List ℕ) → ¬ IsClear q divisors seats }
    ensures near { (q : Question) (divisors : Divisors) (seats : List ℕ) → IsWeak q divisors seats → IsNear q divisors seats }
    ensures clear { (q : Question) (divisors : Divisors) (seats : List ℕ) → IsClear q divisors seats → IsStrict q divisors seats }
{}

/// If the votes of some rows lie in columns that together have fewer seats than these rows, then no matrix on these votes has
/// these totals. So none follows from any divisors of any scale, even with halves rounded either way.
pub fn impossible_totals()
    ensures no_matrix { (q : Question) (rows : List Bool) → HasTooFewSeats q rows → (seats : List ℕ) → ¬ FitsVotes q seats }
    ensures no_divisors { (q : Question) (rows : List Bool) → HasTooFewSeats q rows →
        (divisors : Divisors) (seats : List ℕ) → ¬ IsWeak q divisors seats }
{}
