//! What the bounds of the cells mean, and what holds for every lower apportionment.

ghost use Rattle.std.specs.Prelude.{◌≡◌, ◌≢◌, ℕ, List, ◌↔◌};
ghost use Rattle.zh_matrices.specs.Divisors.{Divisors, AreWithinLimits, millionths};
ghost use Rattle.zh_matrices.specs.Question.{Question};
ghost use Rattle.zh_lower.specs.Shown.{IsShown};
ghost use Rattle.zh_matrices.specs.SeatMatrix.{IsStrict, IsWeak, SeatMatrix};
ghost use Rattle.zh_decided.specs.Bounds.{IsWithin};
ghost use Rattle.zh_lower.specs.Outcomes.{IsProper};
ghost use Rattle.zh_lower.specs.SeatBounds.{seat_bounds};

/// If some divisors give seats with no quotient on a half, no divisors of any scale give other seats, even with halves rounded
/// either way. If two different matrices follow from the same divisors, no divisors give seats without a quotient on a half. Of
/// the divisors that are shown, only one set gives seats.
pub fn one_answer()
    ensures one { (q : Question) (divisors other_divisors : Divisors) (seats other_seats : List ℕ) →
        IsStrict q divisors seats → IsWeak q other_divisors other_seats → other_seats ≡ seats }
    ensures tied { (q : Question) (divisors : Divisors) (seats other_seats : List ℕ) →
        IsWeak q divisors seats → IsWeak q divisors other_seats → seats ≢ other_seats →
        (strict_divisors : Divisors) (strict_seats : List ℕ) → ¬ IsStrict q strict_divisors strict_seats }

    // Of the divisors that are shown, only one set gives seats.
    ensures reached { (q : Question) (one other : SeatMatrix) →
        IsShown q one.divisors → IsStrict q one.divisors one.seats →
        IsShown q other.divisors → IsStrict q other.divisors other.seats → other ≡ one }
{}

/// The matrices that follow from divisors within the limits, with halves rounded either way, are exactly those that have all
/// totals and whose cells are between their quotients rounded half down and rounded half up.
pub fn seats_within_bounds()
    ensures { (q : Question) (of_rows of_columns seats : List ℕ) → IsProper q → AreWithinLimits q of_rows of_columns →
        IsWeak q (millionths of_rows of_columns) seats ↔ IsWithin q (seat_bounds q (millionths of_rows of_columns)) seats }
{}
