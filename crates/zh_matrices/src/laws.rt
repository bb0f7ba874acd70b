//! What is true of all matrices that may be drawn by lot.
ghost use Rattle.std.specs.Prelude.{ℕ, ◌<◌, ◌↔◌, List};
ghost use Rattle.zh_matrices.specs.Divisors.{Divisors};
ghost use Rattle.zh_matrices.specs.Lots.{DrawsDiffer, HasRange};
ghost use Rattle.zh_matrices.specs.Question.{Question};
ghost use Rattle.zh_matrices.specs.SeatMatrix.{IsWeak};

/// One set of divisors is enough: divisors that give a matrix, halves rounded either way, give every other matrix that
/// follows from any divisors, of any scale. Two of these matrices differ in a cell exactly if its range has more than one
/// number.
pub fn one_set_of_divisors()
    ensures serves { (q : Question) (divisors other_divisors : Divisors) (seats other_seats : List ℕ) →
        IsWeak q divisors seats → IsWeak q other_divisors other_seats → IsWeak q divisors other_seats }
    ensures range { (q : Question) (d g least most : ℕ) → HasRange q d g least most → (DrawsDiffer q d g ↔ least < most) }
{}
