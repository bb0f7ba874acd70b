//! What is true of every apportionment and of every line.
ghost use Rattle.std.specs.Prelude.{◌≡◌, ℕ, ◌<◌, ◌≤◌, Any, List, length, sum};
ghost use Rattle.zh_divisors.specs.Fit.{IsFit, IsStrictFit, IsTied};
ghost use Rattle.zh_divisors.specs.Line.{IsGreatestDivisor, IsLeastDivisor, greatest_divisor, least_divisor};
ghost use Rattle.zh_divisors.specs.Shares.{Apportionment, RoundsEach};

/// A strict fit is the only fit. It exists exactly if some divisor gives seats without a quotient on a half.
///
/// If the seats are tied, there is no strict fit. If they are not tied, every fit is strict.
pub fn one_fit()
    ensures only { (weights : List ℕ) (house : ℕ) (seats others : List ℕ) →
        IsStrictFit weights house seats → IsFit weights house others → others ≡ seats }
    ensures tied { (weights : List ℕ) (house : ℕ) (seats : List ℕ) →
        IsTied weights house → ¬ IsStrictFit weights house seats }
    ensures strict { (weights : List ℕ) (house : ℕ) (seats : List ℕ) →
        IsFit weights house seats → ¬ IsTied weights house → IsStrictFit weights house seats }

    // Seats that follow from any divisor, without a quotient on a half, are a strict fit.
    ensures rounded { (weights : List ℕ) (house : ℕ) (shares : Apportionment) →
        length shares.seats ≡ length weights → sum shares.seats ≡ house →
        RoundsEach weights shares → IsStrictFit weights house shares.seats }
    ensures divisor { (weights : List ℕ) (house : ℕ) (seats : List ℕ) →
        1 ≤ house → Any (λ w. 0 < w) weights → IsStrictFit weights house seats →
        (shares : Apportionment) × (shares.seats ≡ seats) × RoundsEach weights shares }
{}

/// Both divisors of the rule for a line exist and are unique, and the definition computes them.
pub fn line_rule()
    ensures least { (n : ℕ) (votes others : ℕ → ℕ) (target : ℕ) →
        ((i : ℕ) → i < n → 1 ≤ others i) →
        IsLeastDivisor n votes others target (least_divisor n votes others target) }
    ensures greatest { (n : ℕ) (votes others : ℕ → ℕ) (target : ℕ) →
        ((i : ℕ) → i < n → 1 ≤ others i) → 1 ≤ target →
        IsGreatestDivisor n votes others target (greatest_divisor n votes others target) }
    ensures one_least { (n : ℕ) (votes others : ℕ → ℕ) (target x y : ℕ) →
        IsLeastDivisor n votes others target x → IsLeastDivisor n votes others target y → x ≡ y }
    ensures one_greatest { (n : ℕ) (votes others : ℕ → ℕ) (target x y : ℕ) →
        IsGreatestDivisor n votes others target x → IsGreatestDivisor n votes others target y →
        x ≡ y }
{}
