//! What is true of every voter number.
ghost use Rattle.std.specs.Prelude.{◌≡◌, ℕ, ◌≤◌};
ghost use Rattle.zh_upper.specs.VoterNumbers.{RoundsHalfUp, voter_number};

/// The voter number is the only whole number to which votes over seats round, a half up. It is at most the
/// votes.
pub fn one_voter_number()
    ensures nearest { (votes seats : ℕ) → 1 ≤ seats → RoundsHalfUp votes seats (voter_number votes seats) }
    ensures only { (votes seats number : ℕ) → RoundsHalfUp votes seats number → number ≡ voter_number votes seats }
    ensures at_most_votes { (votes seats : ℕ) → 1 ≤ seats → voter_number votes seats ≤ votes }
{}
