//! Laws about the totals of counts.

ghost use Rattle.std.specs.Prelude.{◌≡◌, ℕ, true};
ghost use Rattle.std.specs.FinMap as map_of;
ghost use Rattle.zh_districts.specs.Canton.{has_municipality, stands, constituency_of};
ghost use Rattle.zh_returns.specs.declared.command.Command.{Command};
ghost use Rattle.zh_returns.specs.declared.entry.Entry.{Entry};
ghost use Rattle.zh_returns.specs.declared.judgement.Verdict.TheVariants.{Accept};
ghost use Rattle.zh_returns.specs.Judgement.{judge};
ghost use Rattle.zh_returns.specs.Limits.{IsTally};
ghost use Rattle.zh_returns.specs.Spelling.{HasNumbers};
ghost use Rattle.zh_returns.specs.Step.{changed};
ghost use Rattle.zh_returns.specs.Tally.{Tally};
ghost use Rattle.zh_totals.specs.Changes.{all_noted, noted, change_to, changes_of};
ghost use Rattle.zh_totals.specs.Counting.{totals_of, votes_of};
ghost use Rattle.zh_totals.specs.Hidden.{NoneHidden};
ghost use Rattle.zh_totals.specs.Totals.{AreTotals};

/// After an accepted command, the totals are those before it, with each of its changes noted, one after another. If an entry
/// of a list that stands in a municipality replaces what is held there, the totals are those before, with this change noted.
pub fn changes_are_noted()
    ensures command { (tally : Tally) (command : Command) → IsTally tally → HasNumbers command → judge tally command ≡ Accept
        → totals_of (changed tally command) ≡ all_noted (totals_of tally) (changes_of tally command) }
    ensures entry { (tally : Tally) (m l : ℕ) (entry : Entry) → IsTally tally → has_municipality tally.canton m ≡ true
        → stands tally.canton (constituency_of tally.canton m) l ≡ true
        → totals_of (record tally { entries = map_of.insert tally.entries (m, l) entry })
        ≡ noted (totals_of tally) (change_to tally m l (votes_of entry)) }
{}

/// The totals of a count that is within its limits are within theirs.
pub fn totals_are_few()
    ensures { (tally : Tally) → IsTally tally → AreTotals (totals_of tally) }
{}

/// The totals of a count that is within its limits have no votes of lists that do not stand.
pub fn no_votes_are_hidden()
    ensures { (tally : Tally) → IsTally tally → NoneHidden (totals_of tally) }
{}
