//! What holds for every sheet.
ghost use Rattle.std.specs.Prelude.{◌≡◌, Ok, Option, Some};
ghost use Rattle.zh_lower.specs.Shown.{IsShown};
ghost use Rattle.zh_sheet.specs.Distribution.{Distribution, IsDistribution, question_of};
ghost use Rattle.zh_sheet.specs.Given.{HaveSameSeats, IsGiven};
ghost use Rattle.zh_sheet.specs.Made.{IsMade};
ghost use Rattle.zh_totals.specs.Hidden.{NoneHidden};
ghost use Rattle.zh_totals.specs.Totals.{VoteTotals};

/// Votes have only one sheet, divisors included: two distributions of the same votes are equal if both have the divisors that a
/// sheet shows (`IsShown`).
pub fn one_sheet()
    ensures { (one other : Distribution) → IsDistribution one → IsShown (question_of one) one.lower.divisors →
        IsDistribution other → IsShown (question_of other) other.lower.divisors →
        other.totals ≡ one.totals → other ≡ one }
{}

/// Votes have only one result: two distributions of the same votes have the same seats, whatever their divisors.
pub fn one_result()
    ensures { (one other : Distribution) → IsDistribution one → IsDistribution other →
        other.totals ≡ one.totals → HaveSameSeats one other }
{}

/// If a sheet was made, its own seats and divisors give it again, provided that no list has votes where it does not stand.
pub fn made_is_given()
    ensures { (totals : VoteTotals) (made : Distribution) (found : Option Distribution) → IsMade totals (Ok made) →
        NoneHidden totals → IsGiven totals made.lower found → found ≡ Some made }
{}
