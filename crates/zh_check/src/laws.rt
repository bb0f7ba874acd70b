//! Laws of right sheets. The functions do nothing: their contracts are the laws.
ghost use Rattle.std.specs.Prelude.{◌≡◌, ◌-◌, ◌^◌, ◌≤◌, ℕ, Bool, List, Option, Some, Ok};
ghost use Rattle.zh_check.specs.Form.{IsFormed};
ghost use Rattle.zh_check.specs.Verdicts.{IsRight};
ghost use Rattle.zh_check.specs.declared.checked.RightSheet.{RightSheet};
ghost use Rattle.zh_districts.specs.Canton.{Canton};
ghost use Rattle.zh_sheet.specs.Distribution.{Distribution, IsDistribution};
ghost use Rattle.zh_sheet.specs.Given.{HaveSameSeats};
ghost use Rattle.zh_sheet.specs.Made.{IsMade};
ghost use Rattle.zh_sheet_text.specs.SheetText.{sheet_text};
ghost use Rattle.zh_totals.specs.Hidden.{NoneHidden};
ghost use Rattle.zh_totals.specs.Totals.{VoteTotals};

/// Two right sheets of a set-up with the same votes have the same seats, even if their divisors differ.
pub fn right_sheets_agree()
    ensures { (canton : Canton) (held other_held : Option VoteTotals) (bytes others : List ℕ) (one other : RightSheet) →
        IsRight canton held bytes one → IsRight canton other_held others other →
        other.sheet.totals.votes ≡ one.sheet.totals.votes → HaveSameSeats one.sheet other.sheet }
{}

/// The text of a sheet that is made from totals is right, for any desk, if no list that does not stand has votes. That
/// is so for the totals of every count.
pub fn made_sheet_is_right()
    ensures { (totals : VoteTotals) (sheet : Distribution) (desk accepted : ℕ) (is_final : Bool) →
        IsMade totals (Ok sheet) → NoneHidden totals → 1 ≤ desk → desk ≤ 8 → accepted ≤ 2 ^ 64 - 1 →
        IsRight totals.canton (Some totals) (sheet_text sheet desk is_final accepted)
        (record { sheet = sheet; head = record { desk = desk; is_final = is_final; accepted = accepted } }) }
{}

/// The text of a sheet is in the form of a sheet, for any desk: no line is reported as not of its kind.
pub fn sheet_is_in_its_form()
    ensures { (sheet : Distribution) (desk accepted : ℕ) (is_final : Bool) → IsDistribution sheet →
        1 ≤ desk → desk ≤ 8 → accepted ≤ 2 ^ 64 - 1 → IsFormed sheet.totals.canton (sheet_text sheet desk is_final accepted) }
{}
