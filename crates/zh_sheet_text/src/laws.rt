//! Laws of the text of every sheet. The functions do nothing: their contracts are the laws.
ghost use Rattle.std.specs.Prelude.{◌<◌, ◌≤◌, ◌^◌, ℕ, Bool, length};
ghost use Rattle.zh_sheet.specs.Distribution.{Distribution, IsDistribution};
ghost use Rattle.zh_sheet_text.specs.SheetText.{sheet_text};

/// An upper bound of the bytes of a sheet: 1,094 lines of 256 bytes.
pub const LONGEST_SHEET: u64 = 280_064;

/// No sheet is longer than `LONGEST_SHEET`.
pub fn no_longer()
    ensures { (x : Distribution) (desk accepted : ℕ) (is_final : Bool) → IsDistribution x → desk ≤ 8 → accepted < 2 ^ 64
        → length (sheet_text x desk is_final accepted) ≤ LONGEST_SHEET }
{}
