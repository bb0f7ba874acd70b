//! Laws of texts that are loaded, and of exports that are read. The functions do nothing: their contracts are the laws.

ghost use Rattle.std.specs.Prelude.{◌≡◌, ◌≤◌, ◌↔◌, ◌++◌, ◌∷◌, [], ℕ, All, List, Result, length, map};
ghost use Rattle.zh_districts.specs.Canton.{Canton, IsCanton};
ghost use Rattle.zh_returns.specs.declared.row.Row.{Row};
ghost use Rattle.zh_csv.specs.Front.{front_of, most_bytes};
ghost use Rattle.zh_csv.specs.Load.{fields, loading, Loads};
ghost use Rattle.zh_csv.specs.Reading.{IsOfText, StopsAt};
ghost use Rattle.zh_csv.specs.Records.{Record, AreAll, names, record_size};
ghost use Rattle.zh_csv.specs.declared.batch_reader.LoadFault.{LoadFault};
ghost use Rattle.zh_returns.specs.Limits.{IsTally};
ghost use Rattle.zh_returns.specs.Tally.{Tally};
ghost use Rattle.zh_totals.specs.Counting.{totals_of};
ghost use Rattle.zh_csv.specs.Export.{export_text};
ghost use Rattle.zh_csv.specs.Held.{AddsUp, AreHeldIn};
ghost use Rattle.zh_csv.specs.Rows.{AreHeld};
ghost use Rattle.zh_csv.specs.declared.held_sums.HeldSums.{HeldSums};
ghost use Rattle.zh_csv.specs.declared.held_sums.HeldRow.{HeldRow};

/// A text determines what it loads, unless memory is refused or the reader fails.
pub fn one_loading()
    ensures { (canton : Canton) (text : List ℕ) (loaded other : Result (List Row) LoadFault)
        → Loads canton text loaded → Loads canton text other → IsOfText loaded → IsOfText other → loaded ≡ other }
{}

/// A text is refused for one of its first 1,002 records: the names of the columns and at most 1,000 rows come before
/// it.
pub fn few_records()
    ensures { (canton : Canton) (text : List ℕ) (fault : LoadFault) (stops : StopsAt (loading canton) text fault)
        → length (names ∷ (map fields stops.rows ++ stops.last ∷ [])) ≤ 1002 }
{}

/// If no record of a text is too long, the whole text is read.
pub fn short_records_are_read()
    ensures { (text : List ℕ) (records : List Record) → All (λ fields. record_size fields ≤ most_bytes) records
        → (AreAll text records ↔ AreAll (front_of text) records) }
{}

/// A text determines its sums, or why it has none, unless memory is refused or the reader fails.
pub fn one_holding()
    ensures { (canton : Canton) (text : List ℕ) (held other : Result HeldSums LoadFault)
        → AddsUp canton text held → AddsUp canton text other → IsOfText held → IsOfText other → held ≡ other }
{}

/// An export has at most 16,384 rows, one for each of 32 lists in each of 512 municipalities.
pub fn few_rows()
    ensures { (canton : Canton) (rows : List HeldRow) → IsCanton canton → AreHeld canton rows → length rows ≤ 16384 }
{}

/// The export of a count consists of rows of its set-up that add up to its totals.
pub fn export_adds_up()
    ensures { (tally : Tally) → IsTally tally
        → (rows : ℕ) × AreHeldIn tally.canton (export_text tally) (record { rows = rows; totals = totals_of tally }) }
{}
