//! Laws about an office on a disk, and about forecasts.

ghost use Rattle.std.specs.Prelude.{◌≡◌, ℕ, List, false, IsTrue, ◌<◌, ◌+◌, ◌⊎◌, [], Some, get_or, length, slice_get, take};
ghost use Rattle.zh_commands.specs.declared.replies.Reply.{Reply};
ghost use Rattle.zh_ledger.specs.Submissions.{OnDisk, IsLogged};
ghost use Rattle.zh_office.specs.Exchanges.{Exchange, log_of};
ghost use Rattle.zh_office.specs.Night.{OfficeLaw};
ghost use Rattle.zh_office.specs.Office.{Office, its_ledger};
ghost use Rattle.zh_office.specs.Runs.{LoadTurn, Runs, Turn};
ghost use Rattle.zh_office.specs.Undisturbed.{AreUndisturbed, IsUndisturbed, MeetsNoFault};
ghost use Rattle.zh_csv.specs.Front.{front_of};
ghost use Rattle.zh_csv.specs.Records.{Record, AreAll};
ghost use Rattle.zh_districts.specs.Canton.{Canton};
ghost use Rattle.zh_returns.specs.Tally.{Tally};
ghost use Rattle.zh_office.specs.Answered.{IsAnswered, IsByJudgement};
ghost use Rattle.zh_office.specs.Findings.{finding_on, findings, findings_on, forecast_of, rows_after, rows_kept};
ghost use Rattle.zh_office.specs.Rows.{row_in};

/// What lines and loaded texts, one after another, do to an office and its honest disk, at each moment and at the end.
pub fn stretches()
    ensures { (old : OnDisk Office) (xs : List Exchange) (new : OnDisk Office) → IsTrue new.history.honest → Runs old xs new
        → IsLogged (its_ledger old) (log_of xs) (its_ledger new) }
{}

/// A night event by event: lines, loaded texts, stops and openings on an honest disk that was formatted for the office.
///
/// Each image of the disk holds the count after all commands that were accepted since the last opening, or after all but
/// the last, which was then not acknowledged. So each opening finds a prefix of the commands that were accepted since the
/// opening before it, in order and each once. The prefix includes all that were acknowledged. An opening is refused only
/// for memory or by the device.
pub fn law_nights()
    ensures { OfficeLaw }
{}

/// Take an office that has a slot of format Two and has met no fault of the device. If no call of its disk fails and its
/// numbers are not used up, it answers no line and no text with `device`, `reopen-disk` or `spent`, and its disk need not
/// be reopened. Only `row`, `sheet`, `final` and a loading can be answered with `memory`.
///
/// This holds on every disk, honest or not.
pub fn undisturbed()
    ensures turn { (old : OnDisk Office) (x : Exchange) (new : OnDisk Office) → Turn old x new → MeetsNoFault old new
        → IsUndisturbed x.given x.answer × (new.holder.ledger.store.broken ≡ false) }
    ensures run { (old : OnDisk Office) (xs : List Exchange) (new : OnDisk Office) → Runs old xs new → MeetsNoFault old new
        → AreUndisturbed xs × (new.holder.ledger.store.broken ≡ false) }
{}

/// A loading of a text with these records is answered as the forecast says: stored, the same, or refused. This excludes a
/// reader that fails, refused memory, a device that fails, and numbers that are used up. The forecast is also right if a
/// record is too long, so that the text is read no further.
pub fn forecast_is_kept()
    ensures { (old new : OnDisk Office) (text : List ℕ) (records : List Record) (reply : Reply)
        → LoadTurn old (Some text) false reply new → (AreAll text records ⊎ AreAll (front_of text) records) → IsByJudgement reply
        → IsAnswered (forecast_of (findings old.holder.ledger.tally records)) reply }
{}

/// Each record after the first is judged after the rows that are kept of the records before it. At most one more row is
/// kept of it.
pub fn each_is_judged_after_those_before()
    ensures judged { (tally : Tally) (others : List Record) (k : ℕ) → k < length others
        → slice_get (findings_on tally others) k ≡ Some (finding_on tally others k) }
    ensures kept { (canton : Canton) (others : List Record) (k : ℕ) → k < length others
        → rows_kept canton [] (take (k + 1) others)
        ≡ rows_after canton (rows_kept canton [] (take k others)) (row_in (get_or others k [])) }
{}
