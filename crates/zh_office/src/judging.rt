//! Judging a text record by record.

ghost use Rattle.std.specs.Prelude.{◌≡◌, ◌≢◌, ◌+◌, ◌^◌, ◌<◌, ◌≤◌, Ok, OnOk, IfErr, IfOk, [], ◌∷◌, ℕ, List, Some, IsErrOf, MatchResult};
ghost use Rattle.std.specs.Prelude.{true};
ghost use Rattle.std.specs.Io.KnownBytes.{Appends};
ghost use Rattle.csv.specs.Records.{fields_of};
ghost use Rattle.zh_returns.specs.Tally.{Tally};
ghost use Rattle.zh_csv.specs.Load.{IsReadable};
ghost use Rattle.zh_csv.specs.declared.batch_reader.LoadFault.{LoadFault};
ghost use Rattle.zh_office.specs.Load.{load_refusal};
ghost use Rattle.zh_office.specs.Findings.{findings, first_findings, forecast_of, forecast_with, judgement, rows_after};
ghost use Rattle.zh_office.specs.Judged.{BreaksOffLine, IsAfter, AreBrokenOff, AreJudged, Judges, WritesUpTo, bytes_left, records_judged};
ghost use Rattle.zh_office.specs.Rows.{row_in};
ghost use Rattle.zh_office.specs.JudgementText.{line_by, finding_lines, forecast_text, judgement_text};
ghost use Rattle.zh_csv.specs.Front.{front_of};
ghost use Rattle.zh_csv.specs.Noted.{has_failed, inner_reader};
ghost use Rattle.zh_csv.specs.Records.{Record, HasRead};

use crate::judgement::{Forecast, Judgement, JudgementFault, by_verdict};
use crate::judgement_lines::{forecast_line, refused_line};
use crate::load::load_refusal;
use csv::{ByteRecord, Reader};
use std::alloc::{AllocError, Global};
use std::io::{Read, Write};
use zh_commands::Refusal;
use zh_csv::{LoadFault, NotedReader, hold, is_names, next_record, reader_of, row_of};
use zh_returns::{Batch, Command, Count, Row};
use zh_text::put;

/// The rows that no later record may repeat, and the forecast so far.
#[derive(Drop)]
pub(crate) struct Progress {
    pub(crate) rows: Batch,
    pub(crate) counts: Forecast,
}

/// The refusal of a record that cannot be held because of this fault. Refused memory is an error.
fn refused_for(fault: LoadFault) -> Result<Judgement, AllocError>
    ensures { IfOk result (λ judged. (judged ≡ Judgement.Refused (load_refusal fault)) × (fault ≢ LoadFault.Memory)) }
{
    match fault {
        LoadFault::Memory => Err(AllocError),
        _ => Ok(Judgement::Refused(load_refusal(fault))),
    }
}

/// Judges a row after these rows, and adds it to them unless it has a fault of its own or conflicts with them.
fn judge_row(count: &Count<'_>, rows: &mut Batch, row: Row) -> Result<Judgement, AllocError>
    requires { IsReadable row }
    ensures { IfOk result (λ judged. (judged ≡ judgement count.now rows.old (Ok row))
        × (rows.new ≡ rows_after count.now.canton rows.old (Ok row))) }
{
    if let Err(fault) = hold(count.setup(), rows, row) {
        return refused_for(fault);
    }
    Ok(by_verdict(count.judge(&Command::Return { desk: 0, row })))
}

/// Judges a record after these rows, and adds its row to them unless it has a fault.
fn judge_record(
    count: &Count<'_>,
    rows: &mut Batch,
    csv_record: &ByteRecord,
) -> Result<Judgement, AllocError>
    ensures { IfOk result (λ judged. (judged ≡ judgement count.now rows.old (row_in (fields_of csv_record.now)))
        × (rows.new ≡ rows_after count.now.canton rows.old (row_in (fields_of csv_record.now)))) }
{
    match row_of(csv_record) {
        Ok(row) => judge_row(count, rows, row),
        Err(fault) => refused_for(fault),
    }
}

/// Writes the line of a record if it is refused.
fn write_finding<W: Write>(
    alloc: Global,
    number: u32,
    csv_record: &ByteRecord,
    judgement: Judgement,
    out: &mut W,
) -> Result<(), JudgementFault>
    ensures all { OnOk result (Appends (W.contents out.old) (W.contents out.new) (line_by number (fields_of csv_record.now) judgement)) }
    ensures front { IfErr result (λ fault.
        BreaksOffLine fault (W.contents out.old) (W.contents out.new) (line_by number (fields_of csv_record.now) judgement)) }
{
    let Judgement::Refused(refusal) = judgement else {
        return Ok(());
    };
    let line = refused_line(alloc, number, csv_record, refusal)?;
    put(out, &line)?;
    Ok(())
}

/// Judges the first record, which must consist of the column names.
fn judge_first<W: Write>(
    alloc: Global,
    csv_record: &ByteRecord,
    out: &mut W,
) -> Result<Forecast, JudgementFault>
    ensures counts { IfOk result (λ counts. counts ≡ forecast_of (first_findings (fields_of csv_record.now))) }
    ensures all { OnOk result
        (Appends (W.contents out.old) (W.contents out.new) (finding_lines (first_findings (fields_of csv_record.now)))) }
    ensures front { IfErr result (λ fault.
        BreaksOffLine fault (W.contents out.old) (W.contents out.new) (finding_lines (first_findings (fields_of csv_record.now)))) }
{
    if is_names(csv_record) {
        return Ok(Forecast {
            records: 0,
            refused: 0,
            stores: false,
        });
    }
    write_finding(alloc, 1, csv_record, Judgement::Refused(Refusal::Csv), out)?;
    Ok(Forecast {
        records: 1,
        refused: 1,
        stores: false,
    })
}

impl Progress {
    /// Judges the first record.
    pub(crate) fn begin<W: Write>(
        alloc: Global,
        csv_record: &ByteRecord,
        out: &mut W,
    ) -> Result<Progress, JudgementFault>
        ensures begun { IfOk result (λ progress. ((tally : Tally) → IsAfter tally (fields_of csv_record.now ∷ []) progress)
            × (progress.counts.refused ≤ progress.counts.records) × (progress.counts.records ≤ 1)) }
        ensures all { OnOk result
            (Appends (W.contents out.old) (W.contents out.new) (finding_lines (first_findings (fields_of csv_record.now)))) }
        ensures front { IfErr result (λ fault.
            BreaksOffLine fault (W.contents out.old) (W.contents out.new) (finding_lines (first_findings (fields_of csv_record.now)))) }
    {
        let counts = judge_first(alloc, csv_record, out)?;
        Ok(Progress {
            rows: Batch::new(alloc),
            counts,
        })
    }

    /// Judges a further record. `number` is its row in the text.
    pub(crate) fn take<W: Write>(
        &mut self,
        alloc: Global,
        count: &Count<'_>,
        number: u32,
        csv_record: &ByteRecord,
        out: &mut W,
    ) -> Result<(), JudgementFault>
        requires within { self.old.counts.refused ≤ self.old.counts.records }
        requires room { self.old.counts.records + 1 < 2 ^ 32 }
        ensures rows { OnOk result (self.new.rows ≡ rows_after count.now.canton self.old.rows (row_in (fields_of csv_record.now))) }
        ensures counts { OnOk result (self.new.counts
            ≡ forecast_with self.old.counts (judgement count.now self.old.rows (row_in (fields_of csv_record.now)))) }
        ensures all { OnOk result (Appends (W.contents out.old) (W.contents out.new)
            (line_by number (fields_of csv_record.now) (judgement count.now self.old.rows (row_in (fields_of csv_record.now))))) }
        ensures front { IfErr result (λ fault. BreaksOffLine fault (W.contents out.old) (W.contents out.new)
            (line_by number (fields_of csv_record.now) (judgement count.now self.old.rows (row_in (fields_of csv_record.now))))) }
    {
        let judgement = judge_record(count, &mut self.rows, csv_record)?;
        self.counts.note(judgement);
        write_finding(alloc, number, csv_record, judgement, out)
    }
}

/// Judges the records that follow the first.
fn judge_others<R: Read, W: Write>(
    alloc: Global,
    count: &Count<'_>,
    reader: &mut Reader<R>,
    csv_record: &mut ByteRecord,
    progress: &mut Progress,
    out: &mut W,
) -> Result<(), JudgementFault>
    requires within { progress.old.counts.refused ≤ progress.old.counts.records }
    requires few { progress.old.counts.records ≤ 1 }
    ensures { (first : Record) → IsAfter count.now (first ∷ []) progress.old → MatchResult result
        (λ _. AreJudged count.now first (λ bytes. HasRead R.remaining (front_of bytes) (first ∷ []) reader.old)
        (W.contents out.old) (W.contents out.new) progress.new)
        (λ fault. AreBrokenOff count.now first (λ bytes. HasRead R.remaining (front_of bytes) (first ∷ []) reader.old)
        (WritesUpTo (bytes_left fault) (W.contents out.old) (W.contents out.new)) (records_judged fault)) }
{
    for number in 2..u32::MAX {
        if !next_record(reader, csv_record)? {
            return Ok(());
        }
        progress.take(alloc, count, number, csv_record, out)?;
    }
    Err(JudgementFault::Turns)
}

/// Writes the forecast and returns it.
fn write_forecast<W: Write>(
    alloc: Global,
    forecast: Forecast,
    out: &mut W,
) -> Result<Forecast, JudgementFault>
    ensures comes_to { IfOk result (λ comes_to. comes_to ≡ forecast) }
    ensures all { OnOk result (Appends (W.contents out.old) (W.contents out.new) (forecast_text forecast)) }
    ensures front { IfErr result (λ fault. BreaksOffLine fault (W.contents out.old) (W.contents out.new) (forecast_text forecast)) }
{
    let line = forecast_line(alloc, forecast)?;
    put(out, &line)?;
    Ok(forecast)
}

/// Judges a text without records, as if it had one without fields.
fn judge_none<W: Write>(alloc: Global, out: &mut W) -> Result<Forecast, JudgementFault>
    ensures { (tally : Tally) → MatchResult result
        (λ forecast. Appends (W.contents out.old) (W.contents out.new) (judgement_text tally [])
        × (forecast ≡ forecast_of (findings tally [])))
        (λ fault. BreaksOffLine fault (W.contents out.old) (W.contents out.new) (judgement_text tally [])) }
{
    let progress = Progress::begin(alloc, &ByteRecord::new(alloc), out)?;
    write_forecast(alloc, progress.counts, out)
}

/// Judges a text whose first record has been read.
fn judge_all<R: Read, W: Write>(
    alloc: Global,
    count: &Count<'_>,
    reader: &mut Reader<R>,
    csv_record: &mut ByteRecord,
    out: &mut W,
) -> Result<Forecast, JudgementFault>
    ensures { Judges count.now (λ bytes. HasRead R.remaining (front_of bytes) (fields_of csv_record.old ∷ []) reader.old)
        (W.contents out.old) (W.contents out.new) result }
{
    let mut progress = Progress::begin(alloc, csv_record, out)?;
    judge_others(alloc, count, reader, csv_record, &mut progress, out)?;
    write_forecast(alloc, progress.counts, out)
}

/// Judges the records of a text.
fn judge_records<R: Read + Drop, W: Write>(
    alloc: Global,
    count: &Count<'_>,
    text: R,
    out: &mut W,
) -> Result<Forecast, JudgementFault>
    ensures { Judges count.now (λ bytes. R.remaining text ≡ Some bytes) (W.contents out.old) (W.contents out.new) result }
{
    let mut reader = reader_of(alloc, text);
    let mut csv_record = ByteRecord::new(alloc);
    if !next_record(&mut reader, &mut csv_record)? {
        return judge_none(alloc, out);
    }
    judge_all(alloc, count, &mut reader, &mut csv_record, out)
}

/// Judges each record of a text against this count as `load` would. Writes a line for each record that would be refused,
/// and then the forecast. It keeps one record at a time in memory, and up to 1,000 rows. A later record with the
/// municipality and the list of one of these rows is refused.
pub fn write_judgement<R: Read, W: Write>(
    alloc: Global,
    count: &Count<'_>,
    text: &mut NotedReader<R>,
    out: &mut W,
) -> Result<Forecast, JudgementFault>
    ensures judges { Judges count.now (λ bytes. R.remaining (inner_reader text.old) ≡ Some bytes)
        (W.contents out.old) (W.contents out.new) result }
    ensures read { IsErrOf result JudgementFault.Read → has_failed text.new ≡ true }
{
    match judge_records(alloc, count, &mut *text, out) {
        // The contract of `csv` does not say that a read failed. If none did, the error is reported as refused memory.
        Err(JudgementFault::Read) if !text.has_failed() => Err(JudgementFault::Memory),
        judged => judged,
    }
}
