//! The lines that say what a loading would do: one for each refused record, and a last line.

ghost use Rattle.std.specs.Prelude.{◌≡◌, ◌<◌, ◌++◌, ◌∷◌, [], drop, length, IfOk, OnOk};
ghost use Rattle.csv.specs.Records.{fields_of};
ghost use Rattle.zh_commands.specs.Replies.{answer};
ghost use Rattle.zh_commands.specs.declared.replies.Reply.{Reply};
ghost use Rattle.zh_office.specs.JudgementText.{conversion, after_commas, forecast_text, has_semicolons, joined};
ghost use Rattle.zh_office.specs.JudgementText.{refused_line, refused_text, shown_field};

use crate::judgement::Forecast;
use csv::ByteRecord;
use std::alloc::{AllocError, Global};
use zh_commands::{Refusal, Reply, answer_line};
use zh_csv::field;
use zh_text::{ShownNames, push_number, push_shown};

/// Appends a field as it is shown. A byte order mark is replaced by its name.
fn push_field(line: &mut Vec<u8>, field: &[u8]) -> Result<(), AllocError>
    ensures { OnOk result (line.new.items ≡ line.old.items ++ shown_field field.now) }
{
    push_shown(line, ShownNames::Mark, field)
}

/// Appends the fields after the first, each after a comma.
fn push_others(line: &mut Vec<u8>, csv_record: &ByteRecord) -> Result<(), AllocError>
    requires { 0 < length (fields_of csv_record.now) }
    ensures { OnOk result (line.new.items ≡ line.old.items ++ after_commas (drop 1 (fields_of csv_record.now))) }
{
    for place in 1..csv_record.len() {
        line.push(b',')?;
        push_field(line, field(csv_record, place))?;
    }
    Ok(())
}

/// Appends the fields, separated by commas.
fn push_fields(line: &mut Vec<u8>, csv_record: &ByteRecord) -> Result<(), AllocError>
    ensures { OnOk result (line.new.items ≡ line.old.items ++ joined (fields_of csv_record.now)) }
{
    if csv_record.len() == 0 {
        return Ok(());
    }
    push_field(line, field(csv_record, 0))?;
    push_others(line, csv_record)
}

/// Appends a space, the refusal and the end of the line.
fn push_refusal(line: &mut Vec<u8>, refusal: Refusal) -> Result<(), AllocError>
    ensures { OnOk result (line.new.items ≡ line.old.items ++ 32 ∷ answer (Reply.Refused refusal) ++ 10 ∷ []) }
{
    line.push(b' ')?;
    line.extend_from_slice(&answer_line(&Reply::Refused(refusal)))
}

/// Whether a record consists of the column names, separated by semicolons.
fn has_semicolons(csv_record: &ByteRecord) -> bool
    ensures { result ≡ has_semicolons (fields_of csv_record.now) }
{
    csv_record.len() == 1 && field(csv_record, 0) == b"municipality;list;number;votes".as_slice()
}

/// Appends how to convert the text, if this is its first record and semicolons separate its column names.
fn push_conversion(
    line: &mut Vec<u8>,
    number: u32,
    csv_record: &ByteRecord,
) -> Result<(), AllocError>
    ensures { OnOk result (line.new.items ≡ line.old.items ++ conversion number (fields_of csv_record.now)) }
{
    if number != 1 || !has_semicolons(csv_record) {
        return Ok(());
    }
    line.extend_from_slice(
        b"semicolons are between the fields, not commas: convert the file by tr ';' ','\n",
    )
}

/// The line of a refused record, followed by the advice on a text with semicolons where it applies.
pub(crate) fn refused_line(
    alloc: Global,
    number: u32,
    csv_record: &ByteRecord,
    refusal: Refusal,
) -> Result<Vec<u8>, AllocError>
    ensures { IfOk result (λ line. line.items ≡ refused_line number (fields_of csv_record.now) refusal) }
{
    let mut line = Vec::new(alloc);
    line.extend_from_slice(b"row ")?;
    push_number(&mut line, number)?;
    line.extend_from_slice(b": ")?;
    push_fields(&mut line, csv_record)?;
    push_refusal(&mut line, refusal)?;
    push_conversion(&mut line, number, csv_record)?;
    Ok(line)
}

/// Appends how many of the records are refused.
fn push_refused(line: &mut Vec<u8>, refused: u32, records: u32) -> Result<(), AllocError>
    ensures { OnOk result (line.new.items ≡ line.old.items ++ refused_text refused records) }
{
    line.extend_from_slice(b"refused ")?;
    push_number(line, refused)?;
    line.extend_from_slice(b" of ")?;
    push_number(line, records)?;
    line.extend_from_slice(b" records\n")
}

/// The last line, which sums up the forecast.
pub(crate) fn forecast_line(alloc: Global, forecast: Forecast) -> Result<Vec<u8>, AllocError>
    ensures { IfOk result (λ line. line.items ≡ forecast_text forecast) }
{
    let mut line = Vec::new(alloc);
    if forecast.refused > 0 {
        push_refused(&mut line, forecast.refused, forecast.records)?;
    } else if forecast.stores {
        line.extend_from_slice(b"would store\n")?;
    } else {
        line.extend_from_slice(b"same\n")?;
    }
    Ok(line)
}
