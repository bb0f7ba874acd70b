//! The lines of the parts of a sheet that are right, and the text of the verdict on a right sheet.
ghost use Rattle.std.specs.Prelude.{◌≡◌, ◌++◌, OnOk, ◌≤◌, IfOk};
ghost use Rattle.zh_verdicts.specs.Parts.{form_and_votes, parts_above, parts_text, rows_part, votes_line};
ghost use Rattle.zh_verdicts.specs.Right.{commands_part, desk_part, kind_part, missing_line, right_verdict, unchecked_line, worth_line};

use std::alloc::{AllocError, Global};
use zh_check::RightSheet;
use zh_tables::HeldRows;
use zh_text::push_number;

/// Appends `H of D rows`: the number of rows that are held, and the number of returns that are due.
pub(crate) fn push_rows(text: &mut Vec<u8>, rows: HeldRows) -> Result<(), AllocError>
    ensures { OnOk result (text.new.items ≡ text.old.items ++ rows_part rows) }
{
    push_number(text, rows.held)?;
    text.extend_from_slice(b" of ")?;
    push_number(text, rows.due)?;
    text.extend_from_slice(b" rows")
}

/// Appends the line about the votes: they are the sums of these rows, or were not compared.
fn push_votes(text: &mut Vec<u8>, held: Option<HeldRows>) -> Result<(), AllocError>
    ensures { OnOk result (text.new.items ≡ text.old.items ++ votes_line held) }
{
    let Some(rows) = held else {
        return text.extend_from_slice(b"votes not compared\n");
    };
    text.extend_from_slice(b"votes ok: the sums of ")?;
    push_rows(text, rows)?;
    text.extend_from_slice(b"\n")
}

/// Appends `form ok` and the line about the votes.
pub(crate) fn push_form_and_votes(
    text: &mut Vec<u8>,
    held: Option<HeldRows>,
) -> Result<(), AllocError>
    ensures { OnOk result (text.new.items ≡ text.old.items ++ form_and_votes held) }
{
    text.extend_from_slice(b"form ok\n")?;
    push_votes(text, held)
}

/// Appends the lines of further parts that are right: of the seats and the participation if the first line that differs should
/// be that of a list, of the seats only if it should be that of a group, otherwise none. `should` is what that line should be.
pub(crate) fn push_parts_above(text: &mut Vec<u8>, should: &[u8]) -> Result<(), AllocError>
    ensures { OnOk result (text.new.items ≡ text.old.items ++ parts_above should.now) }
{
    if should.starts_with(b"list ") {
        text.extend_from_slice(b"seats ok\nparticipation ok\n")
    } else if should.starts_with(b"group ") {
        text.extend_from_slice(b"seats ok\n")
    } else {
        Ok(())
    }
}

/// Appends the lines of all parts, from `form ok` to `lists ok`.
pub(crate) fn push_parts(text: &mut Vec<u8>, held: Option<HeldRows>) -> Result<(), AllocError>
    ensures { OnOk result (text.new.items ≡ text.old.items ++ parts_text held) }
{
    push_form_and_votes(text, held)?;
    text.extend_from_slice(b"seats ok\nparticipation ok\nvoters ok\ngroups ok\nlists ok\n")
}

/// Appends `not checked: final` or `not checked: provisional`.
fn push_kind(text: &mut Vec<u8>, is_final: bool) -> Result<(), AllocError>
    ensures { OnOk result (text.new.items ≡ text.old.items ++ kind_part is_final) }
{
    if is_final {
        text.extend_from_slice(b"not checked: final")
    } else {
        text.extend_from_slice(b"not checked: provisional")
    }
}

/// Appends how many commands were accepted.
fn push_commands(text: &mut Vec<u8>, accepted: u64) -> Result<(), AllocError>
    ensures { OnOk result (text.new.items ≡ text.old.items ++ commands_part accepted) }
{
    text.extend_from_slice(b", commands ")?;
    push_number(text, accepted)
}

/// Appends which desk asked for the sheet, and LF.
fn push_desk(text: &mut Vec<u8>, desk: u8) -> Result<(), AllocError>
    ensures { OnOk result (text.new.items ≡ text.old.items ++ desk_part desk) }
{
    text.extend_from_slice(b", desk ")?;
    push_number(text, desk)?;
    text.extend_from_slice(b"\n")
}

/// Appends the line about what a check can't know.
fn push_unchecked(text: &mut Vec<u8>, right: &RightSheet<'_>) -> Result<(), AllocError>
    ensures { OnOk result (text.new.items ≡ text.old.items ++ unchecked_line right.now) }
{
    push_kind(text, right.head.is_final)?;
    push_commands(text, right.head.accepted)?;
    push_desk(text, right.head.desk)
}

/// The line about what a check can't know of a right sheet: whether it is final or provisional, how many commands were
/// accepted before, and which desk asked for it (docs/FORMATS.md). It ends with LF.
pub fn unchecked_line(alloc: Global, right: &RightSheet<'_>) -> Result<Vec<u8>, AllocError>
    ensures { IfOk result (λ line. line.items ≡ unchecked_line right.now) }
{
    let mut line = Vec::new(alloc);
    push_unchecked(&mut line, right)?;
    Ok(line)
}

/// Appends the line `sheet ok for ..`, with the rows that are held and the number of missing returns.
fn push_missing(text: &mut Vec<u8>, rows: HeldRows) -> Result<(), AllocError>
    requires { rows.held ≤ rows.due }
    ensures { OnOk result (text.new.items ≡ text.old.items ++ missing_line rows) }
{
    text.extend_from_slice(b"sheet ok for ")?;
    push_rows(text, rows)?;
    text.extend_from_slice(b": ")?;
    push_number(text, rows.due - rows.held)?;
    text.extend_from_slice(b" returns are missing\n")
}

/// Appends the last line: what the check of a right sheet has shown.
fn push_worth(text: &mut Vec<u8>, held: Option<HeldRows>) -> Result<(), AllocError>
    ensures { OnOk result (text.new.items ≡ text.old.items ++ worth_line held) }
{
    match held {
        Some(rows) if rows.held < rows.due => push_missing(text, rows),
        Some(_) => text.extend_from_slice(b"sheet ok: no other seats follow from these votes\n"),
        None => text.extend_from_slice(
            b"sheet ok for these votes; that they were returned is not checked\n",
        ),
    }
}

/// Appends the verdict on a right sheet: the lines of all parts, what a check can't know, and what it has shown.
pub(crate) fn push_right(
    text: &mut Vec<u8>,
    right: &RightSheet<'_>,
    held: Option<HeldRows>,
) -> Result<(), AllocError>
    ensures { OnOk result (text.new.items ≡ text.old.items ++ right_verdict held right.now) }
{
    push_parts(text, held)?;
    push_unchecked(text, right)?;
    push_worth(text, held)
}
