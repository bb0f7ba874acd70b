//! A wrong line of a sheet, and what it should be.
ghost use Rattle.std.specs.Prelude.{◌≡◌, ◌++◌, OnOk};
ghost use Rattle.zh_verdicts.specs.Wrong.{differs_text, found_text, held_text, lacks_end, should_text, shown_line, sum_text, total_text};
ghost use Rattle.zh_verdicts.specs.Wrong.{wrong_line};

use std::alloc::AllocError;
use zh_check::{OffTotal, OtherVotes, WrongLine};
use zh_text::{ShownNames, push_number, push_shown};

/// Appends a line as verdicts show it. CRs are shown by name, because a copied text can have one at the end of each
/// line.
fn push_shown_line(text: &mut Vec<u8>, line: &[u8]) -> Result<(), AllocError>
    ensures { OnOk result (text.new.items ≡ text.old.items ++ shown_line line.now) }
{
    push_shown(text, ShownNames::MarkAndReturn, line)
}

/// Appends a line that was found, or `nothing` if it is empty.
fn push_found(text: &mut Vec<u8>, found: &[u8]) -> Result<(), AllocError>
    ensures { OnOk result (text.new.items ≡ text.old.items ++ found_text found.now) }
{
    if found.is_empty() {
        return text.extend_from_slice(b"nothing");
    }
    push_shown_line(text, found)
}

/// Whether a line that was found lacks only its end: it is what it should be. A line with a dot does not count, because
/// dots can stand for words.
fn lacks_end(found: &[u8], should: &[u8]) -> bool
    ensures { result ≡ lacks_end found.now should.now }
{
    found == should && !should.contains(&b'.')
}

/// Appends what a line should be. After the last line there should be no line.
fn push_should(text: &mut Vec<u8>, found: &[u8], should: &[u8]) -> Result<(), AllocError>
    ensures { OnOk result (text.new.items ≡ text.old.items ++ should_text found.now should.now) }
{
    if should.is_empty() {
        return text.extend_from_slice(b"no line");
    }
    push_shown_line(text, should)?;
    if lacks_end(found, should) {
        return text.extend_from_slice(b" and a line end");
    }
    Ok(())
}

/// Appends the number of a wrong line, and the line.
pub(crate) fn push_wrong_line(text: &mut Vec<u8>, line: u64, found: &[u8]) -> Result<(), AllocError>
    ensures { OnOk result (text.new.items ≡ text.old.items ++ wrong_line line found.now) }
{
    text.extend_from_slice(b"line ")?;
    push_number(text, line)?;
    text.extend_from_slice(b": ")?;
    push_found(text, found)
}

/// Appends a wrong line and what it should be.
pub(crate) fn push_differs(text: &mut Vec<u8>, wrong: &WrongLine) -> Result<(), AllocError>
    ensures { OnOk result (text.new.items ≡ text.old.items ++ differs_text wrong.now) }
{
    push_wrong_line(text, wrong.line, &wrong.found)?;
    text.extend_from_slice(b", should be: ")?;
    push_should(text, &wrong.found, &wrong.should)?;
    text.extend_from_slice(b"\n")
}

/// Appends the line of a constituency or group, and the sum of the seats of its lists.
fn push_sum(text: &mut Vec<u8>, off: &OffTotal) -> Result<(), AllocError>
    ensures { OnOk result (text.new.items ≡ text.old.items ++ sum_text off.now) }
{
    push_wrong_line(text, off.line, &off.found)?;
    text.extend_from_slice(b": its lists have ")?;
    push_number(text, off.seats)
}

/// Appends the line of a constituency or group whose lists do not add up to its seats, and these seats.
pub(crate) fn push_total(text: &mut Vec<u8>, off: &OffTotal) -> Result<(), AllocError>
    ensures { OnOk result (text.new.items ≡ text.old.items ++ total_text off.now) }
{
    push_sum(text, off)?;
    text.extend_from_slice(b" seats, should be: ")?;
    push_number(text, off.total)?;
    text.extend_from_slice(b"\n")
}

/// Appends the line of a list whose votes differ from those held, and the votes held.
pub(crate) fn push_held(text: &mut Vec<u8>, other: &OtherVotes) -> Result<(), AllocError>
    ensures { OnOk result (text.new.items ≡ text.old.items ++ held_text other.now) }
{
    push_wrong_line(text, other.line, &other.found)?;
    text.extend_from_slice(b": the rows held have ")?;
    push_number(text, other.held)?;
    text.extend_from_slice(b" votes\n")
}
