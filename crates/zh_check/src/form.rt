//! The form of a sheet, and the first line that is not of its kind.
ghost use Rattle.std.specs.List.{list_all};
ghost use Rattle.std.specs.Prelude.{◌≡◌, IfOk, ◌++◌, All, OnOk};
ghost use Rattle.zh_check.specs.Form.{FindsOffForm, formed, shown_form, without_crs, line_form, part_form, parts_form, dots_for, filled};
ghost use Rattle.zh_check.specs.Form.{fits, is_digit_or, is_divisor, is_made_of_digits, is_number, is_number_from};
ghost use Rattle.zh_check.specs.Lines.{after_if};
ghost use Rattle.zh_sheet_text.specs.Layout.{IsPartOf};

use crate::checked::WrongLine;
use crate::lines::{Lines, first_difference, is_same, number_of_word, split_word};
use crate::recomputed::MOST_SEATS;
use itoa::Buffer;
use std::alloc::{AllocError, Global};
use zh_districts::Setup;
use zh_sheet_text::{LineParts, SheetPart, label_text, line_at, line_count, mark_after};
use zh_text::{millionths_text, push_number};

/// A text in the form of a sheet. At each part it has what the set-up says. If the set-up does not give the word, it
/// has that of `text` if it is possible there, otherwise dots.
fn formed(alloc: Global, setup: &Setup, text: &[u8]) -> Result<Vec<u8>, AllocError>
    ensures { IfOk result (λ found. found.items ≡ formed setup.now text.now) }
{
    let mut lines = Lines::new(text);
    let mut found = Vec::new(alloc);
    for place in 0..line_count(setup) {
        push_line(&mut found, &mut lines, setup, &line_at(setup, place))?;
    }
    Ok(found)
}

/// The text without CRs.
fn without_crs(alloc: Global, text: &[u8]) -> Result<Vec<u8>, AllocError>
    ensures { IfOk result (λ found. found.items ≡ without_crs text.now) }
{
    text.iter()
        .copied()
        .filter(|byte| *byte != b'\r')
        .collect(alloc)
}

/// What the lines of a text should be: those of the text without CRs if that is in the form of a sheet, otherwise those
/// of the form with dots.
fn shown_form(alloc: Global, setup: &Setup, text: &[u8]) -> Result<Vec<u8>, AllocError>
    ensures { IfOk result (λ found. found.items ≡ shown_form setup.now text.now) }
{
    let bare_text = without_crs(alloc, text)?;
    let expected = formed(alloc, setup, &bare_text)?;
    if is_same(&bare_text, &expected) {
        return Ok(bare_text);
    }
    formed(alloc, setup, &[])
}

/// The first line that is not of its kind, if there is one.
pub(crate) fn first_off_form(
    alloc: Global,
    setup: &Setup,
    text: &[u8],
) -> Result<Option<WrongLine>, AllocError>
    ensures { IfOk result (FindsOffForm setup.now text.now) }
{
    let expected = formed(alloc, setup, text)?;
    if is_same(text, &expected) {
        return Ok(None);
    }
    let shown = shown_form(alloc, setup, text)?;
    let wrong = first_difference(alloc, text, &expected, &shown)?;
    Ok(Some(wrong))
}

/// Appends what a part should be: what the set-up says, or the word that was found if it is possible there, or dots.
fn push_part(
    text: &mut Vec<u8>,
    setup: &Setup,
    part: SheetPart,
    word: &[u8],
) -> Result<(), AllocError>
    requires { IsPartOf setup.now part }
    ensures { OnOk result (text.new.items ≡ text.old.items ++ part_form setup.now part word.now) }
{
    match part {
        SheetPart::Fixed(label) => text.extend_from_slice(label_text(label)),
        SheetPart::Number(number) => push_number(text, number),
        SheetPart::ConstituencyName(d) => text.extend_from_slice(
            setup.constituency_name(d).as_bytes(),
        ),
        SheetPart::GroupName(g) => text.extend_from_slice(setup.group_name(g).as_bytes()),
        _ => text.extend_from_slice(filled(part, word)),
    }
}

/// Appends the form of a line with these parts, with the words of `line`.
fn push_parts(
    text: &mut Vec<u8>,
    setup: &Setup,
    parts: &[SheetPart],
    line: &[u8],
) -> Result<(), AllocError>
    requires { All (IsPartOf setup.now) parts.now }
    ensures { OnOk result (text.new.items ≡ text.old.items ++ parts_form setup.now parts.now line.now) }
{
    let mut rest = line;
    for place in 0..parts.len() {
        let (word, after) = split_word(rest);
        push_part(text, setup, parts[place], word)?;
        text.extend_from_slice(mark_after(place + 1 == parts.len()))?;
        rest = after;
    }
    Ok(())
}

/// Appends the form of the next line, if it is written.
pub(crate) fn push_line(
    text: &mut Vec<u8>,
    lines: &mut Lines<'_>,
    setup: &Setup,
    line: &LineParts,
) -> Result<(), AllocError>
    requires { All (IsPartOf setup.now) line.now.parts }
    ensures put { OnOk result (text.new.items ≡ text.old.items ++ line_form setup.now line.now lines.old) }
    ensures rest { OnOk result (lines.new ≡ after_if line.now.is_there lines.old) }
{
    if !line.is_there() {
        return Ok(());
    }
    push_parts(text, setup, line.parts(), lines.next())
}

/// Whether a word is a number as sheets write it: in decimal, without leading zeros.
fn is_number(word: &[u8]) -> bool
    ensures { result ≡ is_number word.now }
{
    word == Buffer::new().format(number_of_word(word)).as_bytes()
}

/// Whether a word is a number as sheets write it, from `low` to `high`.
fn is_number_from(low: u64, high: u64, word: &[u8]) -> bool
    ensures { result ≡ is_number_from low high word.now }
{
    let number = number_of_word(word);
    is_number(word) && low <= number && number <= high
}

/// Whether a word is a divisor as sheets write it: with six digits after the point.
fn is_divisor(word: &[u8]) -> bool
    ensures { result ≡ is_divisor word.now }
{
    word == millionths_text(u128::from(number_of_word(word))).as_slice()
}

/// Whether a byte is a digit or `mark`.
fn is_digit_or(mark: u8, byte: u8) -> bool
    ensures { result ≡ is_digit_or mark byte }
{
    byte.is_ascii_digit() || byte == mark
}

/// Whether each byte of a word is a digit or `mark`.
fn are_digits_or(mark: u8, word: &[u8]) -> bool
    ensures { result ≡ list_all (is_digit_or mark) word.now }
{
    for byte in word {
        if !is_digit_or(mark, *byte) {
            return false;
        }
    }
    true
}

/// Whether a word is not empty and each byte of it is a digit or `mark`.
fn is_made_of_digits(mark: u8, word: &[u8]) -> bool
    ensures { result ≡ is_made_of_digits mark word.now }
{
    !word.is_empty() && are_digits_or(mark, word)
}

/// Whether a word is possible at a part. At a part that the set-up gives, no word is.
fn does_fit(part: SheetPart, word: &[u8]) -> bool
    ensures { result ≡ fits part word.now }
{
    match part {
        SheetPart::Desk => is_number_from(1, 8, word),
        SheetPart::Kind => word == b"provisional".as_slice() || word == b"final".as_slice(),
        SheetPart::Accepted => is_number(word),
        SheetPart::SeatsKey => is_made_of_digits(b'/', word),
        SheetPart::UpperKey => is_made_of_digits(b'/', word),
        SheetPart::ConstituencySeats(_) => is_number_from(0, MOST_SEATS, word),
        SheetPart::ConstituencyVotes(_) => is_number(word),
        SheetPart::ConstituencyDivisor(_) => is_divisor(word),
        SheetPart::TakesPart(_) => word == b"yes".as_slice() || word == b"no".as_slice(),
        SheetPart::GroupVoters(_) => word == b"-".as_slice() || is_made_of_digits(b'0', word),
        SheetPart::GroupSeats(_) => is_number_from(0, MOST_SEATS, word),
        SheetPart::GroupDivisor(_) => word == b"-".as_slice() || is_divisor(word),
        SheetPart::ListVotes(_, _) => is_number(word),
        SheetPart::ListVoters(_, _) => word == b"-".as_slice() || is_made_of_digits(b'0', word),
        SheetPart::ListSeats(_, _) => is_number_from(0, MOST_SEATS, word),
        SheetPart::Fixed(_) => false,
        SheetPart::Number(_) => false,
        SheetPart::ConstituencyName(_) => false,
        SheetPart::GroupName(_) => false,
    }
}

/// Dots in place of a word: two, or one if the word is two dots. So the result always differs from the word.
fn dots_for(word: &[u8]) -> &'static [u8]
    ensures { result.now ≡ dots_for word.now }
{
    if word == b"..".as_slice() {
        b"."
    } else {
        b".."
    }
}

/// The word, if it is possible at this part, otherwise dots.
pub(crate) fn filled(part: SheetPart, word: &[u8]) -> &[u8]
    ensures { result.now ≡ filled part word.now }
{
    if does_fit(part, word) {
        word
    } else {
        dots_for(word)
    }
}
