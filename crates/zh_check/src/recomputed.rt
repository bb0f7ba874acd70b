//! The sheet that follows from the values that only its text has.
ghost use Rattle.std.specs.Prelude.{◌∷◌, [], if◌then◌else◌, IfOk, OnOk, ◌≡◌, ◌≤◌, ◌↔◌, IsTrue, ◌*◌, ◌++◌, length, map, slice_index};
ghost use Rattle.zh_check.specs.Reading.{AddsWords, IsRead, words_in, lists_read, column_divisors, seats_in_columns};
ghost use Rattle.zh_check.specs.Verdicts.{FindsSheet, right_text};
ghost use Rattle.zh_sheet.specs.Distribution.{seated_groups};
ghost use Rattle.zh_sheet.specs.Given.{IsGiven};
ghost use Rattle.zh_totals.specs.Totals.{place_in};

use crate::checked::RightSheet;
use crate::lines::{Lines, number_of_word, split_word};
use std::alloc::{AllocError, Global};
use zh_districts::Setup;
use zh_sheet::{Sheet, given};
use zh_sheet_text::{Head, SheetPart, line_at, line_count, write_sheet};
use zh_totals::Totals;

/// The most seats that a list can have.
pub(crate) const MOST_SEATS: u64 = 400;

/// The values that only the text has. The divisors are in millionths, 0 for a group without one. Votes and seats are
/// those of every list, by constituency and group, 0 for a list that does not stand.
#[derive(Drop)]
pub(crate) struct Values {
    pub head: Head,
    pub row_divisors: Vec<u64>,
    pub group_divisors: Vec<u64>,
    pub votes: Vec<u64>,
    pub seats: Vec<u32>,
}

/// Reads the word at a part, if it is one of the parts that are read.
fn read_word(values: &mut Values, part: SheetPart, word: &[u8]) -> Result<(), AllocError>
    ensures { OnOk result (AddsWords (λ test. if test part then word.now ∷ [] else []) values.old values.new) }
{
    match part {
        SheetPart::Desk => {
            values.head.desk = number_of_word(word).min(255) as u8;
            Ok(())
        }
        SheetPart::Kind => {
            values.head.is_final = word == b"final".as_slice();
            Ok(())
        }
        SheetPart::Accepted => {
            values.head.accepted = number_of_word(word);
            Ok(())
        }
        SheetPart::ConstituencyDivisor(_) => {
            values.row_divisors.push(number_of_word(word))?;
            Ok(())
        }
        SheetPart::GroupDivisor(_) => {
            values.group_divisors.push(number_of_word(word))?;
            Ok(())
        }
        SheetPart::ListVotes(_, _) => {
            values.votes.push(number_of_word(word))?;
            Ok(())
        }
        SheetPart::ListSeats(_, _) => {
            values
                .seats
                .push(number_of_word(word).min(MOST_SEATS) as u32)?;
            Ok(())
        }
        _ => Ok(()),
    }
}

/// Reads a line that consists of these parts.
fn read_line(values: &mut Values, parts: &[SheetPart], line: &[u8]) -> Result<(), AllocError>
    ensures { OnOk result (AddsWords (λ test. words_in test parts.now line.now) values.old values.new) }
{
    let mut rest = line;
    for place in 0..parts.len() {
        let (word, after) = split_word(rest);
        read_word(values, parts[place], word)?;
        rest = after;
    }
    Ok(())
}

/// Reads the values of a sheet from its text. A text that is not a sheet can give any values.
pub(crate) fn read(alloc: Global, setup: &Setup, text: &[u8]) -> Result<Values, AllocError>
    ensures { IfOk result (IsRead setup.now text.now) }
{
    let mut values = Values {
        head: Head {
            desk: 0,
            is_final: false,
            accepted: 0,
        },
        row_divisors: Vec::new(alloc),
        group_divisors: Vec::new(alloc),
        votes: Vec::new(alloc),
        seats: Vec::new(alloc),
    };
    let mut lines = Lines::new(text);
    for place in 0..line_count(setup) {
        let line = line_at(setup, place);
        read_line(&mut values, line.parts(), lines.next_if(line.is_there()))?;
    }
    Ok(values)
}

/// Whether this is the number of a desk, 1 to 8.
fn is_desk(number: u8) -> bool
    ensures { IsTrue result ↔ (1 ≤ number) × (number ≤ 8) }
{
    number >= 1 && number <= 8
}

/// The sheet that has these totals, and the divisors and seats of lists that were read from a text, if it follows.
fn with_lists<'s>(
    alloc: Global,
    totals: &Totals<'s>,
    text: &[u8],
    values: &Values,
) -> Result<Option<Sheet<'s>>, AllocError>
    requires { IsRead totals.now.canton text.now values.now }
    ensures { IfOk result (IsGiven totals.now (lists_read totals.now.canton text.now)) }
{
    let setup = totals.setup();
    let seats = seats_in_columns(alloc, setup, &values.group_divisors, &values.seats)?;
    let rows = Vec::from_slice(alloc, &values.row_divisors)?;
    let columns = column_divisors(alloc, &values.group_divisors)?;
    given(alloc, totals, seats, rows, columns)
}

/// The sheet that has the votes, and the divisors and seats of lists, that were read from a text, if it follows.
pub(crate) fn recomputed<'s>(
    alloc: Global,
    setup: &'s Setup,
    text: &[u8],
    values: &Values,
) -> Result<Option<RightSheet<'s>>, AllocError>
    requires { IsRead setup.now text.now values.now }
    ensures { IfOk result (FindsSheet setup.now text.now) }
{
    if !is_desk(values.head.desk) {
        return Ok(None);
    }
    let votes = Vec::from_slice(alloc, &values.votes)?;
    let Some(totals) = Totals::from_votes(alloc, setup, votes)? else {
        return Ok(None);
    };
    let Some(sheet) = with_lists(alloc, &totals, text, values)? else {
        return Ok(None);
    };
    Ok(Some(RightSheet {
        sheet,
        head: values.head,
    }))
}

/// The text of a sheet.
pub(crate) fn text_of(alloc: Global, right: &RightSheet<'_>) -> Result<Vec<u8>, AllocError>
    ensures { IfOk result (λ text. text.items ≡ right_text right.now) }
{
    let Head {
        desk,
        is_final,
        accepted,
    } = right.head;
    let mut text = Vec::new(alloc);
    match write_sheet(&right.sheet, desk, is_final, accepted, &mut text) {
        Ok(()) => Ok(text),
        Err(_) => Err(AllocError),
    }
}

/// The divisors that are not 0.
pub(crate) fn column_divisors(alloc: Global, divisors: &[u64]) -> Result<Vec<u64>, AllocError>
    ensures { IfOk result (λ found. found.items ≡ column_divisors divisors.now) }
{
    divisors.iter().copied().filter(|x| *x > 0).collect(alloc)
}

/// Appends the seats of a constituency's lists, but only those of groups with a divisor.
fn push_columns(
    columns: &mut Vec<u32>,
    setup: &Setup,
    constituency: u32,
    divisors: &[u64],
    seats: &[u32],
) -> Result<(), AllocError>
    requires from_one { 1 ≤ constituency }
    requires there { constituency ≤ length setup.now.constituencies }
    requires divisors { length divisors.now ≡ length setup.now.groups }
    requires seats { length seats.now ≡ length setup.now.constituencies * length setup.now.groups }
    ensures { OnOk result (columns.new.items
        ≡ columns.old.items ++ map (λ g. slice_index seats.now (place_in setup.now constituency g)) (seated_groups divisors.now)) }
{
    let groups = setup.groups() as usize;
    let first = (constituency - 1) as usize * groups;
    for place in 0..groups {
        if divisors[place] > 0 {
            columns.push(seats[first + place])?;
        }
    }
    Ok(())
}

/// The seats of the lists of groups with a divisor, by constituency.
pub(crate) fn seats_in_columns(
    alloc: Global,
    setup: &Setup,
    divisors: &[u64],
    seats: &[u32],
) -> Result<Vec<u32>, AllocError>
    requires divisors { length divisors.now ≡ length setup.now.groups }
    requires seats { length seats.now ≡ length setup.now.constituencies * length setup.now.groups }
    ensures { IfOk result (λ columns. columns.items ≡ seats_in_columns setup.now divisors.now seats.now) }
{
    let mut columns = Vec::new(alloc);
    for place in 0..setup.constituencies() {
        push_columns(&mut columns, setup, place + 1, divisors, seats)?;
    }
    Ok(columns)
}
