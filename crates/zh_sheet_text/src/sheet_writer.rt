//! The lines of a sheet in order (docs/FORMATS.md, "The sheet"), and its text, written through a buffer.
ghost use Rattle.std.specs.Io.KnownBytes.{Appends};
ghost use Rattle.std.specs.Prelude.{◌≡◌, ◌≤◌, length, slice_index_or, ◌+◌, ◌<◌, ℕ, All, OnErr, OnOk, take};
ghost use Rattle.zh_districts.specs.Canton.{IsCanton};
ghost use Rattle.zh_sheet_text.specs.Layout.{constituency_line, end_line, group_line, head_line, house_line, key_line, lines_below};
ghost use Rattle.zh_sheet_text.specs.Layout.{list_line, quorum_line, sheet_lines, IsPartOf};
ghost use Rattle.zh_sheet_text.specs.Printing.{PrintsAll};
ghost use Rattle.zh_sheet_text.specs.SheetText.{line_text, part_text, sheet_text};

use crate::line::{Head, Label, LineParts, SheetPart, push_parts};
use crate::write_buffer::{LINE, ROOM, WriteBuffer, make_room, send};
use std::io::Write;
use zh_districts::Setup;
use zh_sheet::Sheet;
use zh_text::WriteFault;

/// The first line: the desk, whether the sheet is final, and the number of accepted commands.
fn head_line() -> LineParts
    ensures { result ≡ head_line }
{
    LineParts::of(
        true,
        &[
            SheetPart::Desk,
            SheetPart::Fixed(Label::Sheet),
            SheetPart::Kind,
            SheetPart::Accepted,
        ],
    )
}

fn house_line(setup: &Setup) -> LineParts
    ensures { result ≡ house_line setup.now }
{
    LineParts::of(
        true,
        &[
            SheetPart::Fixed(Label::House),
            SheetPart::Number(setup.house()),
        ],
    )
}

/// The line of a divisor of seats, a fraction that is not reduced.
fn key_line(whose: Label, key: SheetPart) -> LineParts
    ensures { result ≡ key_line whose key }
{
    LineParts::of(
        true,
        &[SheetPart::Fixed(whose), SheetPart::Fixed(Label::Key), key],
    )
}

/// The line of the canton-wide quorum, if the set-up has one.
fn quorum_line(setup: &Setup) -> LineParts
    ensures { result ≡ quorum_line setup.now.canton_quorum }
{
    match setup.canton_quorum() {
        Some(per_mille) => LineParts::of(
            true,
            &[
                SheetPart::Fixed(Label::Quorum),
                SheetPart::Fixed(Label::Canton),
                SheetPart::Number(per_mille),
            ],
        ),
        None => LineParts::of(false, &[]),
    }
}

fn constituency_line(setup: &Setup, constituency: u32) -> LineParts
    requires from_one { 1 ≤ constituency }
    requires there { constituency ≤ length setup.now.constituencies }
    ensures { result ≡ constituency_line setup.now constituency }
{
    LineParts::of(
        true,
        &[
            SheetPart::Fixed(Label::Constituency),
            SheetPart::Number(constituency),
            SheetPart::Fixed(Label::Persons),
            SheetPart::Number(setup.persons(constituency)),
            SheetPart::Fixed(Label::Seats),
            SheetPart::ConstituencySeats(constituency),
            SheetPart::Fixed(Label::Votes),
            SheetPart::ConstituencyVotes(constituency),
            SheetPart::Fixed(Label::Divisor),
            SheetPart::ConstituencyDivisor(constituency),
            SheetPart::ConstituencyName(constituency),
        ],
    )
}

fn group_line(group: u32) -> LineParts
    ensures { result ≡ group_line group }
{
    LineParts::of(
        true,
        &[
            SheetPart::Fixed(Label::Group),
            SheetPart::Number(group),
            SheetPart::Fixed(Label::Quorum),
            SheetPart::TakesPart(group),
            SheetPart::Fixed(Label::Voters),
            SheetPart::GroupVoters(group),
            SheetPart::Fixed(Label::Seats),
            SheetPart::GroupSeats(group),
            SheetPart::Fixed(Label::Divisor),
            SheetPart::GroupDivisor(group),
            SheetPart::GroupName(group),
        ],
    )
}

fn list_line(setup: &Setup, constituency: u32, group: u32) -> LineParts
    requires from_one { 1 ≤ constituency }
    requires there { constituency ≤ length setup.now.constituencies }
    requires group_from_one { 1 ≤ group }
    requires group_there { group ≤ length setup.now.groups }
    ensures { result ≡ list_line setup.now constituency group }
{
    LineParts::of(
        setup.stands(constituency, group),
        &[
            SheetPart::Fixed(Label::List),
            SheetPart::Number(constituency),
            SheetPart::Number(group),
            SheetPart::Fixed(Label::Votes),
            SheetPart::ListVotes(constituency, group),
            SheetPart::Fixed(Label::Voters),
            SheetPart::ListVoters(constituency, group),
            SheetPart::Fixed(Label::Seats),
            SheetPart::ListSeats(constituency, group),
        ],
    )
}

fn end_line() -> LineParts
    ensures { result ≡ end_line }
{
    LineParts::of(true, &[SheetPart::Fixed(Label::End)])
}

/// The line at a place below that of the canton-wide quorum, from 0.
fn line_below(setup: &Setup, place: u32) -> LineParts
    ensures { result ≡ slice_index_or (lines_below setup.now) place end_line }
{
    let (rows, columns) = (setup.constituencies(), setup.groups());
    if place < rows {
        return constituency_line(setup, place + 1);
    }
    let of_group = place - rows;
    if of_group < columns {
        return group_line(of_group + 1);
    }
    let of_list = of_group - columns;
    if of_list < rows * columns {
        return list_line(setup, of_list / columns + 1, of_list % columns + 1);
    }
    end_line()
}

/// The number of lines of a sheet, including those that are not written: at most 1,094.
pub fn line_count(setup: &Setup) -> u32
    ensures count { result ≡ length (sheet_lines setup.now) }
    ensures few { result ≤ 1094 }
    ensures canton { IsCanton setup.now }
{
    let (rows, columns) = (setup.constituencies(), setup.groups());
    6 + rows + columns + rows * columns
}

/// The line at a place, from 0. Past the end it is the last line.
pub fn line_at(setup: &Setup, place: u32) -> LineParts
    ensures { result ≡ slice_index_or (sheet_lines setup.now) place end_line }
{
    match place {
        0 => head_line(),
        1 => house_line(setup),
        2 => key_line(Label::Seats, SheetPart::SeatsKey),
        3 => key_line(Label::Upper, SheetPart::UpperKey),
        4 => quorum_line(setup),
        _ => line_below(setup, place - 5),
    }
}

/// Puts a line into the buffer, if it is written, and makes room there for the next line.
fn print_line<W: Write>(
    buffer: &mut WriteBuffer,
    out: &mut W,
    sheet: &Sheet<'_>,
    head: Head,
    line: &LineParts,
) -> Result<(), WriteFault>
    requires parts { All (IsPartOf sheet.now.totals.canton) line.now.parts }
    requires room { length buffer.old.items + LINE ≤ ROOM }
    ensures { PrintsAll (line_text (part_text sheet.now head) line.now) result
        (W.contents out.old) buffer.old.items (W.contents out.new) buffer.new.items }
{
    if !line.is_there() {
        return Ok(());
    }
    push_parts(buffer, sheet, head, line.parts());
    make_room(buffer, out)
}

/// Writes the text of a sheet for a desk, as final or provisional, after this number of accepted commands
/// (docs/FORMATS.md, "The sheet").
///
/// If the writer fails, a proper prefix of the text was written. It allocates nothing.
pub fn write_sheet<W: Write>(
    sheet: &Sheet<'_>,
    desk: u8,
    is_final: bool,
    accepted: u64,
    out: &mut W,
) -> Result<(), WriteFault>
    ensures all { OnOk result (Appends (W.contents out.old) (W.contents out.new) (sheet_text sheet.now desk is_final accepted)) }
    ensures front { OnErr result ((n : ℕ) × (n < length (sheet_text sheet.now desk is_final accepted))
        × Appends (W.contents out.old) (W.contents out.new) (take n (sheet_text sheet.now desk is_final accepted))) }
{
    let head = Head {
        desk,
        is_final,
        accepted,
    };
    let setup = sheet.setup();
    let mut buffer = WriteBuffer::new();
    for place in 0..line_count(setup) {
        print_line(&mut buffer, out, sheet, head, &line_at(setup, place))?;
    }
    send(&mut buffer, out)
}
