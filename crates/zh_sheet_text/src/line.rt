//! A line of a sheet: its parts and their spelling.
ghost use Rattle.std.specs.Prelude.{◌≡◌, ◌≤◌, length, ◌∷◌, ◌++◌, [], if◌then◌else◌, ◌+◌, All, codes};
ghost use Rattle.zh_sheet_text.specs.Layout.{SheetLine, label_text, IsPartOf};
ghost use Rattle.zh_sheet_text.specs.SheetText.{part_text, joined_parts};

use crate::write_buffer::{LINE, PART, ROOM, WriteBuffer};
use std::marker::Model;
use zh_sheet::Sheet;
use zh_text::{
    push, push_bytes, push_divisor, push_divisor_or_dash, push_fraction, push_numeral,
    push_numeral_or_dash,
};

/// The most parts that a line can have.
pub(crate) const MOST_PARTS: usize = 11;

/// The parts of a line of a sheet. The line of a list that does not stand, or of a canton-wide quorum that the set-up
/// does not have, is not written.
#[derive(Drop)]
pub struct LineParts {
    is_there: bool,
    all: [SheetPart; MOST_PARTS],
    end: usize,
}

impl Model for LineParts {
    ghost use Rattle.std.specs.Prelude.{◌≤◌, take};
    ghost use Rattle.zh_sheet_text.specs.Layout.{SheetLine};
    ghost use Rattle.zh_sheet_text.specs.declared.line.TheConstants.{MOST_PARTS};

    ghost Value = { SheetLine };

    ghost view = { λ line. record { is_there = line.is_there; parts = take line.end line.all } };

    ghost invariant = { λ line. line.end ≤ MOST_PARTS };
}

impl LineParts {
    /// The line that consists of these parts.
    pub(crate) fn of(is_there: bool, parts: &[SheetPart]) -> LineParts
        requires { length parts.now ≤ MOST_PARTS }
        ensures { result ≡ record { is_there = is_there; parts = parts.now } }
    {
        let mut all = [SheetPart::Desk; MOST_PARTS];
        all[..parts.len()].copy_from_slice(parts);
        LineParts {
            is_there,
            all,
            end: parts.len(),
        }
    }

    /// Whether the line is written.
    pub fn is_there(&self) -> bool
        ensures { result ≡ self.now.is_there }
    {
        self.is_there
    }

    /// The parts of the line, in order.
    pub fn parts(&self) -> &[SheetPart]
        ensures parts { result.now ≡ self.now.parts }
        ensures few { length result.now ≤ MOST_PARTS }
    {
        &self.all[..self.end]
    }
}

/// A fixed word of a line, for example `persons`.
#[derive(Clone, Copy)]
pub enum Label {
    Sheet,
    House,
    Seats,
    Upper,
    Key,
    Quorum,
    Canton,
    Constituency,
    Persons,
    Votes,
    Divisor,
    Group,
    Voters,
    List,
    End,
}

/// A part of a line: a fixed word, a number of the set-up, or a value that is taken from the sheet or from its `Head`.
/// Constituencies and groups are given by their numbers, from 1.
#[derive(Clone, Copy)]
pub enum SheetPart {
    Fixed(Label),
    Number(u32),
    Desk,
    Kind,
    Accepted,
    SeatsKey,
    UpperKey,
    /// The seats of a constituency, its votes, its divisor and its name.
    ConstituencySeats(u32),
    ConstituencyVotes(u32),
    ConstituencyDivisor(u32),
    ConstituencyName(u32),
    /// Whether a group takes part; its voter sum, its seats, its divisor and its name.
    TakesPart(u32),
    GroupVoters(u32),
    GroupSeats(u32),
    GroupDivisor(u32),
    GroupName(u32),
    /// The votes, the voter number and the seats of a list, given its constituency and its group.
    ListVotes(u32, u32),
    ListVoters(u32, u32),
    ListSeats(u32, u32),
}

/// The text of a label.
pub fn label_text(label: Label) -> &'static [u8]
    ensures text { result.now ≡ label_text label }
    ensures at_most { length result.now ≤ 12 }
{
    match label {
        Label::Sheet => b"sheet",
        Label::House => b"house",
        Label::Seats => b"seats",
        Label::Upper => b"upper",
        Label::Key => b"key",
        Label::Quorum => b"quorum",
        Label::Canton => b"canton",
        Label::Constituency => b"constituency",
        Label::Persons => b"persons",
        Label::Votes => b"votes",
        Label::Divisor => b"divisor",
        Label::Group => b"group",
        Label::Voters => b"voters",
        Label::List => b"list",
        Label::End => b"end",
    }
}

/// The byte after a part: a line feed after the last part of a line, otherwise a space.
pub fn mark_after(is_last: bool) -> &'static [u8]
    ensures { result.now ≡ (if is_last then 10 else 32) ∷ [] }
{
    if is_last { b"\n" } else { b" " }
}

/// What the first line of a sheet says.
#[derive(Clone, Copy)]
pub struct Head {
    pub desk: u8,
    pub is_final: bool,
    pub accepted: u64,
}

/// `final` or `provisional`.
pub(crate) fn finality(is_final: bool) -> &'static str
    ensures word { result.now ≡ (if is_final then codes "final" else codes "provisional") }
    ensures short { length result.now ≤ 11 }
{
    if is_final { "final" } else { "provisional" }
}

/// `yes` or `no`.
pub fn yes_or_no(yes: &bool) -> &str
    ensures word { result.now ≡ (if yes.now then codes "yes" else codes "no") }
    ensures short { length result.now ≤ 3 }
{
    if *yes { "yes" } else { "no" }
}

/// Appends the text of a part.
fn push_part(text: &mut WriteBuffer, sheet: &Sheet<'_>, head: Head, part: SheetPart)
    requires there { IsPartOf sheet.now.totals.canton part }
    requires room { length text.old.items + PART ≤ ROOM }
    ensures text { text.new.items ≡ text.old.items ++ part_text sheet.now head part }
    ensures short { length text.new.items ≤ length text.old.items + PART }
{
    match part {
        SheetPart::Fixed(label) => push_bytes(text, label_text(label)),
        SheetPart::Number(number) => push_numeral(text, u64::from(number)),
        SheetPart::Desk => push_numeral(text, u64::from(head.desk)),
        SheetPart::Kind => push(text, finality(head.is_final)),
        SheetPart::Accepted => push_numeral(text, head.accepted),
        SheetPart::SeatsKey => push_fraction(text, sheet.seats().num(), sheet.seats().den()),
        SheetPart::UpperKey => push_fraction(text, sheet.upper().num(), sheet.upper().den()),
        SheetPart::ConstituencySeats(d) => push_numeral(
            text,
            u64::from(sheet.constituency_seats(d)),
        ),
        SheetPart::ConstituencyVotes(d) => push_numeral(text, sheet.totals().constituency(d)),
        SheetPart::ConstituencyDivisor(d) => push_divisor(text, sheet.constituency_divisor(d)),
        SheetPart::ConstituencyName(d) => push(text, sheet.constituency_name(d)),
        SheetPart::TakesPart(g) => push(text, yes_or_no(&sheet.takes_part(g))),
        SheetPart::GroupVoters(g) => push_numeral_or_dash(text, sheet.voters(g)),
        SheetPart::GroupSeats(g) => push_numeral(text, u64::from(sheet.group_seats(g))),
        SheetPart::GroupDivisor(g) => push_divisor_or_dash(text, sheet.group_divisor(g)),
        SheetPart::GroupName(g) => push(text, sheet.group_name(g)),
        SheetPart::ListVotes(d, g) => push_numeral(text, sheet.totals().votes(d, g)),
        SheetPart::ListVoters(d, g) => push_numeral_or_dash(text, sheet.list_voters(d, g)),
        SheetPart::ListSeats(d, g) => push_numeral(text, u64::from(sheet.list_seats(d, g))),
    }
}

/// Appends each part of a line and the byte after it: a space, or a line feed after the last part.
pub(crate) fn push_parts(text: &mut WriteBuffer, sheet: &Sheet<'_>, head: Head, parts: &[SheetPart])
    requires there { All (IsPartOf sheet.now.totals.canton) parts.now }
    requires few { length parts.now ≤ MOST_PARTS }
    requires room { length text.old.items + LINE ≤ ROOM }
    ensures text { text.new.items ≡ text.old.items ++ joined_parts (part_text sheet.now head) parts.now }
    ensures short { length text.new.items ≤ length text.old.items + LINE }
{
    for place in 0..parts.len() {
        push_part(text, sheet, head, parts[place]);
        push_bytes(text, mark_after(place + 1 == parts.len()));
    }
}
