//! An entry: where it came from, and its bytes.
ghost use Rattle.std.specs.Prelude.{◌≡◌, length, IfSome};
ghost use Rattle.zh_returns.specs.Decoding.{Decodes};
ghost use Rattle.zh_returns.specs.EntryBytes.{entry_spelling, fields_of, fields_spelling};
ghost use Rattle.zh_returns.specs.Limits.{IsEntryOf};
ghost use Rattle.zh_returns.specs.Origin.{no_desk, origin_of, origin_spelling, IsOriginOf};
ghost use Rattle.zh_returns.specs.Spelling.{last_desk};

use crate::command::{Command, Format, LAST_DESK};
use crate::count::MOST_VOTES;
use crate::payload::is_zero;
use byteorder::{BigEndian, ByteOrder};

/// What the count holds under a key: its origin, a replacement number from 1 on, and the votes, or None if the list was
/// withdrawn.
#[derive(Clone, Copy)]
pub struct Entry {
    pub origin: Origin,
    pub number: u32,
    pub votes: Option<u32>,
}

/// Where an entry came from: the desk that set it. Desks have the numbers 1 to 8. Desk 0 is `load`, or the entry comes from
/// format One, which has no desks.
#[derive(Clone, Copy, PartialEq, Eq)]
pub struct Origin {
    pub desk: u8,
}

/// The length of an origin, in bytes.
pub(crate) const ORIGIN_LENGTH: usize = 3;

impl Origin {
    /// Desk 0: no desk, or a desk that is not known.
    pub(crate) fn no_desk() -> Origin
        ensures { result ≡ no_desk }
    {
        Origin { desk: 0 }
    }

    /// The origin of the entries that a command puts into the count. A closing and a reopening put none; for them it is desk 0.
    pub(crate) fn of(command: &Command<'_>) -> Origin
        ensures { result ≡ origin_of command.now }
    {
        match command {
            Command::Return { desk, .. } => Origin { desk: *desk },
            Command::Withdraw { desk, .. } => Origin { desk: *desk },
            Command::Close { .. } => Origin::no_desk(),
            Command::Reopen { .. } => Origin::no_desk(),
            Command::Batch { desk, .. } => Origin { desk: *desk },
        }
    }

    pub(crate) fn write(self, out: &mut [u8])
        requires { length out.old ≡ ORIGIN_LENGTH }
        ensures { out.new ≡ origin_spelling self }
    {
        out.copy_from_slice(&[self.desk, 0, 0]);
    }

    /// The origin that these bytes spell in a format, if they spell one.
    pub(crate) fn read(format: Format, bytes: &[u8]) -> Option<Origin>
        requires { length bytes.now ≡ ORIGIN_LENGTH }
        ensures { Decodes (IsOriginOf format) origin_spelling bytes.now result }
    {
        let desk = bytes[0];
        if desk > last_desk(format) || !is_zero(&bytes[1..]) {
            return None;
        }
        Some(Origin { desk })
    }
}

/// The greatest desk number in a format: 0 in format One, which has no desks.
fn last_desk(format: Format) -> u8
    ensures { result ≡ last_desk format }
{
    match format {
        Format::One => 0,
        Format::Two => LAST_DESK,
    }
}

/// The length of an entry, in bytes.
pub(crate) const ENTRY_LENGTH: usize = 16;

/// The state if nothing is held.
const ABSENT: u8 = 0;

/// The state if votes are held.
const RETURNED: u8 = 1;

/// The state if the list was withdrawn.
const WITHDRAWN: u8 = 2;

/// The fields in the bytes of an entry.
#[derive(Clone, Copy, PartialEq, Eq)]
struct EntryFields {
    state: u8,
    origin: Origin,
    number: u32,
    votes: u32,
}

#[tactic(auto, unfolding(crate::specs::EntryBytes::entry_spelling))]
pub(crate) fn write_entry(held: Option<Entry>, out: &mut [u8])
    requires { length out.old ≡ ENTRY_LENGTH }
    ensures { out.new ≡ entry_spelling held }
{
    write_fields(fields_of(held), out);
}

/// What these bytes spell in a format: `Some(None)` if nothing is held, or an entry within its limits. `None` if they spell
/// neither.
#[tactic(auto, unfolding(crate::specs::EntryBytes::entry_spelling))]
pub(crate) fn read_entry(format: Format, bytes: &[u8]) -> Option<Option<Entry>>
    requires { length bytes.now ≡ ENTRY_LENGTH }
    ensures { Decodes (λ held. IfSome held (IsEntryOf format)) entry_spelling bytes.now result }
{
    let fields = read_fields(format, bytes)?;
    let EntryFields {
        state,
        origin,
        number,
        votes,
    } = fields;
    match state {
        ABSENT if fields == fields_of(None) => Some(None),
        RETURNED if number > 0 && votes <= MOST_VOTES => Some(Some(Entry {
            origin,
            number,
            votes: Some(votes),
        })),
        WITHDRAWN if number > 0 && votes == 0 => Some(Some(Entry {
            origin,
            number,
            votes: None,
        })),
        _ => None,
    }
}

/// The fields for an entry, or for nothing held.
fn fields_of(held: Option<Entry>) -> EntryFields
    ensures { result ≡ fields_of held }
{
    match held {
        None => EntryFields {
            state: ABSENT,
            origin: Origin::no_desk(),
            number: 0,
            votes: 0,
        },
        Some(entry) => EntryFields {
            state: if entry.votes.is_some() {
                RETURNED
            } else {
                WITHDRAWN
            },
            origin: entry.origin,
            number: entry.number,
            votes: entry.votes.unwrap_or(0),
        },
    }
}

fn write_fields(fields: EntryFields, out: &mut [u8])
    requires { length out.old ≡ ENTRY_LENGTH }
    ensures { out.new ≡ fields_spelling fields }
{
    out.fill(0);
    out[0] = fields.state;
    fields.origin.write(&mut out[1..1 + ORIGIN_LENGTH]);
    BigEndian::write_u32(&mut out[4..8], fields.number);
    BigEndian::write_u32(&mut out[8..12], fields.votes);
}

/// The fields that these bytes spell in a format, if they spell any.
fn read_fields(format: Format, bytes: &[u8]) -> Option<EntryFields>
    requires { length bytes.now ≡ ENTRY_LENGTH }
    ensures { Decodes (λ fields. IsOriginOf format fields.origin) fields_spelling bytes.now result }
{
    if !is_zero(&bytes[12..16]) {
        return None;
    }
    Some(EntryFields {
        state: bytes[0],
        origin: Origin::read(format, &bytes[1..1 + ORIGIN_LENGTH])?,
        number: BigEndian::read_u32(&bytes[4..8]),
        votes: BigEndian::read_u32(&bytes[8..12]),
    })
}
