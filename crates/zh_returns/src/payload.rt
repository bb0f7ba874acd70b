//! The bytes of a count, part by part.
ghost use Rattle.std.specs.List.{flat_map, list_all};
ghost use Rattle.std.specs.Prelude.{◌≡◌, ◌≢◌, ◌+◌, ◌∷◌, ◌++◌, ◌≤◌, ◌<◌, length, drop, slice_get, Some, IfSome, IfNone, ◌*◌, Option};
ghost use Rattle.std.specs.Prelude.{List, false, true, ℕ, ◌/◌, ◌%◌, not, take, get_or, slice_index, ◌==◌};
ghost use Rattle.zh_districts.specs.Canton.{Canton};
ghost use Rattle.zh_districts.specs.Spelling.{mask_of};
ghost use Rattle.zh_returns.specs.Decoding.{Decodes};
ghost use Rattle.zh_returns.specs.EntryBytes.{entry_spelling};
ghost use Rattle.zh_returns.specs.Limits.{IsTally};
ghost use Rattle.zh_returns.specs.Payload.{IsPayload, format_byte, payload_spelling, zeros};
ghost use Rattle.zh_returns.specs.Tables.{tally_from, IsHeldAt, IsTable, key_of, bit_of};
ghost use Rattle.zh_returns.specs.Tally.{Tally};
ghost use Rattle.zh_returns.specs.declared.command.Format.{Format};
ghost use Rattle.zh_returns.specs.declared.entry.Entry.{Entry};

use crate::command::Format;
use crate::count::{MUNICIPALITIES, PLACES, misplaced_at};
use crate::entry::{ENTRY_LENGTH, Entry, read_entry, write_entry};
use byteorder::{BigEndian, ByteOrder};
use zh_districts::Setup;

/// The length of the number of accepted commands, in bytes.
const ACCEPTED_LENGTH: usize = 8;

/// The length of the flags of closed municipalities, in bytes.
const CLOSED_LENGTH: usize = MUNICIPALITIES / 8;

/// The length of the format, in bytes. The first byte is the format; the others are not in use.
const FORMAT_LENGTH: usize = 175;

/// The place of the format in the bytes of a count.
const FORMAT: usize = ACCEPTED_LENGTH + CLOSED_LENGTH;

/// The byte of format One.
const FORMAT_ONE: u8 = 0;

/// The byte of format Two.
const FORMAT_TWO: u8 = 2;

/// The length of the table of entries, in bytes.
const ENTRIES_LENGTH: usize = PLACES * ENTRY_LENGTH;

/// The length of a count, in bytes.
pub const PAYLOAD_LENGTH: usize = 262_391;

const _: () = prove!(
    PAYLOAD_LENGTH == ACCEPTED_LENGTH + CLOSED_LENGTH + FORMAT_LENGTH + ENTRIES_LENGTH
);

/// Writes the byte of format Two and the zeros after it.
fn write_format(out: &mut [u8])
    requires { length out.old ≡ FORMAT_LENGTH }
    ensures { out.new ≡ format_byte Format.Two ∷ zeros 174 }
{
    write_zeros(out);
    out[0] = FORMAT_TWO;
}

/// The format that a byte means, if it means one.
fn format_of(byte: u8) -> Option<Format>
    ensures read { IfSome result (λ format. format_byte format ≡ byte) }
    ensures refused { IfNone result ((format : Format) → format_byte format ≢ byte) }
{
    match byte {
        FORMAT_ONE => Some(Format::One),
        FORMAT_TWO => Some(Format::Two),
        _ => None,
    }
}

/// The format that these bytes spell, if they spell one.
fn read_format(bytes: &[u8]) -> Option<Format>
    requires { length bytes.now ≡ FORMAT_LENGTH }
    ensures read { IfSome result (λ format. (format_byte format ∷ zeros 174) ≡ bytes.now) }
    ensures refused { IfNone result ((format : Format) → (format_byte format ∷ zeros 174) ≢ bytes.now) }
{
    if !is_zero(&bytes[1..]) {
        return None;
    }
    format_of(bytes[0])
}

/// The format of a count's bytes, as byte 72 says it, if it says one. Whether the bytes are those of a count is not checked. It
/// allocates no memory.
pub fn payload_format(bytes: &[u8]) -> Option<Format>
    ensures read { IfSome result (λ format. slice_get bytes.now 72 ≡ Some (format_byte format)) }
    ensures refused { IfNone result ((format : Format) → slice_get bytes.now 72 ≢ Some (format_byte format)) }
{
    format_of(*bytes.get(FORMAT)?)
}

/// Writes the count in these tables to the front of `out`, in format Two.
pub(crate) fn write_tables(
    entries: &[Option<Entry>],
    closed: &[bool],
    accepted: u64,
    out: &mut [u8],
)
    requires entries { length entries.now ≡ PLACES }
    requires closed { length closed.now ≡ MUNICIPALITIES }
    requires room { PAYLOAD_LENGTH ≤ length out.old }
    ensures { (canton : Canton) → out.new
        ≡ payload_spelling Format.Two (tally_from canton entries.now closed.now accepted) ++ drop PAYLOAD_LENGTH out.old }
{
    let (first, rest) = out.split_at_mut(ACCEPTED_LENGTH);
    let (flags, rest) = rest.split_at_mut(CLOSED_LENGTH);
    let (format, rest) = rest.split_at_mut(FORMAT_LENGTH);
    let (table, _) = rest.split_at_mut(ENTRIES_LENGTH);
    BigEndian::write_u64(first, accepted);
    write_flags(closed, flags);
    write_format(format);
    write_entries(entries, table);
}

/// Fills the tables with the count for this set-up that has these bytes in one of the formats. Returns the number of accepted
/// commands. If no count has these bytes, returns None; the contents of the tables are then unspecified.
pub(crate) fn read_tables(
    setup: &Setup,
    bytes: &[u8],
    entries: &mut [Option<Entry>],
    closed: &mut [bool],
) -> Option<u64>
    requires entries { length entries.old ≡ PLACES }
    requires closed { length closed.old ≡ MUNICIPALITIES }
    ensures entries_length { length entries.new ≡ length entries.old }
    ensures closed_length { length closed.new ≡ length closed.old }
    ensures limits { IfSome result (λ accepted. IsTally (tally_from setup.now entries.new closed.new accepted)) }
    ensures read { IfSome result (λ accepted. (format : Format)
        × IsPayload format (tally_from setup.now entries.new closed.new accepted) bytes.now) }
    ensures refused { IfNone result ((format : Format) (tally : Tally) → tally.canton ≡ setup.now → IsTally tally
        → IsPayload format tally bytes.now → ⊥) }
{
    if bytes.len() != PAYLOAD_LENGTH {
        return None;
    }
    let (first, rest) = bytes.split_at(ACCEPTED_LENGTH);
    let (flags, rest) = rest.split_at(CLOSED_LENGTH);
    let (format, table) = rest.split_at(FORMAT_LENGTH);
    let Some(format) = read_format(format) else {
        return None;
    };
    read_flags(flags, closed);
    let municipalities = setup.municipalities() as usize;
    if !none_set(&closed[municipalities..]) || !read_entries(setup, format, table, entries) {
        return None;
    }
    Some(BigEndian::read_u64(first))
}

pub(crate) fn write_entries(table: &[Option<Entry>], out: &mut [u8])
    requires { length out.old ≡ ENTRY_LENGTH * length table.now }
    ensures { out.new ≡ flat_map entry_spelling table.now }
{
    for (place, held) in table.iter().enumerate() {
        let at = ENTRY_LENGTH * place;
        write_entry(*held, &mut out[at..at + ENTRY_LENGTH]);
    }
}

/// Fills a table from its bytes in a format. False if they are not those of a table for the set-up.
pub(crate) fn read_entries(
    setup: &Setup,
    format: Format,
    bytes: &[u8],
    table: &mut [Option<Entry>],
) -> bool
    requires length { length bytes.now ≡ ENTRY_LENGTH * length table.old }
    requires places { length table.old ≤ PLACES }
    ensures length { length table.new ≡ length table.old }
    ensures read { result ≡ true → (flat_map entry_spelling table.new ≡ bytes.now) × IsTable format setup.now table.new }
    ensures refused { result ≡ false → (other : List (Option Entry)) → length other ≡ length table.old
        → IsTable format setup.now other → flat_map entry_spelling other ≡ bytes.now → ⊥ }
{
    for place in 0..table.len() {
        let at = ENTRY_LENGTH * place;
        match read_held(setup, format, place, &bytes[at..at + ENTRY_LENGTH]) {
            Some(held) => table[place] = held,
            None => return false,
        }
    }
    true
}

/// What these bytes spell in a format: `Some(None)` if nothing is held, or an entry that can be held at this place. `None` if
/// they spell neither.
fn read_held(setup: &Setup, format: Format, place: usize, bytes: &[u8]) -> Option<Option<Entry>>
    requires length { length bytes.now ≡ ENTRY_LENGTH }
    requires place { place < PLACES }
    ensures { Decodes (λ held. IfSome held (IsHeldAt format setup.now (key_of place))) entry_spelling bytes.now result }
{
    let held = read_entry(format, bytes)?;
    if held.is_some() && misplaced_at(setup, place).is_some() {
        return None;
    }
    Some(held)
}

fn byte_of(flags: &[bool]) -> u8
    requires { length flags.now ≤ 8 }
    ensures { result ≡ mask_of flags.now }
{
    let mut byte = 0;
    for (place, flag) in flags.iter().enumerate() {
        if *flag {
            byte += 1 << place;
        }
    }
    byte
}

pub(crate) fn write_flags(flags: &[bool], out: &mut [u8])
    requires { length flags.now ≡ 8 * length out.old }
    ensures length { length out.new ≡ length out.old }
    ensures bytes { (byte : ℕ) → byte < length out.old → slice_index out.new byte ≡ mask_of (take 8 (drop (8 * byte) flags.now)) }
{
    for byte in 0..out.len() {
        out[byte] = byte_of(&flags[8 * byte..8 * byte + 8]);
    }
}

pub(crate) fn read_flags(bytes: &[u8], flags: &mut [bool])
    requires { length flags.old ≡ 8 * length bytes.now }
    ensures length { length flags.new ≡ length flags.old }
    ensures flags { (place : ℕ) → place < length flags.old
        → get_or flags.new place false ≡ bit_of (slice_index bytes.now (place / 8)) (place % 8) }
{
    for place in 0..flags.len() {
        flags[place] = (bytes[place / 8] >> (place % 8)) % 2 == 1;
    }
}

/// Whether no flag is set.
pub(crate) fn none_set(flags: &[bool]) -> bool
    ensures { result ≡ list_all not flags.now }
{
    flags.iter().all(|flag| !*flag)
}

pub(crate) fn write_zeros(out: &mut [u8])
    ensures { out.new ≡ zeros (length out.old) }
{
    out.fill(0);
}

/// Whether all bytes are 0.
pub(crate) fn is_zero(bytes: &[u8]) -> bool
    ensures { result ≡ list_all (λ byte. byte == 0) bytes.now }
{
    bytes.iter().all(|byte| *byte == 0)
}
