//! The place of a fault in a set-up text.
ghost use Rattle.std.specs.List.{list_any};
ghost use Rattle.std.specs.Prelude.{◌≡◌, ◌≤◌, length, take, [], map};
ghost use Rattle.toml.specs.View.{view, table_view};
ghost use Rattle.zh_setups.specs.Document.{same_name};
ghost use Rattle.zh_setups.specs.Names.{key_name, kind_name, cut_key};
ghost use Rattle.zh_setups.specs.Places.{constituencies_in, first_failing, first_namesake, first_of, first_table, looked_into, namesake_of};
ghost use Rattle.zh_setups.specs.Places.{fault_place, table_checks, values_under};

use crate::checks::{table_key, top_key};
use crate::doubles::name_in;
use crate::table::{tables_at, value_at, values};
use crate::text::{Position, SetupFault};
use std::fmt::InlineText;
use toml::{Table, Value};

/// The most bytes that are kept of an unknown key.
const LONGEST: usize = 40;

/// An unknown key. One of more than 40 bytes is cut at a character and ends with three dots, 40 bytes at most.
#[derive(Clone, Copy)]
pub struct OtherKey {
    bytes: [u8; LONGEST],
    length: usize,
}

impl OtherKey {
    pub(crate) fn new(key: &str) -> OtherKey
        ensures { result ≡ cut_key key.now }
    {
        let cut = InlineText::<LONGEST>::new().and_str(key, LONGEST);
        let kept = cut.as_str().as_bytes();
        let mut bytes = [0; LONGEST];
        bytes[..kept.len()].copy_from_slice(kept);
        OtherKey {
            bytes,
            length: kept.len(),
        }
    }

    fn as_bytes(&self) -> &[u8]
        ensures bytes { result.now ≡ take self.now.length self.now.bytes }
        ensures short { length result.now ≤ 40 }
    {
        &self.bytes[..self.length.min(LONGEST)]
    }
}

/// A key of a set-up text.
#[derive(Clone, Copy)]
pub enum Key {
    Version,
    House,
    CantonQuorum,
    Constituency,
    Municipality,
    Group,
    Name,
    Persons,
    Stands,
    /// An unknown key.
    Other(OtherKey),
}

impl Key {
    /// The key as a set-up text spells it. An unknown key can be cut. At most 40 bytes.
    pub fn as_bytes(&self) -> &[u8]
        ensures name { result.now ≡ key_name self.now }
        ensures short { length result.now ≤ 40 }
    {
        match self {
            Key::Version => b"version",
            Key::House => b"house",
            Key::CantonQuorum => b"canton_quorum",
            Key::Constituency => b"constituency",
            Key::Municipality => b"municipality",
            Key::Group => b"group",
            Key::Name => b"name",
            Key::Persons => b"persons",
            Key::Stands => b"stands",
            Key::Other(key) => key.as_bytes(),
        }
    }
}

/// The kinds of tables in a set-up text.
#[derive(Clone, Copy)]
pub enum Kind {
    Constituency,
    Municipality,
    Group,
}

impl Kind {
    /// The key of the array with these tables: at most 12 bytes.
    pub fn as_str(&self) -> &'static str
        ensures name { result.now ≡ kind_name self.now }
        ensures short { length result.now ≤ 12 }
    {
        match self {
            Kind::Constituency => "constituency",
            Kind::Municipality => "municipality",
            Kind::Group => "group",
        }
    }
}

/// The place of a fault in a set-up text: a position if the text is not TOML, otherwise a key.
#[derive(Clone, Copy)]
pub enum FaultPlace {
    At(Position),
    /// A key at the top of the document.
    Top(Key),
    /// A key in a table. The tables of each kind are numbered from 1.
    Table { kind: Kind, number: usize, key: Key },
}

/// The first table with this fault, and the key in it.
fn first_table(
    values: &[Value],
    fault: SetupFault,
    kind: Kind,
    constituencies: u32,
) -> Option<FaultPlace>
    ensures { result ≡ first_table (λ value. first_failing (table_checks fault kind constituencies value)) kind 1 (map view values.now) }
{
    for (place, value) in values.iter().enumerate() {
        if let Some(key) = table_key(value, fault, kind, constituencies) {
            return Some(FaultPlace::Table {
                kind,
                number: place + 1,
                key,
            });
        }
    }
    None
}

/// Whether `value` has the same name as one of `others`.
fn has_namesake(value: &Value, others: &[Value]) -> bool
    ensures { result ≡ list_any (same_name (view value.now)) (map view others.now) }
{
    for other in others {
        if name_in(value) == name_in(other) {
            return true;
        }
    }
    false
}

/// The first table that has the same name as an earlier one.
fn first_namesake(values: &[Value], kind: Kind) -> Option<FaultPlace>
    ensures { result ≡ first_namesake kind 1 [] (map view values.now) }
{
    for (place, value) in values.iter().enumerate() {
        if has_namesake(value, &values[..place]) {
            return Some(FaultPlace::Table {
                kind,
                number: place + 1,
                key: Key::Name,
            });
        }
    }
    None
}

/// The first table that has the same name as an earlier one, if the fault is `Double`.
fn namesake_of(values: &[Value], fault: SetupFault, kind: Kind) -> Option<FaultPlace>
    ensures { result ≡ namesake_of fault kind (map view values.now) }
{
    match fault {
        SetupFault::Double => first_namesake(values, kind),
        _ => None,
    }
}

/// The values of the array at a key of the document. If there is no array, the slice is empty.
fn values_under<'a>(document: &'a Table, key: &str) -> &'a [Value]
    ensures { map view result.now ≡ values_under key.now (table_view document.now) }
{
    match value_at(document, key) {
        Some(value) => match values(value) {
            Some(values) => values,
            None => &[],
        },
        None => &[],
    }
}

/// The number of values in the array of constituencies, or 32 if there are more.
fn constituencies_in(document: &Table) -> u32
    ensures { result ≡ constituencies_in (table_view document.now) }
{
    values_under(document, "constituency").len().min(32) as u32
}

/// The values to check for a fault. For `Range` they can have any type, for other faults only those of an array of
/// tables count.
fn looked_into<'a>(document: &'a Table, fault: SetupFault, key: &str) -> &'a [Value]
    ensures { map view result.now ≡ looked_into fault key.now (table_view document.now) }
{
    match fault {
        SetupFault::Range => values_under(document, key),
        _ => tables_at(document, key),
    }
}

/// The first of the values at a key that has this fault. For `Double`, a name that an earlier table has comes before a `stands`
/// that names a constituency twice.
fn first_of(document: &Table, fault: SetupFault, kind: Kind, key: &str) -> Option<FaultPlace>
    ensures { result ≡ first_of fault kind key.now (table_view document.now) }
{
    let values = looked_into(document, fault, key);
    let constituencies = constituencies_in(document);
    namesake_of(values, fault, kind).or(first_table(values, fault, kind, constituencies))
}

/// The place of this fault in a document. None if no key has it.
pub(crate) fn fault_place(document: &Table, fault: SetupFault) -> Option<FaultPlace>
    ensures { result ≡ fault_place fault (table_view document.now) }
{
    if let Some(key) = top_key(document, fault) {
        return Some(FaultPlace::Top(key));
    }
    first_of(document, fault, Kind::Constituency, "constituency")
        .or(first_of(document, fault, Kind::Municipality, "municipality"))
        .or(first_of(document, fault, Kind::Group, "group"))
}
