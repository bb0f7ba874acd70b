//! The checks of a set-up text, key by key. The first one that fails gives the place of a fault.

ghost use Rattle.std.specs.Prelude.{◌≡◌, map, is_some, option_copied, codes};
ghost use Rattle.toml.specs.Data.{get, get_member};
ghost use Rattle.toml.specs.View.{view, table_view};
ghost use Rattle.zh_setups.specs.Document.{quorum_of};
ghost use Rattle.zh_setups.specs.Places.{are_within, double_checks, first_failing, missing_check, number_at_top};
ghost use Rattle.zh_setups.specs.Places.{other_key, range_check, stands_within, table_checks, top_checks};

use crate::doubles::{repeats_number, stands_in};
use crate::keys::{
    first_other, first_other_of, known_keys, knows_document_keys, knows_keys_of, own_keys,
};
use crate::place::{Key, Kind, OtherKey};
use crate::table::{name, number, number_at, value_at, value_of, values, values_at};
use crate::text::SetupFault;
use toml::{Table, Value};

/// The first key whose check fails.
fn first_failing(checks: &[(Key, bool)]) -> Option<Key>
    ensures { result ≡ first_failing checks.now }
{
    for check in checks {
        if !check.1 {
            return Some(check.0);
        }
    }
    None
}

fn at_top(document: &Table, key: &str) -> bool
    ensures { result ≡ is_some (get_member key.now (table_view document.now)) }
{
    value_at(document, key).is_some()
}

fn number_at_top(document: &Table, key: &str, low: u32, high: u32) -> bool
    ensures { result ≡ number_at_top key.now low high (table_view document.now) }
{
    match value_at(document, key) {
        Some(value) => number(value, low, high).is_some(),
        None => false,
    }
}

/// Whether the canton-wide quorum is absent or within its limits.
fn quorum_passes(document: &Table) -> bool
    ensures { result ≡ is_some (quorum_of (get_member (codes "canton_quorum") (table_view document.now))) }
{
    match value_at(document, "canton_quorum") {
        Some(value) => number(value, 1, 49).is_some(),
        None => true,
    }
}

fn in_table(value: &Value, key: &str) -> bool
    ensures { result ≡ is_some (get key.now (view value.now)) }
{
    value_of(value, key).is_some()
}

fn are_within(values: &[Value], constituencies: u32) -> bool
    ensures { result ≡ are_within constituencies (map view values.now) }
{
    for value in values {
        if number(value, 1, constituencies).is_none() {
            return false;
        }
    }
    true
}

/// Whether a group's `stands` is a non-empty array of numbers of constituencies.
fn stands_within(group: &Value, constituencies: u32) -> bool
    ensures { result ≡ stands_within constituencies (view group.now) }
{
    let Some(stands) = value_of(group, "stands") else {
        return false;
    };
    match values(stands) {
        Some(values) => are_within(values, constituencies),
        None => false,
    }
}

/// An unknown key as a refusal names it. If there is none, the name is empty.
fn other_key(found: Option<&str>) -> Key
    ensures { result ≡ other_key (option_copied found.entry) }
{
    match found {
        Some(key) => Key::Other(OtherKey::new(key)),
        None => Key::Other(OtherKey::new("")),
    }
}

/// The first unknown key at the top, if there is one.
fn other_key_at_top(document: &Table) -> Option<Key>
    ensures { result ≡ first_failing (top_checks SetupFault.Unknown (table_view document.now)) }
{
    let other = first_other(document, known_keys(document));
    first_failing(&[(other_key(other), knows_document_keys(document))])
}

/// The first key at the top with this fault, if there is one.
pub(crate) fn top_key(document: &Table, fault: SetupFault) -> Option<Key>
    ensures { result ≡ first_failing (top_checks fault (table_view document.now)) }
{
    match fault {
        SetupFault::Missing => first_failing(&[
            (Key::Version, at_top(document, "version")),
            (Key::House, at_top(document, "house")),
            (Key::Constituency, at_top(document, "constituency")),
            (Key::Municipality, at_top(document, "municipality")),
            (Key::Group, at_top(document, "group")),
        ]),
        SetupFault::Range => first_failing(&[
            (Key::Version, number_at_top(document, "version", 1, 2)),
            (Key::House, number_at_top(document, "house", 1, 400)),
            (
                Key::Constituency,
                values_at(document, "constituency", 32).is_some(),
            ),
            (
                Key::Municipality,
                values_at(document, "municipality", 512).is_some(),
            ),
            (Key::Group, values_at(document, "group", 32).is_some()),
            (Key::CantonQuorum, quorum_passes(document)),
        ]),
        SetupFault::Unknown => other_key_at_top(document),
        _ => None,
    }
}

/// The first unknown key in a table, if there is one.
fn other_key_in(value: &Value, kind: Kind) -> Option<Key>
    ensures { result ≡ first_failing (table_checks SetupFault.Unknown kind 0 (view value.now)) }
{
    let keys = own_keys(kind);
    let other = first_other_of(value, keys);
    first_failing(&[(other_key(other), knows_keys_of(value, keys))])
}

/// The key that a table has besides `name`, and whether it is there.
fn missing_check(value: &Value, kind: Kind) -> (Key, bool)
    ensures { result ≡ missing_check kind (view value.now) }
{
    match kind {
        Kind::Constituency => (Key::Persons, in_table(value, "persons")),
        Kind::Municipality => (Key::Constituency, in_table(value, "constituency")),
        Kind::Group => (Key::Stands, in_table(value, "stands")),
    }
}

/// The first missing key of a table, if there is one.
fn missing_key(value: &Value, kind: Kind) -> Option<Key>
    ensures { result ≡ first_failing (table_checks SetupFault.Missing kind 0 (view value.now)) }
{
    let named = (Key::Name, in_table(value, "name"));
    first_failing(&[named, missing_check(value, kind)])
}

/// The key that a table has besides `name`, and whether its value is within its limits.
fn range_check(value: &Value, kind: Kind, constituencies: u32) -> (Key, bool)
    ensures { result ≡ range_check kind constituencies (view value.now) }
{
    match kind {
        Kind::Constituency => (
            Key::Persons,
            number_at(value, "persons", 1, 10_000_000).is_some(),
        ),
        Kind::Municipality => (
            Key::Constituency,
            number_at(value, "constituency", 1, constituencies).is_some(),
        ),
        Kind::Group => (Key::Stands, stands_within(value, constituencies)),
    }
}

/// The first key of a table whose value is out of range, if there is one.
fn key_out_of_range(value: &Value, kind: Kind, constituencies: u32) -> Option<Key>
    ensures { result ≡ first_failing (table_checks SetupFault.Range kind constituencies (view value.now)) }
{
    let named = (Key::Name, name(value).is_some());
    first_failing(&[named, range_check(value, kind, constituencies)])
}

/// The key `stands`, if the table is a group that names a constituency twice.
fn key_of_double(value: &Value, kind: Kind) -> Option<Key>
    ensures { result ≡ first_failing (double_checks kind (view value.now)) }
{
    match kind {
        Kind::Group if repeats_number(stands_in(value)) => Some(Key::Stands),
        _ => None,
    }
}

/// The first key of a table with this fault, if there is one. A name that an earlier table has is not looked for.
pub(crate) fn table_key(
    value: &Value,
    fault: SetupFault,
    kind: Kind,
    constituencies: u32,
) -> Option<Key>
    ensures { result ≡ first_failing (table_checks fault kind constituencies (view value.now)) }
{
    match fault {
        SetupFault::Missing => missing_key(value, kind),
        SetupFault::Range => key_out_of_range(value, kind, constituencies),
        SetupFault::Unknown => other_key_in(value, kind),
        SetupFault::Double => key_of_double(value, kind),
        _ => None,
    }
}
