//! The keys of a document: missing and unknown ones.

ghost use Rattle.std.specs.Prelude.{◌≡◌, map, option_and_then, option_copied};
ghost use Rattle.std.specs.List.{list_all, list_any};
ghost use Rattle.std.specs.Str.{bytes_eq};
ghost use Rattle.toml.specs.Data.{as_table, table};
ghost use Rattle.toml.specs.View.{view, table_view};
ghost use Rattle.zh_setups.specs.Keys.{document_keys, first_other, has_keys, has_other_key, is_version_2, known_keys, knows_keys};
ghost use Rattle.zh_setups.specs.Keys.{knows_keys_of, misses_key, own_keys, tables_at};
ghost use Rattle.zh_setups.specs.Names.{kind_name};

use crate::place::Kind;
use crate::table::{tables_at, value_at, value_of};
use toml::{Table, Value};

/// The keys that are allowed at the top. The first is optional and needs version 2; the others are required.
const TOP_KEYS: [&str; 6] = [
    "canton_quorum",
    "version",
    "house",
    "constituency",
    "municipality",
    "group",
];

/// The keys that are required at the top.
fn document_keys() -> &'static [&'static str]
    ensures { map (λ k. k.now) result.now ≡ document_keys }
{
    &TOP_KEYS[1..]
}

/// The keys of a table of this kind, all of them required.
pub(crate) fn own_keys(kind: Kind) -> &'static [&'static str]
    ensures { map (λ k. k.now) result.now ≡ own_keys kind }
{
    match kind {
        Kind::Constituency => &["name", "persons"],
        Kind::Municipality => &["name", "constituency"],
        Kind::Group => &["name", "stands"],
    }
}

fn has_keys(value: &Value, keys: &[&str]) -> bool
    ensures { result ≡ has_keys (map (λ k. k.now) keys.now) (view value.now) }
{
    for key in keys {
        if value_of(value, key).is_none() {
            return false;
        }
    }
    true
}

fn each_has_keys(values: &[Value], keys: &[&str]) -> bool
    ensures { result ≡ list_all (has_keys (map (λ k. k.now) keys.now)) (map view values.now) }
{
    for value in values {
        if !has_keys(value, keys) {
            return false;
        }
    }
    true
}

fn tables_have_keys(document: &Table, kind: Kind) -> bool
    ensures { result ≡ list_all (has_keys (own_keys kind)) (tables_at (kind_name kind) (table_view document.now)) }
{
    each_has_keys(tables_at(document, kind.as_str()), own_keys(kind))
}

fn has_members(document: &Table, keys: &[&str]) -> bool
    ensures { result ≡ has_keys (map (λ k. k.now) keys.now) (table (table_view document.now)) }
{
    for key in keys {
        if value_at(document, key).is_none() {
            return false;
        }
    }
    true
}

/// Whether a required key is missing, at the top or in a table.
pub(crate) fn misses_key(document: &Table) -> bool
    ensures { result ≡ misses_key (table_view document.now) }
{
    !(has_members(document, document_keys())
        && tables_have_keys(document, Kind::Constituency)
        && tables_have_keys(document, Kind::Municipality)
        && tables_have_keys(document, Kind::Group))
}

fn is_among(key: &str, keys: &[&str]) -> bool
    ensures { result ≡ list_any (λ known. bytes_eq known key.now) (map (λ k. k.now) keys.now) }
{
    for known in keys {
        if *known == key {
            return true;
        }
    }
    false
}

fn knows_keys(table: &Table, keys: &[&str]) -> bool
    ensures { result ≡ knows_keys (map (λ k. k.now) keys.now) (table_view table.now) }
{
    for (key, _) in table {
        if !is_among(key.as_str(), keys) {
            return false;
        }
    }
    true
}

/// The first key of a table, in the table's order, that is not in `keys`.
pub(crate) fn first_other<'a>(table: &'a Table, keys: &[&str]) -> Option<&'a str>
    ensures { option_copied result ≡ first_other (map (λ k. k.now) keys.now) (table_view table.now) }
{
    for (name, _) in table {
        if !is_among(name.as_str(), keys) {
            return Some(name.as_str());
        }
    }
    None
}

/// Whether every key of a table is in `keys`. A value of another type has no keys.
pub(crate) fn knows_keys_of(value: &Value, keys: &[&str]) -> bool
    ensures { result ≡ knows_keys_of (map (λ k. k.now) keys.now) (view value.now) }
{
    match value.as_table() {
        Some(table) => knows_keys(table, keys),
        None => true,
    }
}

/// The first key of a table that is not in `keys`. A value of another type has no keys.
pub(crate) fn first_other_of<'a>(value: &'a Value, keys: &[&str]) -> Option<&'a str>
    ensures { option_copied result ≡ option_and_then (first_other (map (λ k. k.now) keys.now)) (as_table (view value.now)) }
{
    match value.as_table() {
        Some(table) => first_other(table, keys),
        None => None,
    }
}

fn each_knows_keys(values: &[Value], keys: &[&str]) -> bool
    ensures { result ≡ list_all (knows_keys_of (map (λ k. k.now) keys.now)) (map view values.now) }
{
    for value in values {
        if !knows_keys_of(value, keys) {
            return false;
        }
    }
    true
}

fn tables_know_keys(document: &Table, kind: Kind) -> bool
    ensures { result ≡ list_all (knows_keys_of (own_keys kind)) (tables_at (kind_name kind) (table_view document.now)) }
{
    each_knows_keys(tables_at(document, kind.as_str()), own_keys(kind))
}

/// Whether the version is the integer 2.
fn is_version_2(document: &Table) -> bool
    ensures { result ≡ is_version_2 (table_view document.now) }
{
    match value_at(document, "version") {
        Some(version) => version.as_integer() == Some(2),
        None => false,
    }
}

/// The keys that are allowed at the top in this document's version.
pub(crate) fn known_keys(document: &Table) -> &'static [&'static str]
    ensures { map (λ k. k.now) result.now ≡ known_keys (table_view document.now) }
{
    if is_version_2(document) {
        &TOP_KEYS
    } else {
        document_keys()
    }
}

/// Whether all keys at the top are allowed there.
pub(crate) fn knows_document_keys(document: &Table) -> bool
    ensures { result ≡ knows_keys (known_keys (table_view document.now)) (table_view document.now) }
{
    knows_keys(document, known_keys(document))
}

/// Whether there is an unknown key, at the top or in a table.
pub(crate) fn has_other_key(document: &Table) -> bool
    ensures { result ≡ has_other_key (table_view document.now) }
{
    !(knows_document_keys(document)
        && tables_know_keys(document, Kind::Constituency)
        && tables_know_keys(document, Kind::Municipality)
        && tables_know_keys(document, Kind::Group))
}
