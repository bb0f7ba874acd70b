//! Repeated names and numbers in a document.

ghost use Rattle.std.specs.Prelude.{◌≡◌, map, IfOk};
ghost use Rattle.std.specs.List.{list_any};
ghost use Rattle.toml.specs.View.{view, table_view};
ghost use Rattle.zh_setups.specs.Document.{name_in, stands_in, same_name, same_number, repeats, has_double};

use crate::table::{tables_at, value_of, values};
use std::alloc::{AllocError, Global};
use std::collections::BTreeSet;
use toml::{Table, Value};

pub(crate) fn name_in(value: &Value) -> &str
    ensures { result.now ≡ name_in (view value.now) }
{
    match value_of(value, "name") {
        Some(name) => match name.as_str() {
            Some(text) => text,
            None => "",
        },
        None => "",
    }
}

/// Whether two of the tables have the same name.
fn repeats_name(alloc: Global, values: &[Value]) -> Result<bool, AllocError>
    ensures { IfOk result (λ repeated. repeated ≡ repeats same_name (map view values.now)) }
{
    let mut names = BTreeSet::new(alloc);
    for value in values {
        if !names.insert(name_in(value))? {
            return Ok(true);
        }
    }
    Ok(false)
}

fn same_number(a: &Value, b: &Value) -> bool
    ensures { result ≡ same_number (view a.now) (view b.now) }
{
    match (a.as_integer(), b.as_integer()) {
        (Some(m), Some(n)) => m == n,
        _ => false,
    }
}

fn is_numbered_among(value: &Value, others: &[Value]) -> bool
    ensures { result ≡ list_any (same_number (view value.now)) (map view others.now) }
{
    for other in others {
        if same_number(value, other) {
            return true;
        }
    }
    false
}

pub(crate) fn repeats_number(values: &[Value]) -> bool
    ensures { result ≡ repeats same_number (map view values.now) }
{
    for (place, value) in values.iter().enumerate() {
        if is_numbered_among(value, &values[place + 1..]) {
            return true;
        }
    }
    false
}

pub(crate) fn stands_in(group: &Value) -> &[Value]
    ensures { map view result.now ≡ stands_in (view group.now) }
{
    match value_of(group, "stands") {
        Some(stands) => match values(stands) {
            Some(values) => values,
            None => &[],
        },
        None => &[],
    }
}

/// Whether one of the groups names a constituency twice.
fn stands_twice(groups: &[Value]) -> bool
    ensures { result ≡ list_any (λ g. repeats same_number (stands_in g)) (map view groups.now) }
{
    for group in groups {
        if repeats_number(stands_in(group)) {
            return true;
        }
    }
    false
}

/// Whether two constituencies, two municipalities or two groups share a name, or a group names a constituency twice.
pub(crate) fn has_double(alloc: Global, document: &Table) -> Result<bool, AllocError>
    ensures { IfOk result (λ double. double ≡ has_double (table_view document.now)) }
{
    if repeats_name(alloc, tables_at(document, "constituency"))? {
        return Ok(true);
    }
    if repeats_name(alloc, tables_at(document, "municipality"))? {
        return Ok(true);
    }
    if repeats_name(alloc, tables_at(document, "group"))? {
        return Ok(true);
    }
    Ok(stands_twice(tables_at(document, "group")))
}
