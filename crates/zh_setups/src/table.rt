//! Values in a TOML document: numbers, names and arrays.

ghost use Rattle.std.specs.Prelude.{◌≡◌, map, option_map, option_copied, option_and_then, codes};
ghost use Rattle.std.specs.List.{list_all};
ghost use Rattle.toml.specs.Data.{get, get_member};
ghost use Rattle.toml.specs.View.{view, table_view};
ghost use Rattle.zh_districts.specs.Canton.{is_printable, is_plain, is_name};
ghost use Rattle.zh_setups.specs.Keys.{is_table, tables_of, tables_at};
ghost use Rattle.zh_setups.specs.Document.{number_within, name_of, values_of, values_at};

use toml::{Table, Value};

fn are_printable(name: &[u8]) -> bool
    ensures { result ≡ list_all is_printable name.now }
{
    name.iter().all(|byte| 32 <= *byte && *byte != 127)
}

/// Whether these are 1 to 40 bytes, without control characters (0 to 31, and 127) and without a space at either end.
fn is_plain(name: &[u8]) -> bool
    ensures { result ≡ is_plain name.now }
{
    if name.is_empty() || 40 < name.len() {
        return false;
    }
    if name[0] == b' ' || name[name.len() - 1] == b' ' {
        return false;
    }
    are_printable(name)
}

fn is_name(text: &str) -> bool
    ensures { result ≡ is_name text.now }
{
    is_plain(text.as_bytes())
}

/// The value as a whole number, if it is one from `low` to `high`.
pub(crate) fn number(value: &Value, low: u32, high: u32) -> Option<u32>
    ensures { result ≡ number_within low high (view value.now) }
{
    match value.as_integer() {
        Some(number) if i64::from(low) <= number && number <= i64::from(high) => {
            Some(number as u32)
        }
        _ => None,
    }
}

/// The number from `low` to `high` at a key of a table, if there is one.
pub(crate) fn number_at(value: &Value, key: &str, low: u32, high: u32) -> Option<u32>
    ensures { result ≡ option_and_then (number_within low high) (get key.now (view value.now)) }
{
    match value.get(key) {
        Some(found) => number(found, low, high),
        None => None,
    }
}

/// The name of a table: the text at its key `name`, if it is one by the rule of names.
pub(crate) fn name(value: &Value) -> Option<&str>
    ensures { option_copied result ≡ option_and_then name_of (get (codes "name") (view value.now)) }
{
    match value.get("name") {
        Some(Value::String(text)) if is_name(text.as_str()) => Some(text.as_str()),
        _ => None,
    }
}

/// The value at a key of a table. A value of another type has no keys.
pub(crate) fn value_of<'a>(value: &'a Value, key: &str) -> Option<&'a Value>
    ensures { option_map (λ v. view v.now) result ≡ get key.now (view value.now) }
{
    value.get(key)
}

/// The value at a key of the document.
pub(crate) fn value_at<'a>(document: &'a Table, key: &str) -> Option<&'a Value>
    ensures { option_map (λ v. view v.now) result ≡ get_member key.now (table_view document.now) }
{
    document.get(key)
}

/// The values of a non-empty array. An empty array, or a value of another type, gives `None`.
pub(crate) fn values(value: &Value) -> Option<&[Value]>
    ensures { option_map (λ v. map view v.now) result ≡ values_of (view value.now) }
{
    let values = value.as_array()?;
    if values.is_empty() {
        None
    } else {
        Some(values)
    }
}

/// The values of the array at a key of the document, if there are 1 to `most` of them.
pub(crate) fn values_at<'a>(document: &'a Table, key: &str, most: usize) -> Option<&'a [Value]>
    ensures { option_map (λ v. map view v.now) result ≡ values_at key.now most (table_view document.now) }
{
    let values = values(value_at(document, key)?)?;
    if values.len() <= most {
        Some(values)
    } else {
        None
    }
}

fn are_tables(values: &[Value]) -> bool
    ensures { result ≡ list_all is_table (map view values.now) }
{
    for value in values {
        if !value.is_table() {
            return false;
        }
    }
    true
}

/// The tables in an array of tables. For any other value the slice is empty, for example for an array with one value that is
/// not a table.
fn tables(value: &Value) -> &[Value]
    ensures { map view result.now ≡ tables_of (view value.now) }
{
    match value.as_array() {
        Some(values) => { if are_tables(values) { values } else { &[] } }
        None => &[],
    }
}

/// The tables in the array of tables at a key of the document. If there is no such array, the slice is empty.
pub(crate) fn tables_at<'a>(document: &'a Table, key: &str) -> &'a [Value]
    ensures { map view result.now ≡ tables_at key.now (table_view document.now) }
{
    match value_at(document, key) {
        Some(value) => tables(value),
        None => &[],
    }
}
