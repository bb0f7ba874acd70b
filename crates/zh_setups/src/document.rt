//! The set-up of a document, or its first fault.
ghost use Rattle.std.specs.List.{list_any};
ghost use Rattle.std.specs.Prelude.{option_and_then, codes, ◌≡◌, ◌==◌, map, IfOk};
ghost use Rattle.toml.specs.Data.{get_member};
ghost use Rattle.toml.specs.View.{table_view, view};
ghost use Rattle.zh_districts.specs.Parts.{draft, constituency, municipality, group};
ghost use Rattle.zh_setups.specs.Document.{number_within, quorum_of, setup_of, has_double, undoubled, checked, each, values_at, stands_of};
ghost use Rattle.zh_setups.specs.Document.{constituency_from, municipality_from, group_from};
ghost use Rattle.zh_setups.specs.Outcomes.{Gives, GivesInRange};

use crate::doubles::has_double;
use crate::keys::{has_other_key, misses_key};
use crate::table::{name, number, number_at, value_at, value_of, values, values_at};
use crate::text::SetupFault;
use std::alloc::{AllocError, Global};
use toml::{Table, Value};
use zh_districts::{Constituency, Draft, Group, Municipality, Setup};

fn number_in_range(document: &Table, key: &str, low: u32, high: u32) -> Result<u32, SetupFault>
    ensures { GivesInRange (λ n. n) result (option_and_then (number_within low high) (get_member key.now (table_view document.now))) }
{
    let value = value_at(document, key).ok_or(SetupFault::Range)?;
    number(value, low, high).ok_or(SetupFault::Range)
}

/// The document's canton-wide quorum in per mille, 1 to 49, or `None` if it has none. Another value is `Range`.
fn read_quorum(document: &Table) -> Result<Option<u32>, SetupFault>
    ensures { GivesInRange (λ q. q) result (quorum_of (get_member (codes "canton_quorum") (table_view document.now))) }
{
    match value_at(document, "canton_quorum") {
        Some(value) => {
            let per_mille = number(value, 1, 49).ok_or(SetupFault::Range)?;
            Ok(Some(per_mille))
        }
        None => Ok(None),
    }
}

/// The parts of a set-up, if every value has the right type and is within its limits; otherwise `Range`.
fn read_draft(alloc: Global, document: &Table) -> Result<Draft, SetupFault>
    ensures { GivesInRange draft result (setup_of (table_view document.now)) }
{
    let _version = number_in_range(document, "version", 1, 2)?;
    let house = number_in_range(document, "house", 1, 400)?;
    let constituencies = read_constituencies(alloc, document)?;
    let count = constituencies.len() as u32;
    let municipalities = read_municipalities(alloc, document, count)?;
    let groups = read_groups(alloc, document, count)?;
    let canton_quorum = read_quorum(document)?;
    Ok(Draft {
        house,
        constituencies,
        municipalities,
        groups,
        canton_quorum,
    })
}

/// The set-up of a document whose keys have been checked, or the first fault of the other checks.
fn read_undoubled(alloc: Global, document: &Table) -> Result<Setup, SetupFault>
    ensures { Gives (λ setup. setup) result (undoubled (has_double (table_view document.now)) (setup_of (table_view document.now))) }
{
    let draft = read_draft(alloc, document)?;
    if has_double(alloc, document)? {
        return Err(SetupFault::Double);
    }
    Ok(Setup::assembled(draft))
}

/// The set-up of a document, or its first fault. Each check covers the whole document before the next one begins.
pub(crate) fn read_document(alloc: Global, document: &Table) -> Result<Setup, SetupFault>
    ensures { Gives (λ setup. setup) result (checked (table_view document.now)) }
{
    if misses_key(document) {
        return Err(SetupFault::Missing);
    }
    if has_other_key(document) {
        return Err(SetupFault::Unknown);
    }
    read_undoubled(alloc, document)
}

/// A part of a set-up that is read from one table of the document.
trait Part: Sized {
    ghost use Rattle.std.specs.Prelude.{ℕ, Option};
    ghost use Rattle.toml.specs.Data.{Data};

    /// What clauses know of a part.
    ghost Meaning: { Type 0 };

    ghost meaning: { Self → Meaning };

    /// The part that a table describes, given the number of constituencies. `None` if a value has the wrong type or is
    /// out of its range.
    ghost said: { ℕ → Data → Option Meaning };

    /// Reads a part from a table, given the number of constituencies.
    fn read(alloc: Global, value: &Value, constituencies: u32) -> Result<Self, SetupFault>
        ensures { GivesInRange meaning result (said constituencies (view value.now)) };
}

fn read_numbers(
    alloc: Global,
    values: &[Value],
    constituencies: u32,
) -> Result<Vec<u32>, SetupFault>
    ensures { GivesInRange (λ v. v.items) result (each (number_within 1 constituencies) (map view values.now)) }
{
    let mut numbers = Vec::new(alloc);
    for value in values {
        let number = number(value, 1, constituencies).ok_or(SetupFault::Range)?;
        numbers.push(number)?;
    }
    Ok(numbers)
}

fn is_among(number: u32, numbers: &[u32]) -> bool
    ensures { result ≡ list_any (λ n. n == number) numbers.now }
{
    numbers.contains(&number)
}

/// For each constituency, whether its number is in `numbers`.
fn stands_among(
    alloc: Global,
    constituencies: u32,
    numbers: &[u32],
) -> Result<Vec<bool>, AllocError>
    ensures { IfOk result (λ v. v.items ≡ stands_of constituencies numbers.now) }
{
    let mut stands = Vec::new(alloc);
    for before in 0..constituencies {
        stands.push(is_among(before + 1, numbers))?;
    }
    Ok(stands)
}

impl Part for Constituency {
    ghost use Rattle.zh_districts.specs.Canton.{Constituency};
    ghost use Rattle.zh_districts.specs.Parts.{constituency};
    ghost use Rattle.zh_setups.specs.Document.{constituency_from};

    ghost Meaning = { Constituency };

    ghost meaning = { constituency };

    ghost said = { λ _. constituency_from };

    fn read(alloc: Global, value: &Value, _constituencies: u32) -> Result<Self, SetupFault> {
        let name = name(value).ok_or(SetupFault::Range)?;
        let persons = number_at(value, "persons", 1, 10_000_000).ok_or(SetupFault::Range)?;
        Ok(Constituency {
            name: String::from_str(alloc, name)?,
            persons,
        })
    }
}

impl Part for Municipality {
    ghost use Rattle.zh_districts.specs.Canton.{Municipality};
    ghost use Rattle.zh_districts.specs.Parts.{municipality};
    ghost use Rattle.zh_setups.specs.Document.{municipality_from};

    ghost Meaning = { Municipality };

    ghost meaning = { municipality };

    ghost said = { municipality_from };

    fn read(alloc: Global, value: &Value, constituencies: u32) -> Result<Self, SetupFault> {
        let name = name(value).ok_or(SetupFault::Range)?;
        let constituency = number_at(value, "constituency", 1, constituencies).ok_or(
            SetupFault::Range,
        )?;
        Ok(Municipality {
            name: String::from_str(alloc, name)?,
            constituency,
        })
    }
}

impl Part for Group {
    ghost use Rattle.zh_districts.specs.Canton.{Group};
    ghost use Rattle.zh_districts.specs.Parts.{group};
    ghost use Rattle.zh_setups.specs.Document.{group_from};

    ghost Meaning = { Group };

    ghost meaning = { group };

    ghost said = { group_from };

    fn read(alloc: Global, value: &Value, constituencies: u32) -> Result<Self, SetupFault> {
        let name = name(value).ok_or(SetupFault::Range)?;
        let stands = value_of(value, "stands").ok_or(SetupFault::Range)?;
        let values = values(stands).ok_or(SetupFault::Range)?;
        let numbers = read_numbers(alloc, values, constituencies)?;
        Ok(Group {
            name: String::from_str(alloc, name)?,
            stands: stands_among(alloc, constituencies, &numbers)?,
        })
    }
}

/// Reads each value as a part, in order.
fn read_each<P: Part + Drop>(
    alloc: Global,
    values: &[Value],
    constituencies: u32,
) -> Result<Vec<P>, SetupFault>
    ensures { GivesInRange (λ v. map P.meaning v.items) result (each (P.said constituencies) (map view values.now)) }
{
    let mut parts = Vec::new(alloc);
    for value in values {
        let part = P::read(alloc, value, constituencies)?;
        parts.push(part)?;
    }
    Ok(parts)
}

/// The constituencies of a document: 1 to 32.
pub(crate) fn read_constituencies(
    alloc: Global,
    document: &Table,
) -> Result<Vec<Constituency>, SetupFault>
    ensures { GivesInRange (λ v. map constituency v.items) result
        (option_and_then (each constituency_from) (values_at (codes "constituency") 32 (table_view document.now))) }
{
    let values = values_at(document, "constituency", 32).ok_or(SetupFault::Range)?;
    read_each(alloc, values, 0)
}

/// The municipalities of a document: 1 to 512.
pub(crate) fn read_municipalities(
    alloc: Global,
    document: &Table,
    constituencies: u32,
) -> Result<Vec<Municipality>, SetupFault>
    ensures { GivesInRange (λ v. map municipality v.items) result
        (option_and_then (each (municipality_from constituencies)) (values_at (codes "municipality") 512 (table_view document.now))) }
{
    let values = values_at(document, "municipality", 512).ok_or(SetupFault::Range)?;
    read_each(alloc, values, constituencies)
}

/// The groups of a document: 1 to 32.
pub(crate) fn read_groups(
    alloc: Global,
    document: &Table,
    constituencies: u32,
) -> Result<Vec<Group>, SetupFault>
    ensures { GivesInRange (λ v. map group v.items) result
        (option_and_then (each (group_from constituencies)) (values_at (codes "group") 32 (table_view document.now))) }
{
    let values = values_at(document, "group", 32).ok_or(SetupFault::Range)?;
    read_each(alloc, values, constituencies)
}
