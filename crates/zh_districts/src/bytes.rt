//! The bytes of the parts of a set-up.

ghost use Rattle.std.specs.Prelude.{◌≡◌, ◌≤◌, ◌<◌, ◌^◌, ◌++◌, ◌∷◌, length, map, IfSome, OnOk, All, string_bytes};
ghost use Rattle.std.specs.Int.{w16, to_be_bytes};
ghost use Rattle.std.specs.List.{flat_map};
ghost use Rattle.zh_districts.specs.Parts.{constituency, municipality, group};
ghost use Rattle.zh_districts.specs.Spelling.{name_spelling, mask_of, constituency_spelling};
ghost use Rattle.zh_districts.specs.Spelling.{municipality_spelling, group_spelling, quorum_spelling};

use crate::setup::{Constituency, Group, Municipality};
use std::alloc::AllocError;

fn put_name(out: &mut Vec<u8>, name: &str) -> Result<(), AllocError>
    requires { length name.now ≤ 40 }
    ensures { OnOk result (out.new.items ≡ out.old.items ++ name_spelling name.now) }
{
    out.push(name.len() as u8)?;
    out.extend_from_slice(name.as_bytes())?;
    Ok(())
}

fn put_constituency(out: &mut Vec<u8>, part: &Constituency) -> Result<(), AllocError>
    requires { length (string_bytes part.now.name) ≤ 40 }
    ensures { OnOk result (out.new.items ≡ out.old.items ++ constituency_spelling (constituency part.now)) }
{
    out.extend_from_slice(&part.persons.to_be_bytes())?;
    put_name(out, part.name.as_str())
}

fn put_municipality(out: &mut Vec<u8>, part: &Municipality) -> Result<(), AllocError>
    requires name { length (string_bytes part.now.name) ≤ 40 }
    requires number { part.now.constituency < 256 }
    ensures { OnOk result (out.new.items ≡ out.old.items ++ municipality_spelling (municipality part.now)) }
{
    out.push(part.constituency as u8)?;
    put_name(out, part.name.as_str())
}

/// The number whose bit `d - 1` is set if the group stands in constituency `d`.
fn mask(stands: &[bool]) -> u32
    requires { length stands.now ≤ 32 }
    ensures { result ≡ mask_of stands.now }
{
    let mut mask = 0;
    for (place, here) in stands.iter().enumerate() {
        if *here {
            mask += 1 << place;
        }
    }
    mask
}

fn put_group(out: &mut Vec<u8>, part: &Group) -> Result<(), AllocError>
    requires name { length (string_bytes part.now.name) ≤ 40 }
    requires stands { length part.now.stands.items ≤ 32 }
    ensures { OnOk result (out.new.items ≡ out.old.items ++ group_spelling (group part.now)) }
{
    out.extend_from_slice(&mask(&part.stands).to_be_bytes())?;
    put_name(out, part.name.as_str())
}

/// Appends the number of constituencies, in one byte, and then each of them.
pub(crate) fn put_constituencies(
    out: &mut Vec<u8>,
    parts: &[Constituency],
) -> Result<(), AllocError>
    requires count { length parts.now < 256 }
    requires names { All (λ x. length x.name ≤ 40) (map constituency parts.now) }
    ensures { OnOk result (out.new.items
        ≡ out.old.items ++ (length parts.now ∷ flat_map constituency_spelling (map constituency parts.now))) }
{
    out.push(parts.len() as u8)?;
    for part in parts {
        put_constituency(out, part)?;
    }
    Ok(())
}

/// Appends the number of municipalities, in two bytes, and then each of them.
pub(crate) fn put_municipalities(
    out: &mut Vec<u8>,
    parts: &[Municipality],
) -> Result<(), AllocError>
    requires count { length parts.now < 2 ^ 16 }
    requires names { All (λ x. length x.name ≤ 40) (map municipality parts.now) }
    requires numbers { All (λ x. x.constituency < 256) (map municipality parts.now) }
    ensures { OnOk result (out.new.items
        ≡ out.old.items ++ (to_be_bytes w16 (length parts.now) ++ flat_map municipality_spelling (map municipality parts.now))) }
{
    out.extend_from_slice(&(parts.len() as u16).to_be_bytes())?;
    for part in parts {
        put_municipality(out, part)?;
    }
    Ok(())
}

/// Appends the number of groups, in one byte, and then each of them.
pub(crate) fn put_groups(out: &mut Vec<u8>, parts: &[Group]) -> Result<(), AllocError>
    requires count { length parts.now < 256 }
    requires names { All (λ x. length x.name ≤ 40) (map group parts.now) }
    requires stands { All (λ x. length x.stands ≤ 32) (map group parts.now) }
    ensures { OnOk result (out.new.items ≡ out.old.items ++ (length parts.now ∷ flat_map group_spelling (map group parts.now))) }
{
    out.push(parts.len() as u8)?;
    for part in parts {
        put_group(out, part)?;
    }
    Ok(())
}

/// Appends the canton-wide quorum, in two bytes, if there is one.
pub(crate) fn put_quorum(out: &mut Vec<u8>, quorum: Option<u32>) -> Result<(), AllocError>
    requires { IfSome quorum (λ q. q < 2 ^ 16) }
    ensures { OnOk result (out.new.items ≡ out.old.items ++ quorum_spelling quorum) }
{
    if let Some(per_mille) = quorum {
        out.extend_from_slice(&(per_mille as u16).to_be_bytes())?;
    }
    Ok(())
}
