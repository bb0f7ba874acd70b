//! Reports of a text that is not a set-up, or not an export: a line with the name of the fault, and then one with its
//! place if that is known.
ghost use Rattle.std.specs.List.{list_all};
ghost use Rattle.std.specs.Prelude.{◌≡◌, ◌≤◌, ◌++◌, IfOk, length, ◌+◌, [], ◌∷◌};
ghost use Rattle.zh_text.specs.Each.{each_to};
ghost use Rattle.zh_verdicts.specs.Reports.{rows_report, setup_place, setup_report, is_bare, safe_byte, shown_key};

use arrayvec::ArrayVec;
use std::alloc::{AllocError, Global};
use zh_csv::HeldFault;
use zh_setups::{FaultPlace, Key, SetupRefusal};
use zh_text::{ShownNames, push, push_bytes, push_numeral, shown_at};

/// The report for the fault of a set-up text.
pub fn setup_report(alloc: Global, refusal: &SetupRefusal) -> Result<Vec<u8>, AllocError>
    ensures { IfOk result (λ text. text.items ≡ setup_report refusal.now) }
{
    let mut text = Vec::new(alloc);
    text.extend_from_slice(refusal.fault.name().as_bytes())?;
    text.extend_from_slice(b"\n")?;
    if let Some(place) = &refusal.place {
        text.extend_from_slice(shown_place(place).as_slice())?;
        text.extend_from_slice(b"\n")?;
    }
    Ok(text)
}

/// The report for a wrong record of an export.
pub fn rows_report(alloc: Global, fault: HeldFault) -> Result<Vec<u8>, AllocError>
    ensures { IfOk result (λ text. text.items ≡ rows_report fault) }
{
    let mut text = Vec::new(alloc);
    text.extend_from_slice(fault.name().as_bytes())?;
    text.extend_from_slice(b"\n")?;
    Ok(text)
}

/// A key in a report: at most 40 bytes, and quotes.
type ShownKey = ArrayVec<u8, 42>;

/// Appends the first `count` bytes of a text, with `?` for each control character and byte order mark.
pub fn push_shown<const N: usize>(shown: &mut ArrayVec<u8, N>, text: &[u8], count: usize)
    requires within { count ≤ length text.now }
    requires room { length shown.old.items + count ≤ N }
    ensures shown { shown.new.items ≡ shown.old.items ++ each_to count (safe_byte text.now) }
    ensures short { length shown.new.items ≤ length shown.old.items + count }
{
    for place in 0..count {
        let _fits = shown.try_extend_from_slice(shown_at(ShownNames::None, text, place));
    }
}

/// Whether a byte is a letter, a digit, `_` or `-`.
fn is_bare(byte: u8) -> bool
    ensures { result ≡ is_bare byte }
{
    byte.is_ascii_alphanumeric() || byte == b'_' || byte == b'-'
}

fn are_bare(name: &[u8]) -> bool
    ensures { result ≡ list_all is_bare name.now }
{
    for byte in name {
        if !is_bare(*byte) {
            return false;
        }
    }
    true
}

/// A name in quotes, as reports show it.
fn quoted(name: &[u8]) -> ShownKey
    requires { length name.now ≤ 40 }
    ensures shown { result.items ≡ 34 ∷ each_to (length name.now) (safe_byte name.now) ++ 34 ∷ [] }
    ensures short { length result.items ≤ 42 }
{
    let mut shown = ShownKey::new();
    shown.push(b'"');
    push_shown(&mut shown, name, name.len());
    shown.push(b'"');
    shown
}

/// A key as reports show it: in quotes if it is empty or contains any byte other than letters, digits, `_` and `-`.
fn shown_key(key: &Key) -> ShownKey
    ensures shown { result.items ≡ shown_key key.now }
    ensures short { length result.items ≤ 42 }
{
    let name = key.as_bytes();
    if !name.is_empty() && are_bare(name) {
        let mut shown = ShownKey::new();
        let _fits = shown.try_extend_from_slice(name);
        return shown;
    }
    quoted(name)
}

/// A place in a report.
pub type ShownPlace = ArrayVec<u8, 80>;

/// A place in the text of a set-up as reports show it: a position, or a key at the top or in a table.
pub fn shown_place(place: &FaultPlace) -> ShownPlace
    ensures place { result.items ≡ setup_place place.now }
    ensures short { length result.items ≤ 80 }
{
    let mut shown = ShownPlace::new();
    match place {
        FaultPlace::At(position) => {
            push(&mut shown, "line ");
            push_numeral(&mut shown, position.line as u64);
            push(&mut shown, ", column ");
            push_numeral(&mut shown, position.column as u64);
        }
        FaultPlace::Top(key) => push_bytes(&mut shown, shown_key(key).as_slice()),
        FaultPlace::Table { kind, number, key } => {
            push(&mut shown, kind.as_str());
            push(&mut shown, " ");
            push_numeral(&mut shown, *number as u64);
            push(&mut shown, ", ");
            push_bytes(&mut shown, shown_key(key).as_slice());
        }
    }
    shown
}
