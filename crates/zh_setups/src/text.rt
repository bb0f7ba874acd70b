//! Reading a set-up text.
ghost use Rattle.std.specs.Prelude.{◌≡◌, ◌≢◌, ◌≤◌, Ok, Err, IfOk, IfErr, IsSome, length, ◌<◌, ◌+◌, ◌^◌};
ghost use Rattle.toml.specs.Errors.{IsWithin};
ghost use Rattle.toml.specs.View.{table_view};
ghost use Rattle.zh_districts.specs.Canton.{IsCanton};
ghost use Rattle.zh_setups.specs.Document.{checked};
ghost use Rattle.zh_setups.specs.Places.{fault_place};
ghost use Rattle.zh_setups.specs.Positions.{moved, position_after};
ghost use Rattle.zh_setups.specs.Refusals.{IsPlaced, IsRefusedBy};
ghost use Rattle.zh_setups.specs.SetupText.{reading_of, Describes, SetupOf};
ghost use Rattle.zh_setups.specs.declared.text.SetupFault.TheVariants.{Memory};

use crate::document::read_document;
use crate::place::{FaultPlace, fault_place};
use std::alloc::{AllocError, AllocFailed, Global};
use toml::Table;
use toml::de::Error;
use zh_districts::Setup;

const LONGEST: usize = 1_048_576;

/// The set-up of a document, or its first fault with the place of that fault.
fn read_placed(alloc: Global, document: &Table) -> Result<Setup, SetupRefusal>
    ensures set_up { IfOk result (λ setup. checked (table_view document.now) ≡ Ok setup) }
    ensures table { IfOk result (SetupOf (table_view document.now)) }
    ensures limits { IfOk result IsCanton }
    ensures fault { IfErr result (λ refusal. refusal.fault ≢ SetupFault.Memory → checked (table_view document.now) ≡ Err refusal.fault) }
    ensures place { IfErr result (λ refusal. refusal.place ≡ fault_place refusal.fault (table_view document.now)) }
    ensures placed { IfErr result (λ refusal. refusal.fault ≢ SetupFault.Memory → IsSome refusal.place) }
{
    match read_document(alloc, document) {
        Ok(setup) => Ok(setup),
        Err(fault) => Err(SetupRefusal {
            fault,
            place: fault_place(document, fault),
        }),
    }
}

/// The refusal of a text that the crate `toml` can't read. Its place is where the error begins, unless memory was
/// refused.
fn refusal_of(error: &Error, text: &[u8]) -> SetupRefusal
    requires { IsWithin text.now error.now }
    ensures { IsRefusedBy error.now text.now result }
{
    match error.span() {
        Some(span) => SetupRefusal {
            fault: SetupFault::Text,
            place: Some(FaultPlace::At(position_after(&text[..span.start]))),
        },
        None => SetupRefusal {
            fault: SetupFault::Memory,
            place: None,
        },
    }
}

/// Reads a set-up from a text in TOML. docs/FORMATS.md describes the format: the keys `version` (1 or 2), `house`,
/// `constituency`, `municipality` and `group`, and in version 2 optionally `canton_quorum`.
///
/// The checks run in the order of the variants of `SetupFault`, each over the whole document. A refusal names the first
/// fault and its place; `Memory` and a text that is too long have no place. `Memory` can come at any time.
pub fn read_setup(alloc: Global, text: &[u8]) -> Result<Setup, SetupRefusal>
    ensures set_up { IfOk result (λ setup. reading_of text.now ≡ Ok setup) }
    ensures table { IfOk result (Describes text.now) }
    ensures limits { IfOk result IsCanton }
    ensures fault { IfErr result (λ refusal. refusal.fault ≢ SetupFault.Memory → reading_of text.now ≡ Err refusal.fault) }
    ensures place { IfErr result (IsPlaced text.now) }
    ensures placed { IfErr result (λ refusal. refusal.fault ≢ SetupFault.Memory → length text.now ≤ 1048576 → IsSome refusal.place) }
{
    if LONGEST < text.len() {
        return Err(SetupRefusal {
            fault: SetupFault::Text,
            place: None,
        });
    }
    match toml::table_from_slice(alloc, text) {
        Ok(document) => read_placed(alloc, &document),
        Err(error) => Err(refusal_of(&error, text)),
    }
}

/// The fault of a set-up text. The checks run in this order, each over the whole document; the first that fails
/// decides.
#[derive(Clone, Copy)]
pub enum SetupFault {
    /// An allocation was refused. This can happen at any time.
    Memory,
    /// The text is longer than 1,048,576 bytes, or is not TOML in UTF-8.
    Text,
    /// A required key is missing, at the top or in a table.
    Missing,
    /// There is an unknown key, at the top or in a table.
    Unknown,
    /// A value has the wrong type or is outside its limits, a name breaks its rule, or a constituency does not exist.
    Range,
    /// Two constituencies, two municipalities or two groups share a name, or a group names a constituency twice.
    Double,
}

impl SetupFault {
    ghost use Rattle.zh_setups.specs.Names.{setup_name};

    /// The name of the fault in reports: at most 13 bytes.
    pub fn name(self) -> &'static str
        ensures name { result.now ≡ setup_name self }
        ensures short { length result.now ≤ 13 }
    {
        match self {
            SetupFault::Memory => "memory",
            SetupFault::Text => "setup text",
            SetupFault::Missing => "setup missing",
            SetupFault::Unknown => "setup unknown",
            SetupFault::Range => "setup range",
            SetupFault::Double => "setup double",
        }
    }
}

/// The fault of a set-up text, and its place in the text if that is known.
#[derive(Clone, Copy)]
pub struct SetupRefusal {
    pub fault: SetupFault,
    pub place: Option<FaultPlace>,
}

impl From<AllocError> for SetupFault {
    ghost from_gives = { λ _ e. e ≡ Memory };

    fn from(_e: AllocError) -> SetupFault {
        SetupFault::Memory
    }
}

impl<T: Drop> From<AllocFailed<T>> for SetupFault {
    ghost from_gives = { λ _ e. e ≡ Memory };

    fn from(_e: AllocFailed<T>) -> SetupFault {
        SetupFault::Memory
    }
}

/// A position in a text: line and column, both from 1. Columns count characters, not bytes.
#[derive(Clone, Copy)]
pub struct Position {
    pub line: usize,
    pub column: usize,
}

/// The position after one more byte. A UTF-8 continuation byte (128 to 191) does not move it.
fn moved(at: Position, byte: u8) -> Position
    requires line { at.line + 1 < 2 ^ 64 }
    requires column { at.column + 1 < 2 ^ 64 }
    ensures { result ≡ moved at byte }
{
    match byte {
        b'\n' => Position {
            line: at.line + 1,
            column: 1,
        },
        128..=191 => at,
        _ => Position {
            line: at.line,
            column: at.column + 1,
        },
    }
}

/// The position after `bytes`, read from line 1, column 1.
pub(crate) fn position_after(bytes: &[u8]) -> Position
    ensures { result ≡ position_after bytes.now }
{
    let mut at = Position { line: 1, column: 1 };
    for byte in bytes {
        at = moved(at, *byte);
    }
    at
}
