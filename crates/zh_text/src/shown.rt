//! Text made safe to show on one line, with nothing that a terminal might act on.

ghost use Rattle.std.specs.Prelude.{◌≡◌, ◌+◌, ◌≤◌, ◌<◌, ◌++◌, OnOk, get_or, length};
ghost use Rattle.zh_text.specs.Shown.{byte_shown, mark_shown, return_shown, shown_at, shown_text};
ghost use Rattle.zh_text.specs.declared.shown.ShownNames.TheVariants as names;

use crate::signs::{Sign, sign_at};
use std::alloc::AllocError;

/// Whether a byte order mark and a CR are shown by name. Without a name they become question marks, as all other control
/// characters do.
#[derive(Clone, Copy)]
pub enum ShownNames {
    /// Neither.
    None,
    /// Only a byte order mark, as `<BOM>`.
    Mark,
    /// A byte order mark as `<BOM>` and a CR as `<CR>`, because a copied text can have a CR at the end of each line.
    MarkAndReturn,
}

impl ShownNames {
    /// How a byte order mark is shown.
    fn mark(self) -> &'static [u8]
        ensures shown { result.now ≡ mark_shown self }
        ensures short { length result.now ≤ 5 }
        ensures nameless { self ≡ names.None → length result.now ≤ 1 }
    {
        match self {
            ShownNames::None => b"?",
            ShownNames::Mark | ShownNames::MarkAndReturn => b"<BOM>",
        }
    }

    /// How a CR is shown.
    fn carriage_return(self) -> &'static [u8]
        ensures shown { result.now ≡ return_shown self }
        ensures short { length result.now ≤ 4 }
        ensures nameless { self ≡ names.None → length result.now ≤ 1 }
    {
        match self {
            ShownNames::None | ShownNames::Mark => b"?",
            ShownNames::MarkAndReturn => b"<CR>",
        }
    }
}

/// How a single byte is shown that is not part of a byte order mark or of a two-byte control character.
fn byte_shown(named: ShownNames, byte: &[u8]) -> &[u8]
    requires { length byte.now ≡ 1 }
    ensures shown { result.now ≡ byte_shown named (get_or byte.now 0 0) }
    ensures short { length result.now ≤ 4 }
    ensures nameless { named ≡ names.None → length result.now ≤ 1 }
{
    match byte[0] {
        b'\r' => named.carriage_return(),
        0..=31 | 127 => b"?",
        _ => byte,
    }
}

/// How the byte at this place of a text is shown. A byte order mark or a two-byte control character is shown at its first byte,
/// and its later bytes give nothing.
pub fn shown_at(named: ShownNames, text: &[u8], place: usize) -> &[u8]
    requires { place < length text.now }
    ensures shown { result.now ≡ shown_at named text.now (place + 1) }
    ensures short { length result.now ≤ 5 }
    ensures nameless { named ≡ names.None → length result.now ≤ 1 }
{
    match sign_at(text, place) {
        Sign::Mark => named.mark(),
        Sign::Control => b"?",
        Sign::Further => b"",
        Sign::Byte => byte_shown(named, &text[place..place + 1]),
    }
}

/// Appends a text as it is shown, byte by byte (`shown_at`).
pub fn push_shown(text: &mut Vec<u8>, named: ShownNames, shown: &[u8]) -> Result<(), AllocError>
    ensures { OnOk result (text.new.items ≡ text.old.items ++ shown_text named shown.now) }
{
    for place in 0..shown.len() {
        text.extend_from_slice(shown_at(named, shown, place))?;
    }
    Ok(())
}
