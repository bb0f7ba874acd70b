//! The kinds of bytes in a text that is to be shown.

ghost use Rattle.std.specs.Prelude.{◌≡◌, ◌<◌, length};
ghost use Rattle.zh_text.specs.Signs.{begins_control, begins_mark, follows_control, follows_mark, is_further, sign_at};

/// What a byte of a text is part of.
#[derive(Clone, Copy)]
pub(crate) enum Sign {
    /// The first byte of a byte order mark.
    Mark,
    /// The first byte of a two-byte control character, U+0080 to U+009F.
    Control,
    /// A later byte of either.
    Further,
    /// Any other byte.
    Byte,
}

/// Whether a text begins with a byte order mark.
fn begins_mark(text: &[u8]) -> bool
    ensures { result ≡ begins_mark text.now }
{
    text.starts_with(&[0xEF, 0xBB, 0xBF])
}

/// Whether a text begins with a two-byte control character.
fn begins_control(text: &[u8]) -> bool
    ensures { result ≡ begins_control text.now }
{
    text.len() >= 2 && text[0] == 0xC2 && text[1] >= 0x80 && text[1] < 0xA0
}

/// Whether a byte order mark begins this many bytes before this place.
fn follows_mark(text: &[u8], place: usize, back: usize) -> bool
    requires { place < length text.now }
    ensures { result ≡ follows_mark text.now place back }
{
    place >= back && begins_mark(&text[place - back..])
}

/// Whether a two-byte control character begins one byte before this place.
fn follows_control(text: &[u8], place: usize) -> bool
    requires { place < length text.now }
    ensures { result ≡ follows_control text.now place }
{
    place >= 1 && begins_control(&text[place - 1..])
}

/// Whether the byte at this place belongs to a byte order mark or a two-byte control character and is not its first byte.
fn is_further(text: &[u8], place: usize) -> bool
    requires { place < length text.now }
    ensures { result ≡ is_further text.now place }
{
    follows_mark(text, place, 1) || follows_mark(text, place, 2) || follows_control(text, place)
}

/// The kind of the byte at this place.
pub(crate) fn sign_at(text: &[u8], place: usize) -> Sign
    requires { place < length text.now }
    ensures { result ≡ sign_at text.now place }
{
    if begins_mark(&text[place..]) {
        Sign::Mark
    } else if begins_control(&text[place..]) {
        Sign::Control
    } else if is_further(text, place) {
        Sign::Further
    } else {
        Sign::Byte
    }
}
