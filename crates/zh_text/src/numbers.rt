//! Writing and reading numbers in decimal.
ghost use Rattle.std.specs.Int.{IsInRange};
ghost use Rattle.std.specs.Prelude.{◌≡◌, ◌<◌, ◌≤◌, ◌^◌, ◌++◌, OnOk, length, ◌≢◌, ◌↔◌, ℕ, slice_index, decimal, IsTrue, MatchOption};
ghost use Rattle.zh_text.specs.Numbers.{millionths_text, padded};

use crate::fixed_text::{push, push_bytes};
use arrayvec::ArrayVec;
use itoa::{Buffer, Integer};
use std::alloc::AllocError;
use std::str;

/// Appends a number in decimal to a text.
pub fn push_number<I: Integer>(text: &mut Vec<u8>, number: I) -> Result<(), AllocError>
    ensures { OnOk result (text.new.items ≡ text.old.items ++ I.text number) }
{
    text.extend_from_slice(Buffer::new().format(number).as_bytes())
}

/// The text of a number with at most six digits.
pub type Padded = ArrayVec<u8, 6>;

/// A number in decimal with this many digits, padded with leading zeros.
pub fn padded(number: u32, digits: usize) -> Padded
    requires some { 1 ≤ digits }
    requires few { digits ≤ 6 }
    requires small { number < 10 ^ digits }
    ensures text { result.items ≡ padded digits number }
    ensures long { length result.items ≡ digits }
{
    let zeros = [b'0'; 6];
    let mut buffer = Buffer::new();
    let written = buffer.format(number);
    let mut text = Padded::new();
    push_bytes(&mut text, &zeros[..digits - written.len()]);
    push(&mut text, written);
    text
}

/// The text of a number with six decimal places.
pub type DecimalText = ArrayVec<u8, 47>;

/// A number given in millionths, in decimal with six decimal places.
pub fn millionths_text(millionths: u128) -> DecimalText
    ensures { result.items ≡ millionths_text millionths }
{
    let mut text = DecimalText::new();
    push(&mut text, Buffer::new().format(millionths / 1_000_000));
    push(&mut text, ".");
    push_bytes(&mut text, &padded((millionths % 1_000_000) as u32, 6));
    text
}

/// Whether the word has at most one byte or begins with 1 to 9. On its own, `parse` also accepts a sign and leading zeros.
fn is_plain(word: &[u8]) -> bool
    ensures { IsTrue result ↔ (1 < length word.now → IsInRange 49 57 (slice_index word.now 0)) }
{
    word.len() <= 1 || matches!(word[0], b'1'..=b'9')
}

/// The 32-bit number that a word spells in decimal, without a sign or leading zeros. `None` if it spells no such number.
pub fn numeral(word: &[u8]) -> Option<u32>
    ensures { MatchOption result ((n : ℕ) → n < 2 ^ 32 → word.now ≢ decimal n)
        (λ n. (n < 2 ^ 32) × (word.now ≡ decimal n)) }
{
    if !is_plain(word) {
        return None;
    }
    let Ok(text) = str::from_utf8(word) else {
        return None;
    };
    text.parse().ok()
}
