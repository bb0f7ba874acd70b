//! Text put together in an array of fixed capacity, without allocation. Each function appends to what the array already contains.

ghost use Rattle.std.specs.Prelude.{◌≡◌, ◌+◌, ◌≤◌, ◌++◌, codes, length, decimal};
ghost use Rattle.zh_text.specs.Numbers.{millionths_text, or_dash};

use crate::numbers::millionths_text;
use arrayvec::ArrayVec;
use itoa::Buffer;

/// Appends bytes.
pub fn push_bytes<const N: usize>(text: &mut ArrayVec<u8, N>, bytes: &[u8])
    requires { length text.old.items + length bytes.now ≤ N }
    ensures { text.new.items ≡ text.old.items ++ bytes.now }
{
    let _fits = text.try_extend_from_slice(bytes);
}

/// Appends a string.
pub fn push<const N: usize>(text: &mut ArrayVec<u8, N>, words: &str)
    requires { length text.old.items + length words.now ≤ N }
    ensures { text.new.items ≡ text.old.items ++ words.now }
{
    push_bytes(text, words.as_bytes());
}

/// Appends a number in decimal, which has at most 20 digits.
pub fn push_numeral<const N: usize>(text: &mut ArrayVec<u8, N>, number: u64)
    requires { length text.old.items + 20 ≤ N }
    ensures text { text.new.items ≡ text.old.items ++ decimal number }
    ensures short { length text.new.items ≤ length text.old.items + 20 }
{
    push(text, Buffer::new().format(number));
}

/// Appends a string and then a 32-bit number in decimal, which has at most 10 digits.
pub fn push_numbered<const N: usize>(text: &mut ArrayVec<u8, N>, words: &str, number: u32)
    requires { length text.old.items + length words.now + 20 ≤ N }
    ensures text { text.new.items ≡ text.old.items ++ words.now ++ decimal number }
    ensures short { length text.new.items ≤ length text.old.items + length words.now + 10 }
{
    push(text, words);
    push_numeral(text, u64::from(number));
}

/// Appends a number in decimal, or a dash if there is no number.
pub fn push_numeral_or_dash<const N: usize>(text: &mut ArrayVec<u8, N>, number: Option<u64>)
    requires { length text.old.items + 20 ≤ N }
    ensures text { text.new.items ≡ text.old.items ++ or_dash decimal number }
    ensures short { length text.new.items ≤ length text.old.items + 20 }
{
    match number {
        Some(number) => push_numeral(text, number),
        None => push(text, "-"),
    }
}

/// Appends a fraction as numerator, slash and denominator: at most 41 bytes.
pub fn push_fraction<const N: usize>(text: &mut ArrayVec<u8, N>, num: u64, den: u32)
    requires { length text.old.items + 41 ≤ N }
    ensures text { text.new.items ≡ text.old.items ++ (decimal num ++ (codes "/" ++ decimal den)) }
    ensures short { length text.new.items ≤ length text.old.items + 41 }
{
    push_numeral(text, num);
    push_numbered(text, "/", den);
}

/// Appends a divisor, given in millionths, with six decimal places: at most 27 bytes.
pub fn push_divisor<const N: usize>(text: &mut ArrayVec<u8, N>, millionths: u64)
    requires { length text.old.items + 27 ≤ N }
    ensures text { text.new.items ≡ text.old.items ++ millionths_text millionths }
    ensures short { length text.new.items ≤ length text.old.items + 27 }
{
    push_bytes(text, &millionths_text(u128::from(millionths)));
}

/// Appends a divisor, given in millionths, or a dash if there is none.
pub fn push_divisor_or_dash<const N: usize>(text: &mut ArrayVec<u8, N>, millionths: Option<u64>)
    requires { length text.old.items + 27 ≤ N }
    ensures text { text.new.items ≡ text.old.items ++ or_dash millionths_text millionths }
    ensures short { length text.new.items ≤ length text.old.items + 27 }
{
    match millionths {
        Some(millionths) => push_divisor(text, millionths),
        None => push(text, "-"),
    }
}
