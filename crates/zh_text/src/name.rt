//! The names of refusals and faults, as replies and reports spell them.

ghost use Rattle.std.specs.Prelude.{◌≡◌, ◌+◌, ◌≤◌, ◌++◌, length};
ghost use Rattle.zh_text.specs.Names.{HasShortWords, name_text};

use crate::fixed_text::{push, push_numbered};
use arrayvec::ArrayVec;
use std::fmt;

/// The name of a refusal or a fault: words, then up to two numbers, each after a space.
#[derive(Clone, Copy)]
pub enum Name {
    Words(&'static str),
    Number(&'static str, u32),
    Pair(&'static str, u32, u32),
}

impl fmt::Display for Name {
    ghost use Rattle.std.specs.Prelude.{Some};
    ghost use Rattle.zh_text.specs.Names.{name_text};

    ghost output = { λ name. Some (name_text name) };

    fn fmt<W: fmt::Write>(&self, f: &mut fmt::Formatter<W>) -> fmt::Result {
        match *self {
            Name::Words(words) => f.write_str(words),
            Name::Number(words, number) => write!(f, "{words} {number}"),
            Name::Pair(words, one, other) => write!(f, "{words} {one} {other}"),
        }
    }
}

/// Appends a name, whose words must have at most 14 bytes: at most 36 bytes in all.
pub fn push_name<const N: usize>(text: &mut ArrayVec<u8, N>, name: Name)
    requires words { HasShortWords name }
    requires room { length text.old.items + 46 ≤ N }
    ensures text { text.new.items ≡ text.old.items ++ name_text name }
    ensures short { length text.new.items ≤ length text.old.items + 36 }
{
    match name {
        Name::Words(words) => push(text, words),
        Name::Number(words, number) => {
            push(text, words);
            push_numbered(text, " ", number);
        }
        Name::Pair(words, one, other) => {
            push(text, words);
            push_numbered(text, " ", one);
            push_numbered(text, " ", other);
        }
    }
}
