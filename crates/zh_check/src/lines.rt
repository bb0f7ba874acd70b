//! Reading a text line by line. Nothing is refused here: the check later makes a text from what was read and compares
//! the two.
ghost use Rattle.std.specs.List.{after_first, before_first};
ghost use Rattle.std.specs.Prelude.{◌≡◌, ◌==◌, ◌-◌, ◌^◌, ◌∷◌, ◌↔◌, [], ℕ, IfOk, IsTrue, min, position, ◌≢◌, false};
ghost use Rattle.zh_check.specs.Differences.{DiffersAt};
ghost use Rattle.zh_check.specs.Lines.{after_if, after_line, after_lines, after_word, digits_after, first_line, leading_word, line_if};
ghost use Rattle.zh_check.specs.Lines.{number_of_word, whole_line};

use crate::checked::WrongLine;
use std::alloc::{AllocError, Global};
use std::marker::Model;

/// The part of a text that is still to be read.
#[derive(Drop)]
pub(crate) struct Lines<'a> {
    rest: &'a [u8],
}

impl<'a> Model for Lines<'a> {
    ghost use Rattle.std.specs.Prelude.{List, ℕ};

    ghost Value = { List ℕ };

    ghost view = { λ lines. lines.rest.now };
}

/// The index of the first `byte` in a text.
fn first_place(text: &[u8], byte: u8) -> Option<usize>
    ensures { result ≡ position (λ b. b == byte) text.now }
{
    text.iter().position(|b| *b == byte)
}

/// The bytes before and after the first `byte`. If there is none, all bytes and an empty slice.
fn split_first(text: &[u8], byte: u8) -> (&[u8], &[u8])
    ensures before { result.0.now ≡ before_first (λ b. b == byte) text.now }
    ensures after { result.1.now ≡ after_first (λ b. b == byte) text.now }
{
    match first_place(text, byte) {
        Some(place) => (&text[..place], &text[place + 1..]),
        None => (text, &[]),
    }
}

/// The first line of a text, with its end.
fn with_end(text: &[u8]) -> &[u8]
    ensures { result.now ≡ whole_line text.now }
{
    match first_place(text, b'\n') {
        Some(place) => &text[..place + 1],
        None => text,
    }
}

impl<'a> Lines<'a> {
    pub fn new(text: &'a [u8]) -> Lines<'a>
        ensures { result ≡ text.now }
    {
        Lines { rest: text }
    }

    /// Whether no bytes are left.
    pub fn is_empty(&self) -> bool
        ensures { IsTrue result ↔ self.now ≡ [] }
    {
        self.rest.is_empty()
    }

    /// The next line with its end. It is not consumed.
    pub fn whole_line(&self) -> &'a [u8]
        ensures { result.now ≡ whole_line self.now }
    {
        with_end(self.rest)
    }

    /// The next line, without its end. Past the end it is empty.
    pub fn next(&mut self) -> &'a [u8]
        ensures line { result.now ≡ first_line self.old }
        ensures rest { self.new ≡ after_line self.old }
    {
        let (line, rest) = split_first(self.rest, b'\n');
        self.rest = rest;
        line
    }

    /// The next line if `is_there`, otherwise an empty one, and no line is consumed.
    pub fn next_if(&mut self, is_there: bool) -> &'a [u8]
        ensures line { result.now ≡ line_if is_there self.old }
        ensures rest { self.new ≡ after_if is_there self.old }
    {
        if is_there { self.next() } else { &[] }
    }

    /// Skips `count` lines.
    pub fn skip(&mut self, count: u32)
        ensures { self.new ≡ after_lines count self.old }
    {
        for _ in 0..count {
            self.next();
        }
    }
}

/// The line after the first `before` lines, without its end.
pub(crate) fn line_after(alloc: Global, text: &[u8], before: u32) -> Result<Vec<u8>, AllocError>
    ensures { IfOk result (λ line. line.items ≡ first_line (after_lines before text.now)) }
{
    let mut lines = Lines::new(text);
    lines.skip(before);
    Vec::from_slice(alloc, lines.next())
}

/// The first word of a line, and what follows the space after it.
pub(crate) fn split_word(line: &[u8]) -> (&[u8], &[u8])
    ensures word { result.0.now ≡ leading_word line.now }
    ensures rest { result.1.now ≡ after_word line.now }
{
    split_first(line, b' ')
}

/// The number with one more digit, at most 2^64 - 1. A byte that is not a digit leaves it unchanged.
fn with_digit(number: u64, byte: u8) -> u64
    ensures { (value : ℕ) → number ≡ min value (2 ^ 64 - 1) → result ≡ min (digits_after value (byte ∷ [])) (2 ^ 64 - 1) }
{
    if !byte.is_ascii_digit() {
        return number;
    }
    number
        .saturating_mul(10)
        .saturating_add(u64::from(byte - b'0'))
}

/// The number that the digits of a word give, at most 2^64 - 1. Other bytes are ignored.
pub(crate) fn number_of_word(word: &[u8]) -> u64
    ensures { result ≡ number_of_word word.now }
{
    let mut number = 0;
    for byte in word {
        number = with_digit(number, *byte);
    }
    number
}

/// Whether two texts are the same.
pub(crate) fn is_same(text: &[u8], expected: &[u8]) -> bool
    ensures { IsTrue result ↔ text.now ≡ expected.now }
{
    text == expected
}

/// Whether there is a line, and the other text has the same line, including its end.
fn is_same_line(lines: &Lines<'_>, others: &Lines<'_>) -> bool
    ensures there { IsTrue result → lines.now ≢ [] }
    ensures same { IsTrue result → whole_line lines.now ≡ whole_line others.now }
    ensures other { result ≡ false → whole_line lines.now ≡ whole_line others.now → lines.now ≡ [] }
{
    !lines.is_empty() && lines.whole_line() == others.whole_line()
}

/// The first line, including its end, that differs between two texts. What it should be is taken from a third text.
pub(crate) fn first_difference(
    alloc: Global,
    text: &[u8],
    expected: &[u8],
    shown: &[u8],
) -> Result<WrongLine, AllocError>
    ensures { IfOk result (λ wrong. text.now ≢ expected.now → DiffersAt text.now expected.now shown.now wrong) }
{
    let mut lines = Lines::new(text);
    let mut others = Lines::new(expected);
    let mut shown_lines = Lines::new(shown);
    let mut before = 0;
    while is_same_line(&lines, &others) {
        lines.next();
        others.next();
        shown_lines.next();
        before += 1;
    }
    let found = lines.next();
    let should = shown_lines.next();
    Ok(WrongLine {
        line: before + 1,
        found: Vec::from_slice(alloc, found)?,
        should: Vec::from_slice(alloc, should)?,
    })
}
