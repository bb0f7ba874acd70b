//! Numbers in turns, and the lines of answers.

use crate::fault::CaseFault;
use hex::decode;
use std::alloc::{AllocError, Global};
use std::str::{self, SplitWhitespace};

/// The first word of a text, and the rest after a space.
pub(crate) fn parted(text: &str) -> (&str, &str) {
    text.split_once(' ').unwrap_or((text, ""))
}

/// Reads a decimal number.
pub(crate) fn number(word: &str) -> Result<u64, CaseFault> {
    match word.parse::<u64>() {
        Ok(number) => Ok(number),
        Err(_) => Err(CaseFault::Text("this is no number")),
    }
}

/// The number that comes next.
pub(crate) fn next_number(words: &mut SplitWhitespace<'_>) -> Result<u64, CaseFault> {
    match words.next() {
        Some(word) => number(word),
        None => Err(CaseFault::Text("a number is missing")),
    }
}

/// The numbers of a text, which has a space between them.
pub(crate) fn numbers_in(alloc: Global, text: &str) -> Result<Vec<u64>, CaseFault> {
    let mut numbers = Vec::new(alloc);
    for word in text.split_whitespace() {
        numbers.push(number(word)?)?;
    }
    Ok(numbers)
}

/// The bytes that these hexadecimal digits spell.
pub(crate) fn bytes_of(alloc: Global, digits: &str) -> Result<Vec<u8>, CaseFault> {
    match decode(alloc, digits) {
        Ok(bytes) => Ok(bytes),
        Err(_) => Err(CaseFault::Text("these are no bytes")),
    }
}

/// Appends numbers, each after a space.
pub(crate) fn push_numbers(text: &mut String, numbers: &[u64]) -> Result<(), AllocError> {
    for number in numbers {
        write!(text, " {number}")?;
    }
    Ok(())
}

/// Appends the lines of a text, each after the separator. An empty answer gets no separator before the first line.
pub(crate) fn push_lines(
    answer: &mut String,
    separator: &str,
    text: &[u8],
) -> Result<(), CaseFault> {
    let Ok(text) = str::from_utf8(text) else {
        return Err(CaseFault::Text("an answer is no text"));
    };
    for line in text.lines() {
        if !answer.is_empty() {
            answer.push_str(separator)?;
        }
        answer.push_str(line)?;
    }
    Ok(())
}
