//! Reading lines.
ghost use Rattle.std.specs.Prelude.{◌≡◌, ◌≢◌, ◌^◌, ◌<◌, ℕ, [], ◌∷◌, ◌++◌, MatchOption, ◌==◌, List, length, position, decimal, IfSome};
ghost use Rattle.std.specs.Prelude.{IsSomeAnd};
ghost use Rattle.zh_commands.specs.Forms.{form_of};
ghost use Rattle.zh_commands.specs.Lines.{IsRow, IsRequest, ParsesAs, desk_of, row_text};
ghost use Rattle.zh_commands.specs.Words.{numerals, first_word, AreNumerals};

use crate::lines::{BatchStep, DeskCommand, DeskQuery, Line, LineFault, Request};
use std::str;
use zh_returns::{Desk, Row};
use zh_text::numeral;

// The most bytes that a line can have.
const LONGEST: usize = 120;

/// Reads a line, without its line end, as described in `docs/FORMATS.md`, "Lines". It allocates nothing.
///
/// A line of more than 120 bytes is `Syntax`. Otherwise the fault is `Desk` if the first word is a numeral other than 1
/// to 8, whatever follows, and `Syntax` if the line has none of the forms of a line.
pub fn parse_line(bytes: &[u8]) -> Result<Line, LineFault>
    ensures reads { ParsesAs bytes.now result }
{
    if bytes.len() > LONGEST {
        return Err(LineFault::Syntax);
    }
    let (word, rest) = split_word(bytes);
    let Some(number) = numeral(word) else {
        return Err(LineFault::Syntax);
    };
    let Some(desk) = Desk::new(number) else {
        return Err(LineFault::Desk);
    };
    let Some(text) = after_space(rest) else {
        return Err(LineFault::Syntax);
    };
    let Some(request) = request_of(text) else {
        return Err(LineFault::Syntax);
    };
    Ok(Line { desk, request })
}

// The request in the text after the desk and the space.
fn request_of(text: &[u8]) -> Option<Request>
    ensures { MatchOption result
        ((request : Request) → IsRequest request → text.now ≢ (form_of request).word ++ numerals (form_of request).numbers)
        (λ request. IsRequest request × (text.now ≡ (form_of request).word ++ numerals (form_of request).numbers)) }
{
    let (word, rest) = split_word(text);
    let Ok(word) = str::from_utf8(word) else {
        return None;
    };
    match lone_request(word) {
        Some(request) => alone(request, rest),
        None => numbered_request(word, rest),
    }
}

// The request that consists of this word, without numbers.
fn lone_request(word: &str) -> Option<Request>
    ensures { MatchOption result ((request : Request) → (form_of request).numbers ≡ [] → word.now ≢ (form_of request).word)
        (λ request. IsRequest request × ((form_of request).numbers ≡ []) × (word.now ≡ (form_of request).word)) }
{
    match word {
        "open" => Some(Request::Batch(BatchStep::Open)),
        "commit" => Some(Request::Commit),
        "drop" => Some(Request::Batch(BatchStep::Drop)),
        "sheet" => Some(Request::Query(DeskQuery::Sheet)),
        "final" => Some(Request::Query(DeskQuery::Final)),
        _ => None,
    }
}

// The request that consists of this word and the numerals after it, of which there is at least one.
fn numbered_request(word: &str, text: &[u8]) -> Option<Request>
    ensures { MatchOption result
        ((request : Request) → IsRequest request → (form_of request).numbers ≢ [] → word.now ≡ (form_of request).word
        → text.now ≢ numerals (form_of request).numbers)
        (λ request. IsRequest request × (word.now ≡ (form_of request).word)
        × (text.now ≡ numerals (form_of request).numbers)) }
{
    match word {
        "return" => Some(Request::Command(DeskCommand::Return(row_of(text)?))),
        "withdraw" => {
            let (municipality, list, number) = withdrawal_of(text)?;
            Some(Request::Command(DeskCommand::Withdraw {
                municipality,
                list,
                number,
            }))
        }
        "close" => Some(Request::Command(DeskCommand::Close {
            municipality: municipality_of(text)?,
        })),
        "reopen" => Some(Request::Command(DeskCommand::Reopen {
            municipality: municipality_of(text)?,
        })),
        "row" => Some(Request::Batch(BatchStep::Row(row_of(text)?))),
        "show" => {
            let [municipality, list] = numbers::<2>(text)?;
            Some(Request::Query(DeskQuery::Show { municipality, list }))
        }
        "last" => {
            let [municipality, list] = numbers::<2>(text)?;
            Some(Request::Query(DeskQuery::Last { municipality, list }))
        }
        _ => None,
    }
}

// The request, if nothing follows its word.
fn alone(request: Request, text: &[u8]) -> Option<Request>
    ensures { MatchOption result (text.now ≢ []) (λ found. (found ≡ request) × (text.now ≡ [])) }
{
    text.is_empty().then_some(request)
}

// The municipality in a text of one numeral, after a space.
fn municipality_of(text: &[u8]) -> Option<u32>
    ensures { MatchOption result ((n : ℕ) → n < 2 ^ 32 → text.now ≢ numerals (n ∷ []))
        (λ n. (n < 2 ^ 32) × (text.now ≡ numerals (n ∷ []))) }
{
    let [municipality] = numbers::<1>(text)?;
    Some(municipality)
}

// The municipality, the list and the replacement number in a text of three numerals, each after a space.
fn withdrawal_of(text: &[u8]) -> Option<(u32, u32, u32)>
    ensures { MatchOption result
        ((m l n : ℕ) → IsRequest (Request.Command (DeskCommand.Withdraw m l n)) → text.now ≢ numerals (m ∷ l ∷ n ∷ []))
        (λ found. IsRequest (Request.Command (DeskCommand.Withdraw found.0 found.1 found.2))
        × (text.now ≡ numerals (found.0 ∷ found.1 ∷ found.2 ∷ []))) }
{
    let [municipality, list, number] = numbers::<3>(text)?;
    if number == 0 {
        return None;
    }
    Some((municipality, list, number))
}

// The row in a text of four numerals, each after a space.
fn row_of(text: &[u8]) -> Option<Row>
    ensures { MatchOption result ((row : Row) → IsRow row → text.now ≢ row_text row)
        (λ row. IsRow row × (text.now ≡ row_text row)) }
{
    let [municipality, list, number, votes] = numbers::<4>(text)?;
    if number == 0 {
        return None;
    }
    Some(Row {
        municipality,
        list,
        number,
        votes,
    })
}

/// The desk under which a line is answered, whether or not it can be read: the digit if the line begins with 1 to 8 and
/// a space, otherwise 0.
pub fn desk_of(bytes: &[u8]) -> u8
    ensures { result ≡ desk_of bytes.now }
{
    match bytes {
        [digit @ b'1'..=b'8', b' ', ..] => *digit - b'0',
        _ => 0,
    }
}

// The index of the first space.
fn first_space(bytes: &[u8]) -> Option<usize>
    ensures { result ≡ position (λ byte. byte == 32) bytes.now }
{
    bytes.iter().position(|byte| *byte == b' ')
}

// The bytes before the first space, and the rest, which begins with that space.
pub(crate) fn split_word(bytes: &[u8]) -> (&[u8], &[u8])
    ensures word { result.0.now ≡ first_word bytes.now }
    ensures whole { bytes.now ≡ result.0.now ++ result.1.now }
{
    bytes.split_at(first_space(bytes).unwrap_or(bytes.len()))
}

// The text after a space at the front.
pub(crate) fn after_space(text: &[u8]) -> Option<&[u8]>
    ensures { MatchOption result ((rest : List ℕ) → text.now ≢ 32 ∷ rest)
        (λ rest. text.now ≡ 32 ∷ rest.now) }
{
    match text {
        [b' ', rest @ ..] => Some(rest),
        _ => None,
    }
}

// The number in the numeral after a space at the front, and the bytes after the numeral.
fn next_number(text: &[u8]) -> Option<(u32, &[u8])>
    ensures found { IfSome result (λ next.
        (next.0 < 2 ^ 32) × (text.now ≡ 32 ∷ decimal next.0 ++ next.1.now)) }
    ensures only { (n : ℕ) (ns : List ℕ) → n < 2 ^ 32 → text.now ≡ numerals (n ∷ ns)
        → IsSomeAnd result (λ next. next.1.now ≡ numerals ns) }
{
    let (word, rest) = split_word(after_space(text)?);
    let number = numeral(word)?;
    Some((number, rest))
}

// The numbers of the numerals, each of which stands after one space.
pub(crate) fn numbers<const N: usize>(text: &[u8]) -> Option<[u32; N]>
    ensures { MatchOption result
        ((ns : List ℕ) → length ns ≡ N → AreNumerals ns → text.now ≢ numerals ns)
        (λ ns. (length ns ≡ N) × AreNumerals ns × (text.now ≡ numerals ns)) }
{
    let mut numbers = [0; N];
    let mut rest = text;
    for number in &mut numbers {
        let (value, left) = next_number(rest)?;
        *number = value;
        rest = left;
    }
    if rest.is_empty() { Some(numbers) } else { None }
}
