//! A turn: its word says what is done.

use crate::fault::CaseFault;
use crate::fixture::Fixture;
use crate::numbers::{divisor, shares};
use crate::question::{Whom, ask};
use crate::texts::parted;

/// Makes a turn and appends its answer. Memory can be refused to one after the word `refuse`.
pub fn make(fixture: &mut Fixture<'_>, turn: &str, answer: &mut String) -> Result<(), CaseFault> {
    let (turn, is_refusing) = match turn.strip_prefix("refuse ") {
        Some(turn) => (turn, true),
        None => (turn, false),
    };
    fixture.is_refusing = is_refusing;
    let (word, rest) = parted(turn);
    answer_with(fixture, word, rest, answer)
}

/// Makes a turn that has an answer of its own.
fn answer_with(
    fixture: &mut Fixture<'_>,
    word: &str,
    rest: &str,
    answer: &mut String,
) -> Result<(), CaseFault> {
    match word {
        "send" => fixture.send(rest, answer),
        "csv" => fixture.load(rest, answer),
        "serve" => fixture.serve(rest, answer),
        "export" => fixture.export(answer),
        "reason" => fixture.reason(answer),
        "judge" => fixture.judge(rest, answer),
        "accepted" => fixture.accepted(answer),
        "calls" => fixture.calls(answer),
        _ => answer_of_its_own(fixture, word, rest, answer),
    }
}

/// Makes a turn that asks for seats, or one whose answer is a word.
fn answer_of_its_own(
    fixture: &mut Fixture<'_>,
    word: &str,
    rest: &str,
    answer: &mut String,
) -> Result<(), CaseFault> {
    match word {
        "question" => ask(fixture, Whom::Searches, rest, answer),
        "decision" => ask(fixture, Whom::Decision, rest, answer),
        "lot" => ask(fixture, Whom::Lot, rest, answer),
        "line" => divisor(fixture.alloc, rest, answer),
        "shares" => shares(fixture.alloc, rest, answer),
        _ => Ok(answer.push_str(word_of(fixture, word, rest)?)?),
    }
}

/// Makes a turn on the office or on the disk. Its answer is a word.
fn word_of(fixture: &mut Fixture<'_>, word: &str, rest: &str) -> Result<&'static str, CaseFault> {
    match word {
        "format" => fixture.format(),
        "open" => fixture.open(),
        "damage" => fixture.damage(rest),
        _ => {
            change(fixture, word, rest)?;
            Ok("ok")
        }
    }
}

/// Makes a turn that changes what the case works on, or keeps a part of it.
fn change(fixture: &mut Fixture<'_>, word: &str, rest: &str) -> Result<(), CaseFault> {
    match word {
        "setup" => fixture.take_setup(rest),
        "zeros" => fixture.take_zeros(),
        "disk" => fixture.take_file(rest),
        "image" => fixture.save_image(rest),
        "count" => fixture.save_count(rest),
        "mark" => fixture.mark(),
        "back" => fixture.back(),
        "stop" => fixture.stop(rest),
        _ => fixture.fail(word, rest),
    }
}
