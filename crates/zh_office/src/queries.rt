//! Answers to a desk's queries about the count.

ghost use Rattle.std.specs.Prelude.{◌≡◌, IfErr, MatchOption};
ghost use Rattle.zh_office.specs.Answers.{MayAnswerQuery, shown, answer_to_show, answer_to_last};
ghost use Rattle.zh_office.specs.Sheets.{sheet_refusal, sheet_answer, refusal_of, MayAnswerSheet, AreClosed, IsFirstOpen, IsWhy};

use crate::answer::Answer;
use crate::office::Office;
use zh_commands::{DeskQuery, Refusal, Reply};
use zh_returns::{Count, Entry, Reason};
use zh_sheet::{NoSheet, Sheet, SheetFault, make_or_reason};

impl<'s> Office<'s> {
    /// Answers a query from the count and its totals.
    pub(crate) fn answer_query(&self, query: DeskQuery) -> Answer<'s>
        ensures { MayAnswerQuery self.now.ledger.tally query result }
    {
        match query {
            DeskQuery::Show { municipality, list } => {
                Answer::Reply(answer_to_show(self.count(), municipality, list))
            }
            DeskQuery::Last { municipality, list } => {
                Answer::Reply(answer_to_last(self.count(), municipality, list))
            }
            DeskQuery::Sheet => self.answer_with_sheet(false),
            DeskQuery::Final => self.answer_with_sheet(true),
        }
    }

    /// Answers with a sheet, or with the refusal if none is given.
    fn answer_with_sheet(&self, is_final: bool) -> Answer<'s>
        ensures { MayAnswerSheet self.now.ledger.tally is_final result }
    {
        match self.sheet(is_final) {
            Ok(sheet) => Answer::Sheet(sheet, is_final),
            Err(why) => Answer::Reply(Reply::Refused(refusal_of(why))),
        }
    }

    /// The sheet of the current count, or why none is given. The final sheet is given only if every municipality is closed.
    pub fn sheet(&self, is_final: bool) -> Result<Sheet<'s>, NotGiven>
        ensures answer { MayAnswerSheet self.now.ledger.tally is_final (sheet_answer is_final result) }
        ensures why { IfErr result (IsWhy self.now.ledger.tally) }
    {
        let open = if is_final {
            first_open(self.count())
        } else {
            None
        };
        if let Some(municipality) = open {
            return Err(NotGiven::NotClosed(municipality));
        }
        match make_or_reason(self.alloc, self.totals()) {
            Ok(sheet) => Ok(sheet),
            Err(none) => Err(NotGiven::NoSheet(none)),
        }
    }
}

/// Why the office gives no sheet.
#[derive(Drop)]
pub enum NotGiven {
    /// The final sheet waits for this municipality, the lowest-numbered open one.
    NotClosed(u32),
    /// No sheet was made of these votes, for this reason.
    NoSheet(NoSheet),
}

/// The refusal of a line that asks for a sheet.
fn refusal_of(why: NotGiven) -> Refusal
    ensures { result ≡ refusal_of why }
{
    match why {
        NotGiven::NotClosed(municipality) => Refusal::Judged(Reason::NotClosed(municipality)),
        NotGiven::NoSheet(none) => sheet_refusal(SheetFault::from(none)),
    }
}

/// The refusal of a sheet for this fault in making it.
fn sheet_refusal(fault: SheetFault) -> Refusal
    ensures { result ≡ sheet_refusal fault }
{
    match fault {
        SheetFault::Memory => Refusal::Memory,
        SheetFault::Refused(refusal) => Refusal::Sheet(refusal),
    }
}

/// The lowest-numbered open municipality, if there is one.
fn first_open(count: &Count<'_>) -> Option<u32>
    ensures { MatchOption result (AreClosed count.now) (IsFirstOpen count.now) }
{
    for municipality in 1..=count.setup().municipalities() {
        if !count.closed(municipality) {
            return Some(municipality);
        }
    }
    None
}

fn shown(entry: Option<Entry>) -> Reply
    ensures { result ≡ shown entry }
{
    match entry {
        None => Reply::Nothing,
        Some(
            Entry {
                number,
                votes: Some(votes),
                ..
            },
        ) => Reply::Shows(number, votes),
        Some(
            Entry {
                number,
                votes: None,
                ..
            },
        ) => Reply::ShowsWithdrawn(number),
    }
}

/// The answer to `show`: what the count holds for a list in a municipality.
fn answer_to_show(count: &Count<'_>, municipality: u32, list: u32) -> Reply
    ensures { result ≡ answer_to_show count.now municipality list }
{
    match count.setup().misplaced(municipality, list) {
        Some(place) => Reply::Refused(Refusal::Judged(Reason::from(place))),
        None => shown(count.entry(municipality, list)),
    }
}

/// The answer to `last`: the desk that set what the count holds for a list in a municipality.
fn answer_to_last(count: &Count<'_>, municipality: u32, list: u32) -> Reply
    ensures { result ≡ answer_to_last count.now municipality list }
{
    if let Some(place) = count.setup().misplaced(municipality, list) {
        return Reply::Refused(Refusal::Judged(Reason::from(place)));
    }
    match count.entry(municipality, list) {
        None => Reply::Nothing,
        Some(entry) => Reply::LastDesk(entry.origin.desk),
    }
}
