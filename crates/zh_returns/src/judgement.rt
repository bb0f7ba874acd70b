//! The verdict on a command.
ghost use Rattle.std.specs.Prelude.{◌≡◌, map};
ghost use Rattle.zh_returns.specs.Judgement.{against, judge, judge_content, judge_row, judge_close, judge_reopen, is_accept, of_all};

use crate::command::Command;
use crate::count::{Count, MOST_VOTES};
use crate::entry::Entry;
use crate::row::Row;
use crate::rows::Rows;
use zh_districts::Misplaced;

/// Why a command is refused.
#[derive(Clone, Copy, Debug, PartialEq, Eq)]
pub enum Reason {
    /// The set-up has no municipality with this number.
    Municipality,
    /// The list does not stand in the constituency of the municipality.
    List,
    /// There are more than 1,000,000,000 votes.
    Votes,
    /// The municipality is closed.
    Closed,
    /// The replacement number is below the one that is held.
    Stale,
    /// The replacement number is above the next one or, if nothing is held, is not 1.
    Gap,
    /// The replacement number is the one that is held, but the content is different.
    Conflict,
    /// This municipality is open.
    NotClosed(u32),
}

impl From<Misplaced> for Reason {
    ghost use Rattle.zh_returns.specs.Judgement.{reason_of};

    ghost from_gives = { λ misplaced reason. reason ≡ reason_of misplaced };

    fn from(misplaced: Misplaced) -> Reason {
        match misplaced {
            Misplaced::Municipality => Reason::Municipality,
            Misplaced::List => Reason::List,
        }
    }
}

/// The verdict on a command.
#[derive(Clone, Copy, Debug, PartialEq, Eq)]
pub enum Verdict {
    Accept,
    /// The count already has what the command says.
    Same,
    Refused(Reason),
}

/// The verdict on a content (votes, or None for a withdrawn list) with a replacement number, given what is held.
fn against(held: Option<Entry>, number: u32, content: Option<u32>) -> Verdict
    ensures { result ≡ against held number content }
{
    match held {
        None if number == 1 => Verdict::Accept,
        None => Verdict::Refused(Reason::Gap),
        Some(entry) if number < entry.number => Verdict::Refused(Reason::Stale),
        Some(entry) if number == entry.number && content == entry.votes => Verdict::Same,
        Some(entry) if number == entry.number => Verdict::Refused(Reason::Conflict),
        Some(entry) if number - entry.number == 1 => Verdict::Accept,
        Some(_) => Verdict::Refused(Reason::Gap),
    }
}

impl<'s> Count<'s> {
    /// The verdict on a command, whatever numbers it contains. For a return, the first of these cases decides:
    ///
    /// 1. The set-up has no municipality with this number: `Municipality`.
    /// 2. The list does not stand in the constituency of the municipality: `List`.
    /// 3. It has more than 1,000,000,000 votes: `Votes`.
    /// 4. The municipality is closed: `Closed`.
    /// 5. Nothing is held for the list there: accepted with number 1, otherwise `Gap`.
    /// 6. The number held is `n`: a lower number is `Stale`; `n` is `Same` with the votes held, otherwise `Conflict`;
    ///    `n + 1` is accepted; a higher one is `Gap`. A withdrawn list holds no votes, which differs from 0 votes.
    ///
    /// A withdrawal is judged like a return without votes. The desk makes no difference. Each row of a batch is judged against
    /// this count. If rows are refused, the batch is refused for the reason of the first one; otherwise it is accepted if a row
    /// is, and `Same` if none is. A closing or a reopening is refused as `Municipality` if the set-up does not have the
    /// municipality. Otherwise a closing is `Same` if the municipality is already closed, a reopening is refused as `NotClosed`
    /// if it is open, and both are accepted in the other case.
    pub fn judge(&self, command: &Command<'_>) -> Verdict
        ensures { result ≡ judge self.now command.now }
    {
        match command {
            Command::Return { row, .. } => self.judge_row(*row),
            Command::Withdraw {
                municipality,
                list,
                number,
                ..
            } => self.judge_content(*municipality, *list, *number, None),
            Command::Close { municipality } => self.judge_close(*municipality),
            Command::Reopen { municipality } => self.judge_reopen(*municipality),
            Command::Batch { rows, .. } => self.judge_rows(rows),
        }
    }

    fn judge_close(&self, municipality: u32) -> Verdict
        ensures { result ≡ judge_close self.now municipality }
    {
        if !self.setup().has_municipality(municipality) {
            return Verdict::Refused(Reason::Municipality);
        }
        if self.closed(municipality) {
            return Verdict::Same;
        }
        Verdict::Accept
    }

    fn judge_reopen(&self, municipality: u32) -> Verdict
        ensures { result ≡ judge_reopen self.now municipality }
    {
        if !self.setup().has_municipality(municipality) {
            return Verdict::Refused(Reason::Municipality);
        }
        if !self.closed(municipality) {
            return Verdict::Refused(Reason::NotClosed(municipality));
        }
        Verdict::Accept
    }

    fn judge_rows(&self, rows: &Rows<'_>) -> Verdict
        ensures { result ≡ of_all (map (judge_row self.now) rows.now) }
    {
        let mut verdict = Verdict::Same;
        for i in 0..rows.len() {
            match self.judge_row(rows.get(i)) {
                Verdict::Accept => verdict = Verdict::Accept,
                Verdict::Same => {}
                Verdict::Refused(reason) => return Verdict::Refused(reason),
            }
        }
        verdict
    }

    fn judge_row(&self, row: Row) -> Verdict
        ensures { result ≡ judge_row self.now row }
    {
        self.judge_content(row.municipality, row.list, row.number, Some(row.votes))
    }

    /// Whether a row would be accepted.
    pub(crate) fn accepts(&self, row: Row) -> bool
        ensures { result ≡ is_accept (judge_row self.now row) }
    {
        self.judge_row(row) == Verdict::Accept
    }

    /// The verdict on a content (votes, or None for a withdrawn list) with a replacement number, for a list in a municipality.
    fn judge_content(
        &self,
        municipality: u32,
        list: u32,
        number: u32,
        content: Option<u32>,
    ) -> Verdict
        ensures { result ≡ judge_content self.now municipality list number content }
    {
        if let Some(misplaced) = self.setup().misplaced(municipality, list) {
            return Verdict::Refused(Reason::from(misplaced));
        }
        if content.is_some_and(|votes| votes > MOST_VOTES) {
            return Verdict::Refused(Reason::Votes);
        }
        if self.closed(municipality) {
            return Verdict::Refused(Reason::Closed);
        }
        against(self.entry(municipality, list), number, content)
    }
}
