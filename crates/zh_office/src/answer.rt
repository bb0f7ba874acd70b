//! The answers to the desks' lines.

ghost use Rattle.std.specs.Prelude.{◌≡◌, ◌≤◌, false, length};
ghost use Rattle.zh_returns.specs.Rows.{rows_length};
ghost use Rattle.zh_returns.specs.declared.command.Command.TheVariants as commands;
ghost use Rattle.zh_returns.specs.Spelling.{HasNumbers};
ghost use Rattle.zh_office.specs.Answers.{answer_to_commit, batch_of, batch_after, command_of, held_after};
ghost use Rattle.zh_office.specs.declared.answer.Answer.TheVariants as answers;
ghost use Rattle.zh_commands.specs.Lines.{IsRequest};
ghost use Rattle.zh_office.specs.DeskBatches.{rows_of, with_batch};
ghost use Rattle.zh_ledger.specs.Submissions.{on_disk};
ghost use Rattle.zh_office.specs.Requests.{Acts, MayAnswerWhere, ReportsOutcome, answer_may_write, reply_to};
ghost use Rattle.zh_commands.specs.declared.lines.Request.TheVariants as requests;

use crate::desks::Desks;
use crate::office::Office;
use zh_commands::{Line, Refusal, Reply, Request};
use zh_disk::Disk;
use zh_ledger::{Ledger, Outcome};
use zh_returns::{Batch, Command, Desk};
use zh_sheet::Sheet;

/// The answer to a line.
#[derive(Drop)]
pub enum Answer<'s> {
    /// A reply of one line.
    Reply(Reply),
    /// A sheet, and whether it is final. Only the line `final` gives a final one, and only if every municipality is closed.
    Sheet(Sheet<'s>, bool),
}

/// The reply that reports the outcome of a command.
fn reply_to(outcome: Outcome) -> Reply
    ensures { result ≡ reply_to outcome }
{
    match outcome {
        Outcome::Stored(accepted) => Reply::Stored(accepted),
        Outcome::Same => Reply::Same,
        Outcome::Refused(reason) => Reply::Refused(Refusal::Judged(reason)),
        Outcome::Spent => Reply::Refused(Refusal::Spent),
        Outcome::Device => Reply::Refused(Refusal::Device),
        Outcome::Broken => Reply::Refused(Refusal::ReopenDisk),
    }
}

/// Submits a command and reports its outcome.
fn submit<D: Disk>(ledger: &mut Ledger<'_>, disk: &mut D, command: &Command<'_>) -> Reply
    requires { HasNumbers command.now }
    ensures reported { ReportsOutcome (on_disk ledger.old (D.history disk.old)) command.now (answers.Reply result)
        (on_disk ledger.new (D.history disk.new)) }
    ensures untouched { answer_may_write (answers.Reply result) ≡ false → disk.new ≡ disk.old }
{
    reply_to(ledger.submit(disk, command))
}

/// Submits these rows, at least one, as a single command of this desk and reports its outcome. Desk 0 means that no desk
/// sent the rows. `bytes` is room for the rows of any batch: at least 11,000 bytes.
pub(crate) fn submit_rows<D: Disk>(
    ledger: &mut Ledger<'_>,
    disk: &mut D,
    desk: u8,
    batch: &Batch,
    bytes: &mut [u8],
) -> Reply
    requires desk { desk ≤ 8 }
    requires some { 1 ≤ length batch.now }
    requires room { rows_length ≤ length bytes.old }
    ensures reported { ReportsOutcome (on_disk ledger.old (D.history disk.old)) (commands.Batch desk batch.now) (answers.Reply result)
        (on_disk ledger.new (D.history disk.new)) }
    ensures untouched { answer_may_write (answers.Reply result) ≡ false → disk.new ≡ disk.old }
{
    let rows = batch.write(bytes);
    submit(ledger, disk, &Command::Batch { desk, rows })
}

/// Submits a desk's batch as one command. The batch ends if it is stored, if the count already holds its rows, or if it
/// has none.
fn commit<D: Disk>(
    ledger: &mut Ledger<'_>,
    disk: &mut D,
    desks: &mut Desks,
    desk: Desk,
    bytes: &mut [u8],
) -> Reply
    requires room { rows_length ≤ length bytes.old }
    ensures acts { Acts (on_disk ledger.old (D.history disk.old)) (batch_of desk.number (rows_of desks.old desk))
        (λ answer. answer ≡ answers.Reply (answer_to_commit (rows_of desks.old desk))) (answers.Reply result)
        (on_disk ledger.new (D.history disk.new)) }
    ensures held { desks.new ≡ with_batch desks.old desk (batch_after (rows_of desks.old desk) requests.Commit result) }
    ensures untouched { answer_may_write (answers.Reply result) ≡ false → disk.new ≡ disk.old }
{
    let reply = match desks.batch(desk) {
        Some(batch) if batch.len() > 0 => submit_rows(ledger, disk, desk.number, batch, bytes),
        Some(_) => Reply::Same,
        None => Reply::Refused(Refusal::NoBatch),
    };
    if matches!(reply, Reply::Stored(_) | Reply::Same) {
        desks.close(desk);
    }
    reply
}

impl<'s> Office<'s> {
    /// Answers a desk's request: submits the command that it gives (for a commit the desk's batch, if that has a row), and
    /// answers every other request from memory. Of the batches, only that of this desk can change.
    ///
    /// The disk is as it was unless the answer is `stored` or `device`. After `device` every later request is answered
    /// `reopen-disk`.
    pub(crate) fn answer_to<D: Disk>(&mut self, disk: &mut D, line: Line) -> Answer<'s>
        requires { IsRequest line.request }
        ensures acts { Acts (on_disk self.old.ledger (D.history disk.old))
            (command_of line.desk (rows_of self.old.held line.desk) line.request)
            (MayAnswerWhere self.old.ledger.store.broken self.old.ledger.tally self.old.held line) result
            (on_disk self.new.ledger (D.history disk.new)) }
        ensures held { self.new.held ≡ held_after self.old.held line result }
        ensures untouched { answer_may_write result ≡ false → disk.new ≡ disk.old }
    {
        if self.faulted() {
            return Answer::Reply(Reply::Refused(Refusal::ReopenDisk));
        }
        let desk = line.desk;
        match line.request {
            Request::Command(command) => {
                Answer::Reply(submit(&mut self.ledger, disk, &command.of_desk(desk)))
            }
            Request::Commit => Answer::Reply(commit(
                &mut self.ledger,
                disk,
                &mut self.desks,
                desk,
                &mut self.rows,
            )),
            Request::Batch(step) => {
                Answer::Reply(self.desks.step(self.alloc, self.ledger.count(), desk, step))
            }
            Request::Query(query) => self.answer_query(query),
        }
    }
}
