//! The desks' batches.

ghost use Rattle.std.specs.Prelude.{◌≡◌, [], Some, None};
ghost use Rattle.zh_commands.specs.Lines.{IsRow, IsRequest};
ghost use Rattle.zh_commands.specs.declared.lines.Request.TheVariants as requests;
ghost use Rattle.zh_commands.specs.declared.lines.BatchStep.TheVariants as steps;
ghost use Rattle.zh_office.specs.Answers.{MayAnswerRow, MayReplyToStep, answer_to_open, answer_to_drop, batch_after};
ghost use Rattle.std.specs.Option.{option_copied};
ghost use Rattle.zh_office.specs.DeskBatches.{rows_of, with_batch, no_batches};

use crate::load::load_refusal;
use std::alloc::Global;
use std::marker::Model;
use zh_commands::{BatchStep, Refusal, Reply};
use zh_returns::{Batch, Count, Desk, LAST_DESK, Row};

/// How many desks there are.
const DESKS: usize = LAST_DESK as usize;

/// The batch of each desk, if it has one.
#[derive(Drop)]
pub struct Desks {
    batches: [Option<Batch>; DESKS],
}

impl Model for Desks {
    ghost use Rattle.zh_office.specs.DeskBatches.{Held};

    ghost Value = { Held };

    ghost view = { λ desks. desks.batches };
}

impl Desks {
    /// No desk has a batch.
    pub(crate) fn new() -> Desks
        ensures { result ≡ no_batches }
    {
        Desks {
            batches: [None, None, None, None, None, None, None, None],
        }
    }

    /// The batch of a desk.
    pub(crate) fn batch(&self, desk: Desk) -> Option<&Batch>
        ensures { option_copied result ≡ rows_of self.now desk }
    {
        self.batches[desk.number as usize - 1].as_ref()
    }

    /// Takes a step of a desk's batch. A step submits no command.
    pub(crate) fn step(
        &mut self,
        alloc: Global,
        count: &Count<'_>,
        desk: Desk,
        step: BatchStep,
    ) -> Reply
        requires { IsRequest (requests.Batch step) }
        ensures answer { MayReplyToStep count.now (rows_of self.old desk) step result }
        ensures held { self.new ≡ with_batch self.old desk (batch_after (rows_of self.old desk) (requests.Batch step) result) }
    {
        match step {
            BatchStep::Open => self.open(alloc, desk),
            BatchStep::Row(row) => self.hold(count, desk, row),
            BatchStep::Drop => self.give_up(desk),
        }
    }

    /// Opens an empty batch for a desk. This takes no memory.
    fn open(&mut self, alloc: Global, desk: Desk) -> Reply
        ensures answer { result ≡ answer_to_open (rows_of self.old desk) }
        ensures held { self.new ≡ with_batch self.old desk (batch_after (rows_of self.old desk) (requests.Batch steps.Open) result) }
    {
        if self.batch(desk).is_some() {
            return Reply::Refused(Refusal::BatchOpen);
        }
        self.batches[desk.number as usize - 1] = Some(Batch::new(alloc));
        Reply::Held(0)
    }

    /// Adds a row to a desk's batch, or says why it is refused.
    fn hold(&mut self, count: &Count<'_>, desk: Desk, row: Row) -> Reply
        requires row { IsRow row }
        ensures answer { MayAnswerRow count.now (rows_of self.old desk) row result }
        ensures held { self.new ≡ with_batch self.old desk (batch_after (rows_of self.old desk) (requests.Batch (steps.Row row)) result) }
    {
        let Some(batch) = &mut self.batches[desk.number as usize - 1] else {
            return Reply::Refused(Refusal::NoBatch);
        };
        match zh_csv::hold(count.setup(), batch, row) {
            Ok(()) => Reply::Held(batch.len() as u32),
            Err(fault) => Reply::Refused(load_refusal(fault)),
        }
    }

    /// Drops a desk's batch.
    fn give_up(&mut self, desk: Desk) -> Reply
        ensures answer { result ≡ answer_to_drop (rows_of self.old desk) }
        ensures held { self.new ≡ with_batch self.old desk (batch_after (rows_of self.old desk) (requests.Batch steps.Drop) result) }
    {
        let Some(batch) = self.batch(desk) else {
            return Reply::Refused(Refusal::NoBatch);
        };
        let count = batch.len() as u32;
        self.close(desk);
        Reply::Dropped(count)
    }

    /// Ends a desk's batch, if it has one.
    pub(crate) fn close(&mut self, desk: Desk)
        ensures { self.new ≡ with_batch self.old desk None }
    {
        self.batches[desk.number as usize - 1] = None;
    }
}
