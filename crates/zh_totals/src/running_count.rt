//! A count that keeps its totals.
ghost use Rattle.std.specs.Prelude.{◌≡◌, ◌-◌, ◌<◌, ◌^◌, IfOk, None};
ghost use Rattle.zh_districts.specs.Misplaced.{misplaced};
ghost use Rattle.zh_returns.specs.Judgement.{judge};
ghost use Rattle.zh_returns.specs.Origin.{IsOriginOf, origin_of};
ghost use Rattle.zh_returns.specs.Payload.{TakesPayload};
ghost use Rattle.zh_returns.specs.Step.{changed, step};
ghost use Rattle.zh_returns.specs.Tally.{Tally, empty};
ghost use Rattle.zh_returns.specs.declared.command.Format.{Format};
ghost use Rattle.zh_returns.specs.declared.judgement.Verdict.TheVariants.{Accept};
ghost use Rattle.zh_totals.specs.Changes.{IsChange, change_to, noted};
ghost use Rattle.zh_totals.specs.Counting.{totals_of};

use crate::totals::{Change, Totals};
use std::alloc::{AllocError, Global};
use std::marker::Model;
use zh_districts::Setup;
use zh_returns::{Command, Count};

/// A count and its totals, which every change of the count updates. `new` allocates all memory; no other call allocates any.
#[derive(Drop)]
pub struct RunningCount<'s> {
    count: Count<'s>,
    totals: Totals<'s>,
}

impl<'s> Model for RunningCount<'s> {
    ghost use Rattle.std.specs.Prelude.{◌≡◌};
    ghost use Rattle.zh_returns.specs.Tally.{Tally};

    ghost Value = { Tally };

    ghost use Rattle.zh_returns.specs.Code.{tally_code};

    ghost coded = { tally_code };

    ghost view = { λ running. running.count };

    ghost use Rattle.zh_totals.specs.Counting.{totals_of};

    ghost invariant = { λ running. running.totals ≡ totals_of running.count };
}

impl<'s> RunningCount<'s> {
    /// The empty count of an election. Fails if memory is refused.
    pub fn new(alloc: Global, setup: &'s Setup) -> Result<RunningCount<'s>, AllocError>
        ensures { IfOk result (λ running. running ≡ empty setup.now) }
    {
        Ok(RunningCount {
            count: Count::new(alloc, setup)?,
            totals: Totals::new(alloc, setup)?,
        })
    }

    /// The current count.
    pub fn count(&self) -> &Count<'s>
        ensures { result.now ≡ self.now }
    {
        &self.count
    }

    /// The totals of the current count.
    pub fn totals(&self) -> &Totals<'s>
        ensures { result.now ≡ totals_of self.now }
    {
        &self.totals
    }

    /// Replaces this count, which must be empty, with the one that has these bytes, as `Count::decode` does, together with its
    /// totals. If there is none, returns false and stays empty.
    pub fn decode(&mut self, bytes: &[u8]) -> bool
        requires { self.old ≡ empty self.old.canton }
        ensures { TakesPayload self.old bytes.now result self.new }
    {
        let is_read = self.count.decode(bytes);
        if is_read {
            self.totals.note_count(&self.count);
        }
        is_read
    }

    /// Applies an accepted command to the count and its totals, and adds 1 to the number of accepted commands.
    pub fn apply(&mut self, command: &Command<'_>)
        requires origin { IsOriginOf Format.Two (origin_of command.now) }
        requires accept { judge self.old command.now ≡ Accept }
        requires room { self.old.accepted < 2 ^ 64 - 1 }
        ensures { self.new ≡ step self.old command.now }
    {
        self.totals.note_command(&self.count, command);
        self.count.apply(command);
    }
}

impl<'s> Totals<'s> {
    /// Notes the changes that an accepted command makes, before the command is applied to the count.
    fn note_command(&mut self, count: &Count<'_>, command: &Command<'_>)
        requires origin { IsOriginOf Format.Two (origin_of command.now) }
        requires accept { judge count.now command.now ≡ Accept }
        requires totals { self.old ≡ totals_of count.now }
        ensures { self.new ≡ totals_of (changed count.now command.now) }
    {
        // This call is made for what it ensures: the count is within its limits.
        count.accepted();
        match command {
            Command::Return { row, .. } => {
                self.note_votes(count, row.municipality, row.list, row.votes);
            }
            Command::Withdraw {
                municipality,
                list,
                ..
            } => self.note_votes(count, *municipality, *list, 0),
            Command::Close { .. } => {}
            Command::Reopen { .. } => {}
            // No two rows have the same key, so the votes that each row replaces are those that the count holds.
            Command::Batch { rows, .. } => {
                for i in 0..rows.len() {
                    let row = rows.get(i);
                    self.note_votes(count, row.municipality, row.list, row.votes);
                }
            }
        }
    }

    /// Notes votes that replace those that the count holds under a key.
    fn note_votes(&mut self, count: &Count<'_>, municipality: u32, list: u32, votes: u32)
        requires place { misplaced count.now.canton municipality list ≡ None }
        requires change { IsChange self.old (change_to count.now municipality list votes) }
        ensures { self.new ≡ noted self.old (change_to count.now municipality list votes) }
    {
        let before = match count.entry(municipality, list) {
            Some(held) => held.votes.unwrap_or(0),
            None => 0,
        };
        self.note(&Change {
            constituency: count.setup().constituency_of(municipality),
            list,
            before,
            after: votes,
        });
    }
}
