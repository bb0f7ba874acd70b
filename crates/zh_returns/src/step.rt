//! What an accepted command does to the count.

ghost use Rattle.std.specs.Prelude.{◌≡◌, ◌-◌, ◌<◌, ◌^◌, map};
ghost use Rattle.std.specs.FinMap as map_of;
ghost use Rattle.zh_returns.specs.declared.judgement.Verdict.TheVariants.{Accept};
ghost use Rattle.zh_returns.specs.Judgement.{judge, judge_row, of_all};
ghost use Rattle.zh_returns.specs.Rows.{row_key};
ghost use Rattle.zh_returns.specs.declared.command.Format.{Format};
ghost use Rattle.zh_returns.specs.Origin.{IsOriginOf, origin_of};
ghost use Rattle.zh_returns.specs.Step.{entry_of, with_rows, accepted_rows, MayStand, Steps};

use crate::command::Command;
use crate::count::Count;
use crate::entry::{Entry, Origin};
use crate::row::Row;
use crate::rows::Rows;

impl<'s> Count<'s> {
    /// Applies an accepted command to the count and adds 1 to the number of accepted commands. The entries that it puts into the
    /// count have its origin. Of a batch, only the accepted rows are put.
    pub fn apply(&mut self, command: &Command<'_>)
        requires origin { IsOriginOf Format.Two (origin_of command.now) }
        requires accept { judge self.old command.now ≡ Accept }
        requires room { self.old.accepted < 2 ^ 64 - 1 }
        ensures { Steps self.old command.now self.new }
    {
        let origin = Origin::of(command);
        match command {
            Command::Return { row, .. } => self.put_row(origin, *row),
            Command::Withdraw {
                municipality,
                list,
                number,
                ..
            } => {
                let withdrawn = Entry {
                    origin,
                    number: *number,
                    votes: None,
                };
                self.put(*municipality, *list, withdrawn);
            }
            Command::Close { municipality } => self.close(*municipality),
            Command::Reopen { municipality } => self.reopen(*municipality),
            Command::Batch { rows, .. } => self.put_rows(origin, rows),
        }
        self.count_accepted();
    }

    /// Puts the entries of the accepted rows into the count. It already has what the other rows say.
    fn put_rows(&mut self, origin: Origin, rows: &Rows<'_>)
        requires origin { IsOriginOf Format.Two origin }
        requires accept { of_all (map (judge_row self.old) rows.now) ≡ Accept }
        ensures { self.new ≡ record self.old { entries = with_rows origin self.old.entries (accepted_rows self.old rows.now) } }
    {
        for i in 0..rows.len() {
            let row = rows.get(i);
            // The verdict is the same as before the batch, since no two rows have the same key.
            if self.accepts(row) {
                self.put_row(origin, row);
            }
        }
    }

    /// Puts the entry of a row into the count, in place of what is held.
    fn put_row(&mut self, origin: Origin, row: Row)
        requires origin { IsOriginOf Format.Two origin }
        requires stand { MayStand self.old.canton row }
        ensures { self.new ≡ record self.old { entries = map_of.insert self.old.entries (row_key row) (entry_of origin row) } }
    {
        let entry = Entry {
            origin,
            number: row.number,
            votes: Some(row.votes),
        };
        self.put(row.municipality, row.list, entry);
    }
}
