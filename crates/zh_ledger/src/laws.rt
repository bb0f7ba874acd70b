//! Laws of a ledger on a disk.

ghost use Rattle.std.specs.Prelude.{◌≡◌, ℕ, List, IsTrue};
ghost use Rattle.zh_returns.specs.Tally.{Tally};
ghost use Rattle.zh_returns.specs.declared.command.Command.{Command};
ghost use Rattle.zh_returns.specs.declared.command.Format.{Format};
ghost use Rattle.zh_snapshot.specs.Image.{Content, IsFramed};
ghost use Rattle.zh_ledger.specs.Ledger.{Ledger};
ghost use Rattle.zh_ledger.specs.Night.{Law, by_commands};
ghost use Rattle.zh_ledger.specs.Stands.{StandsFor};
ghost use Rattle.zh_ledger.specs.Submissions.{OnDisk, Log, Submits, IsLogged};
ghost use Rattle.zh_ledger.specs.declared.outcome.Outcome.{Outcome};

/// The bytes of a disk represent at most one count of a set-up, in only one format.
pub fn one_count()
    ensures { (bytes : List ℕ) (x y : Content) (j k : ℕ) (f g : Format) (tally other : Tally)
        → IsFramed x j bytes → IsFramed y k bytes → StandsFor f x tally → StandsFor g y other
        → tally.canton ≡ other.canton → (f ≡ g) × (tally ≡ other) }
{}

/// What commands that are submitted one after another leave on an honest disk, at each moment and at the end.
pub fn submissions()
    ensures { (old : OnDisk Ledger) (commands : List (Command × Outcome)) (log : Log) (new : OnDisk Ledger)
        → IsTrue new.history.honest → Submits old commands log new → IsLogged old log new }
{}

/// A night of commands, stops and openings on an honest disk that was formatted for the ledger, event by event.
///
/// Each image of the disk represents the count that the last opening found, after all commands that were accepted since, or
/// after all but the last, if that one was not acknowledged. So each opening finds, for each stretch between openings, a
/// prefix of the accepted commands that includes all acknowledged ones, each counted once. The only faults of an opening are
/// `Memory` and `Device`.
pub fn nights()
    ensures { Law by_commands }
{}
