//! Laws about counts, commands and their bytes. The functions do nothing: their contracts are the laws.

ghost use Rattle.std.specs.Prelude.{◌≡◌, ℕ, false, List, Some, length, slice_get, ◌≤◌};
ghost use Rattle.std.specs.Option.{IsSomeAnd};
ghost use Rattle.zh_returns.specs.declared.command.Command.{Command};
ghost use Rattle.zh_returns.specs.declared.command.Command.TheVariants as commands;
ghost use Rattle.zh_returns.specs.declared.command.Format.{Format};
ghost use Rattle.zh_returns.specs.declared.row.Row.{Row};
ghost use Rattle.zh_returns.specs.Rows.{IsBatch, has_key};
ghost use Rattle.zh_returns.specs.Spelling.{FitsCommand, HasNumbers, IsSpeakable, command_spelling};
ghost use Rattle.zh_returns.specs.declared.judgement.Verdict.TheVariants.{Accept, Same};
ghost use Rattle.zh_returns.specs.Judgement.{judge, judge_row};
ghost use Rattle.zh_returns.specs.Limits.{IsTally, IsSaidIn};
ghost use Rattle.zh_returns.specs.Origin.{IsOriginOf, origin_of};
ghost use Rattle.zh_returns.specs.Payload.{payload_spelling, payload_length, format_byte};
ghost use Rattle.zh_returns.specs.Step.{changed, entry_of};
ghost use Rattle.zh_returns.specs.Tally.{Tally, held};
ghost use Rattle.zh_returns.specs.declared.command_bytes.TheConstants.{COMMAND_LENGTH};

/// If two counts within their limits, for one set-up, have the same bytes, they are the same count, in the same format. Every
/// count has the same number of bytes, and byte 72 says the format. Format Two can spell every count within its limits.
pub fn one_payload()
    ensures length { (format : Format) (tally : Tally) → length (payload_spelling format tally) ≡ payload_length }
    ensures format { (format : Format) (tally : Tally) → slice_get (payload_spelling format tally) 72 ≡ Some (format_byte format) }
    ensures same { (f g : Format) (a b : Tally) → IsTally a → IsTally b → a.canton ≡ b.canton
        → payload_spelling f a ≡ payload_spelling g b → a ≡ b }
    ensures one_format { (f g : Format) (a b : Tally) → payload_spelling f a ≡ payload_spelling g b → f ≡ g }
    ensures said { (tally : Tally) → IsTally tally → IsSaidIn Format.Two tally }
{}

/// If format Two can name the desk of an accepted command, the desk, the municipalities and the lists of the command fit into
/// its bytes.
pub fn accepted_fits()
    ensures { (tally : Tally) (command : Command) → IsTally tally → IsOriginOf Format.Two (origin_of command)
        → judge tally command ≡ Accept → FitsCommand command }
{}

/// An accepted command has bytes in format Two that are read back as this command, if the format can name its desk, its
/// replacement numbers are from 1 on and fit into four bytes, and its rows are a batch.
pub fn accepted_is_speakable()
    ensures { (tally : Tally) (command : Command) → IsTally tally → HasNumbers command → judge tally command ≡ Accept
        → IsSpeakable Format.Two command }
{}

/// After an accepted batch, each of its rows is held. A row that was accepted has the origin of the batch. For a row that was
/// judged the same, what was held is unchanged. Under a key that no row has, what was held is unchanged.
pub fn batch_is_held()
    ensures rows { (tally : Tally) (desk : ℕ) (rows : List Row) (i : ℕ) (row : Row) → IsBatch rows
        → judge tally (commands.Batch desk rows) ≡ Accept → slice_get rows i ≡ Some row
        → IsSomeAnd (held (changed tally (commands.Batch desk rows)) row.municipality row.list)
        (λ entry. (entry.number ≡ row.number) × (entry.votes ≡ Some row.votes)) }
    ensures accepted { (tally : Tally) (desk : ℕ) (rows : List Row) (i : ℕ) (row : Row) → IsBatch rows
        → slice_get rows i ≡ Some row → judge_row tally row ≡ Accept
        → held (changed tally (commands.Batch desk rows)) row.municipality row.list
        ≡ Some (entry_of (origin_of (commands.Batch desk rows)) row) }
    ensures same { (tally : Tally) (desk : ℕ) (rows : List Row) (i : ℕ) (row : Row) → IsBatch rows
        → slice_get rows i ≡ Some row → judge_row tally row ≡ Same
        → held (changed tally (commands.Batch desk rows)) row.municipality row.list ≡ held tally row.municipality row.list }
    ensures others { (tally : Tally) (desk : ℕ) (rows : List Row) (municipality list : ℕ)
        → has_key rows (municipality, list) ≡ false
        → held (changed tally (commands.Batch desk rows)) municipality list ≡ held tally municipality list }
{}

/// Two commands with the same bytes in one format are the same command.
pub fn one_command()
    ensures { (format : Format) (a b : Command) → IsSpeakable format a → IsSpeakable format b
        → command_spelling format a ≡ command_spelling format b → a ≡ b }
{}

/// A command that is read from bytes of either format fits into format Two. Its bytes in the format that it was read from are
/// no more than those of a batch of 1,000 rows in format Two.
pub fn speakable_fits()
    ensures fits { (format : Format) (command : Command) → IsSpeakable format command → FitsCommand command }
    ensures short { (format : Format) (command : Command) → IsSpeakable format command
        → length (command_spelling format command) ≤ COMMAND_LENGTH }
{}
