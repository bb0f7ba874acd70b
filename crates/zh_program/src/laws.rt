//! Consequences of the program's promise, and laws of its tasks.

ghost use Rattle.std.specs.Prelude.{◌≡◌, ◌≢◌, ◌⊎◌, ◌+◌, ◌*◌, ◌<◌, ◌≤◌, ℕ, Bool, IsTrue, MatchResult, Result, List, [], ◌∷◌, ◌++◌, flat_map};
ghost use Rattle.std.specs.Prelude.{length, map, slice_index, take, None, Some, ◌↔◌, Option};
ghost use Rattle.zh_disk.specs.Disk.{IsImage, Trail};
ghost use Rattle.zh_districts.specs.Canton.{IsCanton, Canton};
ghost use Rattle.zh_film.specs.Frames.{Frame};
ghost use Rattle.zh_film.specs.declared.kind.FrameKind.TheVariants.{Asks};
ghost use Rattle.zh_returns.specs.declared.command.Command.{Command};
ghost use Rattle.zh_returns.specs.Judgement.{judge};
ghost use Rattle.zh_returns.specs.Step.{after};
ghost use Rattle.zh_returns.specs.Tally.{Tally};
ghost use Rattle.zh_returns.specs.declared.judgement.Verdict.TheVariants as verdicts;
ghost use Rattle.zh_commands.specs.declared.replies.Reply.TheVariants as replies;
ghost use Rattle.zh_matrices.specs.Divisors.{Divisors};
ghost use Rattle.zh_matrices.specs.Question.{cell};
ghost use Rattle.zh_matrices.specs.SeatMatrix.{IsStrict, IsWeak};
ghost use Rattle.zh_totals.specs.Counting.{totals_of};
ghost use Rattle.zh_sheet.specs.Distribution.{Distribution, Targets, lower_question, question_of};
ghost use Rattle.zh_ledger.specs.Ledger.{Ledger};
ghost use Rattle.zh_ledger.specs.Night.{StopsWithin};
ghost use Rattle.zh_ledger.specs.Opening.{IsCause, Opens};
ghost use Rattle.zh_ledger.specs.Stands.{Holds, HoldsFramed};
ghost use Rattle.zh_ledger.specs.declared.opening.OpenFault.{OpenFault};
ghost use Rattle.zh_ledger.specs.declared.opening.OpenFault.TheVariants as faults;
ghost use Rattle.zh_office.specs.declared.answer.Answer.TheVariants as answers;
ghost use Rattle.zh_office.specs.Exchanges.{Exchange, count_by, disk_by, line_in, log_of, text_of};
ghost use Rattle.zh_office.specs.Text.{ended_lines};
ghost use Rattle.zh_program.specs.World.{known};
ghost use Rattle.zh_program.specs.declared.on_disk.Filmed.{Filmed};
ghost use Rattle.zh_program.specs.Headline.{Headline};
ghost use Rattle.zh_program.specs.Order.{AreNext, Conversation};
ghost use Rattle.zh_program.specs.Program.{LeavesAsFound, disk_path};
ghost use Rattle.zh_program.specs.Promise.{Promise};
ghost use Rattle.zh_arguments.specs.declared.arguments.Task.{Task};
ghost use Rattle.zh_program.specs.Sheets.{IsTie};
ghost use Rattle.zh_program.specs.Stopped.{OpensTo};
ghost use Rattle.zh_check.specs.Verdicts.{IsRight};
ghost use Rattle.zh_check.specs.declared.checked.RightSheet.{RightSheet};
ghost use Rattle.zh_disk.specs.History.{History};
ghost use Rattle.zh_ledger.specs.Submissions.{IsLogged, Log, OnDisk};
ghost use Rattle.zh_office.specs.Office.{Office, its_ledger};
ghost use Rattle.zh_program.specs.Opened.{IsFrom, KeepsAll};
ghost use Rattle.zh_totals.specs.Totals.{VoteTotals};

use std::io::{Read, Write};
use zh_file::{Files, World};
use zh_sheet_text::no_longer;

/// Cases that the promise excludes, wherever a stop comes.
pub fn headline_excludes()
    // An image without the last acknowledged command.
    ensures lost { (tally : Tally) (before : Trail) (talk : Conversation) (exchanges prior rest : List Exchange) (c : List ℕ) (n : ℕ)
        → Headline tally before talk exchanges → exchanges ≡ prior ++ rest → IsImage (disk_by talk.first.disk prior).now c
        → n < (log_of prior).acknowledged → n ≤ length (log_of prior).accepted → Holds (after tally (take n (log_of prior).accepted)) c
        → ⊥ }
    // An image whose count skips a command, applies commands in a different order, or includes one that was not accepted by
    // then.
    ensures skipped { (tally count : Tally) (before : Trail) (talk : Conversation) (exchanges prior rest : List Exchange)
        (x : Exchange) (c : List ℕ) → Headline tally before talk exchanges → exchanges ≡ prior ++ x ∷ rest
        → StopsWithin (disk_by talk.first.disk prior) x.disk c
        → Holds count c → count.canton ≡ tally.canton
        → ((n : ℕ) → (log_of prior).acknowledged ≤ n → n ≤ length (log_of (prior ++ x ∷ [])).accepted
        → count ≢ after tally (take n (log_of (prior ++ x ∷ [])).accepted)) → ⊥ }
    // An answer `stored` to something that gives no command.
    ensures nothing_stored { (tally : Tally) (before : Trail) (talk : Conversation) (exchanges prior rest : List Exchange)
        (x : Exchange) (number : ℕ) → Headline tally before talk exchanges → exchanges ≡ prior ++ x ∷ rest
        → x.answer ≡ answers.Reply (replies.Stored number) → x.command ≡ None → ⊥ }
    // An answer `same` to a command that the count before it would accept.
    ensures not_same { (tally : Tally) (before : Trail) (talk : Conversation) (exchanges prior rest : List Exchange)
        (x : Exchange) (command : Command) → Headline tally before talk exchanges → exchanges ≡ prior ++ x ∷ rest
        → x.answer ≡ answers.Reply replies.Same → x.command ≡ Some command
        → judge (count_by tally (log_of prior)) command ≡ verdicts.Accept → ⊥ }
    // A sheet of a different count from the one at its line.
    ensures other_count { (tally : Tally) (before : Trail) (talk : Conversation) (exchanges prior rest : List Exchange) (x : Exchange)
        (sheet : Distribution) (is_final : Bool) → Headline tally before talk exchanges → exchanges ≡ prior ++ x ∷ rest
        → x.answer ≡ answers.Sheet sheet is_final → sheet.totals ≢ totals_of (count_by tally (log_of (prior ++ x ∷ []))) → ⊥ }
    // A sheet on which the quotient of row d and column g lies exactly on the signpost k + 1/2.
    ensures half { (tally : Tally) (before : Trail) (talk : Conversation) (exchanges prior rest : List Exchange) (x : Exchange)
        (sheet : Distribution) (is_final : Bool) (d g k : ℕ) → Headline tally before talk exchanges
        → exchanges ≡ prior ++ x ∷ rest → x.answer ≡ answers.Sheet sheet is_final
        → d < (question_of sheet).rows → g < (question_of sheet).columns
        → 2 * (cell (question_of sheet).columns (question_of sheet).votes d g * (sheet.lower.divisors.scale * sheet.lower.divisors.scale))
        ≡ (2 * k + 1) * (slice_index sheet.lower.divisors.of_rows d * slice_index sheet.lower.divisors.of_columns g) → ⊥ }
    // Seats that differ from those of a sheet, by divisors of any value and scale, with halves rounded up or down.
    ensures other_seats { (tally : Tally) (before : Trail) (talk : Conversation) (exchanges prior rest : List Exchange) (x : Exchange)
        (sheet : Distribution) (is_final : Bool) (divisors : Divisors) (seats : List ℕ) → Headline tally before talk exchanges
        → exchanges ≡ prior ++ x ∷ rest → x.answer ≡ answers.Sheet sheet is_final
        → IsWeak (question_of sheet) divisors seats → seats ≢ sheet.lower.seats → ⊥ }
    // Strictly rounded seats, by any divisors, for totals that were answered with a tie.
    ensures tie { (tally : Tally) (before : Trail) (talk : Conversation) (exchanges prior rest : List Exchange) (x : Exchange)
        (targets : Targets (totals_of x.count)) (divisors : Divisors) (seats : List ℕ)
        → Headline tally before talk exchanges → exchanges ≡ prior ++ x ∷ rest → IsTie x.answer
        → IsStrict (lower_question (totals_of x.count) targets.seats targets.upper) divisors seats → ⊥ }
    // For consecutive times a and b: an acknowledgement, written by b, of a command that a stop between a and b loses.
    ensures early { (tally : Tally) (before : Trail) (talk : Conversation) (exchanges prior rest : List Exchange) (a b : Frame)
        (text c : List ℕ) (n : ℕ) → Headline tally before talk exchanges → exchanges ≡ prior ++ rest → AreNext talk a b
        → talk.first.written ≡ Some text → b.written ≡ Some (text ++ flat_map text_of prior) → StopsWithin a.disk b.disk c
        → n ≤ length (log_of prior).accepted → n < (log_of prior).acknowledged → Holds (after tally (take n (log_of prior).accepted)) c
        → ⊥ }
    // A read at a time when the answers written are not exactly those to the complete lines read so far: for example, one is
    // missing, wrong, or written twice.
    ensures late { (tally : Tally) (before : Trail) (talk : Conversation) (exchanges prior rest : List Exchange) (a b : Frame)
        (input left text : List ℕ) → Headline tally before talk exchanges → exchanges ≡ prior ++ rest → AreNext talk a b → a.kind ≡ Asks
        → talk.first.left ≡ Some (input ++ left) → a.left ≡ Some left → map (λ x. line_in x.given) prior ≡ map Some (ended_lines input)
        → talk.first.written ≡ Some text → a.written ≢ Some (text ++ flat_map text_of prior) → ⊥ }
    // For consecutive times a and b: an image, left by a stop between them, with at least two commands more than those answered
    // by a.
    ensures unanswered { (tally : Tally) (before : Trail) (talk : Conversation) (exchanges prior rest : List Exchange) (a b : Frame)
        (text c : List ℕ) (n : ℕ) → Headline tally before talk exchanges → exchanges ≡ prior ++ rest → AreNext talk a b
        → talk.first.written ≡ Some text → a.written ≡ Some (text ++ flat_map text_of prior) → StopsWithin a.disk b.disk c
        → length (log_of prior).accepted + 1 < n → n ≤ length (log_of exchanges).accepted
        → Holds (after tally (take n (log_of exchanges).accepted)) c → ⊥ }
{}

/// Another case that the promise excludes: an answer on a disk that holds no count.
pub fn promise_excludes<I: Read, O: Write, E: Write, F: Files>()
    ensures { (arguments : List (List ℕ)) (old new : World I O E F) (status : ℕ) (used : Filmed I O F.Disk F.Text) (bytes : List ℕ)
        (x : Exchange) (rest : List Exchange)
        → (promise : Promise (known I.Read O.Write E.Write F.Files F.Disk.Disk) arguments old new status used)
        → IsTrue (F.Disk.history used.disk).honest → F.disk_at old.files promise.path ≡ Some bytes
        → ((tally : Tally) → IsCanton tally.canton → ¬ HoldsFramed tally bytes) → promise.exchanges ≡ x ∷ rest → ⊥ }
{}

/// Another excluded case: a task that hands over no disk and loses the count. Whatever a stop can newly leave at the path of
/// the disk holds the count that was found.
pub fn opening_excludes<F: Files>()
    ensures gone { (task : Task) (old new : F) (tally : Tally) (path bytes c : List ℕ)
        → LeavesAsFound task (F.disk_at old) (F.left old) (F.left new) → disk_path task ≡ Some path → F.disk_at old path ≡ Some bytes
        → Holds tally bytes → F.left new c → ¬ F.left old c → ¬ Holds tally c → ⊥ }
{}

/// Opening an image that opens to a count, with the set-up of that count, gives that count, or is refused for memory or by
/// the device.
pub fn reopenings()
    ensures ends { (count : Tally) (result : Result Ledger OpenFault) (old new : Trail) → OpensTo count old.now.bytes
        → Opens count.canton result old new
        → MatchResult result (λ ledger. ledger.tally ≡ count) (λ fault. (fault ≡ faults.Memory) ⊎ (fault ≡ faults.Device)) }
    // Only these two faults can have a cause.
    ensures causes { (count : Tally) (c : List ℕ) (fault : OpenFault) → OpensTo count c → IsCause count.canton c fault
        → (fault ≡ faults.Memory) ⊎ (fault ≡ faults.Device) }
{}

/// What a run or a load leaves of an honest disk that was clean and held a count: at every moment, every image holds that count
/// after a prefix of the accepted commands; at the end, this prefix includes every acknowledged command.
///
/// Each of these images is clean again, so the law applies from one opening to the next.
pub fn kept_commands()
    ensures { (canton : Canton) (first last : History) (start end : OnDisk Office) (log : Log) (tally : Tally)
        → IsTrue last.honest → IsFrom canton first last start end → IsLogged (its_ledger start) log (its_ledger end)
        → IsCanton canton → IsCanton tally.canton → Holds tally first.trail.now.bytes → KeepsAll tally log first.trail last.trail }
{}

/// A check reads at most 280,065 bytes, more than any sheet has. The bytes read are a right sheet exactly if the whole file is.
pub fn whole_file_is_checked()
    ensures { (canton : Canton) (held : Option VoteTotals) (text : List ℕ) (right : RightSheet)
        → IsRight canton held (take 280065 text) right ↔ IsRight canton held text right }
{
    no_longer();
}
