//! Replies and their spelling.
ghost use Rattle.std.specs.Prelude.{◌≡◌, ◌≤◌, [], ◌∷◌, ◌++◌, length, take};
ghost use Rattle.zh_commands.specs.Replies.{name, reason_name, answer, reply_text};
ghost use Rattle.zh_text.specs.Names.{ArePartsOf};

use arrayvec::ArrayVec;
use zh_returns::{Reason, RowFault};
use zh_sheet::SheetRefusal;
use zh_text::{Name, push, push_name, push_numbered, push_numeral};

/// The reply to a line of a desk.
#[derive(Clone, Copy)]
pub enum Reply {
    /// The command is stored. The number counts the accepted commands, this one included.
    Stored(u64),
    /// Nothing has to be stored: the count already holds what the command says, or the batch has no rows.
    Same,
    /// The desk's batch now has this many rows; 0 after `open`.
    Held(u32),
    /// The desk's batch was given up; it had this many rows.
    Dropped(u32),
    /// Nothing is held for the list in the municipality.
    Nothing,
    /// The replacement number and the votes that are held.
    Shows(u32, u32),
    /// The replacement number of a withdrawal.
    ShowsWithdrawn(u32),
    /// The desk that set what is held, 1 to 8. 0 if there is none: it was loaded, or comes from a slot of format 1,
    /// which has no desks.
    LastDesk(u8),
    /// The line is refused. The count and the batches are unchanged, and so is the disk, except after `Device`.
    Refused(Refusal),
}

/// Why a line is refused. `docs/FORMATS.md`, "Replies", has the names.
#[derive(Clone, Copy)]
pub enum Refusal {
    /// The line has none of the forms, or more than 120 bytes; or a record to be loaded has a field that is not a
    /// numeral, or the replacement number 0.
    Syntax,
    /// The first word is a numeral, but not 1 to 8.
    Desk,
    /// The count refuses a command, a row or a question, for the reason given.
    Judged(Reason),
    /// The batch does not take the row, for the reason given.
    Row(RowFault),
    /// The desk has no batch.
    NoBatch,
    /// An allocation was refused.
    Memory,
    /// The disk failed. It might contain the command or not.
    Device,
    /// The disk failed at an earlier line and has to be opened again.
    ReopenDisk,
    /// The number of accepted commands is at its limit, 2^64 - 1; or a new snapshot is needed, because too few pages are left or
    /// the slot in use has format 1, and the generation is at that limit.
    Spent,
    /// The desk already has a batch.
    BatchOpen,
    /// The text to be loaded can't be read, or does not have the form in `docs/FORMATS.md`, "CSV".
    Csv,
    /// There is no sheet, for the reason given.
    Sheet(SheetRefusal),
}

/// A line of at most 64 bytes. A reply has no more.
pub type ReplyLine = ArrayVec<u8, 64>;

/// Writes a reply to the front of `out`, as described in `docs/FORMATS.md`, "Replies", and returns the number of its
/// bytes.
///
/// No clause says what is in the rest of `out`. It allocates nothing.
pub fn write_reply(desk: u8, reply: &Reply, out: &mut [u8; 64]) -> usize
    ensures text { take result out.new ≡ reply_text desk reply.now }
    ensures short { result ≤ 64 }
{
    let mut text = ReplyLine::new();
    push_numeral(&mut text, u64::from(desk));
    push(&mut text, " ");
    push_answer(&mut text, reply);
    push(&mut text, "\n");
    out[..text.len()].copy_from_slice(&text);
    text.len()
}

/// The line of a reply without the desk.
pub fn answer_line(reply: &Reply) -> ReplyLine
    ensures { result.items ≡ answer reply.now ++ 10 ∷ [] }
{
    let mut line = ReplyLine::new();
    push_answer(&mut line, reply);
    push(&mut line, "\n");
    line
}

// Appends what the reply says after the desk.
fn push_answer(text: &mut ReplyLine, reply: &Reply)
    requires { length text.old.items ≤ 4 }
    ensures answer { text.new.items ≡ text.old.items ++ answer reply.now }
    ensures short { length text.new.items ≤ 63 }
{
    match reply {
        Reply::Stored(accepted) => {
            push(text, "stored ");
            push_numeral(text, *accepted);
        }
        Reply::Same => push(text, "same"),
        Reply::Held(rows) => push_numbered(text, "held ", *rows),
        Reply::Dropped(rows) => push_numbered(text, "dropped ", *rows),
        Reply::Nothing => push(text, "none"),
        Reply::Shows(number, votes) => {
            push_numbered(text, "shows ", *number);
            push_numbered(text, " ", *votes);
        }
        Reply::ShowsWithdrawn(number) => {
            push_numbered(text, "shows ", *number);
            push(text, " withdrawn");
        }
        Reply::LastDesk(desk) => push_numbered(text, "last ", u32::from(*desk)),
        Reply::Refused(refusal) => {
            push(text, "refused ");
            push_name(text, name_of(refusal));
        }
    }
}

// The name of a refusal.
fn name_of(refusal: &Refusal) -> Name
    ensures { ArePartsOf (name refusal.now) result }
{
    match refusal {
        Refusal::Syntax => Name::Words("syntax"),
        Refusal::Desk => Name::Words("desk"),
        Refusal::Judged(reason) => name_of_reason(reason),
        Refusal::Row(fault) => Name::Words(fault.name()),
        Refusal::NoBatch => Name::Words("nobatch"),
        Refusal::Memory => Name::Words("memory"),
        Refusal::Device => Name::Words("device"),
        Refusal::ReopenDisk => Name::Words("reopen-disk"),
        Refusal::Spent => Name::Words("spent"),
        Refusal::BatchOpen => Name::Words("batchopen"),
        Refusal::Csv => Name::Words("csv"),
        Refusal::Sheet(refusal) => refusal.name(),
    }
}

// The name of a reason.
fn name_of_reason(reason: &Reason) -> Name
    ensures { ArePartsOf (reason_name reason.now) result }
{
    match reason {
        Reason::Municipality => Name::Words("municipality"),
        Reason::List => Name::Words("list"),
        Reason::Votes => Name::Words("votes"),
        Reason::Closed => Name::Words("closed"),
        Reason::Stale => Name::Words("stale"),
        Reason::Gap => Name::Words("gap"),
        Reason::Conflict => Name::Words("conflict"),
        Reason::NotClosed(number) => Name::Number("notclosed", *number),
    }
}
