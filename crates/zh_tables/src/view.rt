//! The views of the returns, and the lines that go with each.
ghost use Rattle.std.specs.Prelude.{◌≡◌, ◌++◌, ◌≤◌, IfOk, length};
ghost use Rattle.zh_tables.specs.Status.{IsSaidOf, summary, summary_of, would_be};

use crate::implausible::{found_seats, push_note};
use crate::progress::{Progress, Region, progress_within};
use arrayvec::ArrayVec;
use std::alloc::{AllocError, Global};
use zh_returns::Count;
use zh_text::{push, push_numbered, push_numeral};

/// A view of the returns.
#[derive(Clone, Copy)]
pub enum View {
    /// Each municipality, with how many of its returns are in.
    Municipalities,
    /// Each constituency, with how many of its returns are in.
    Constituencies,
    /// Each return that is missing.
    Missing,
    /// Implausible votes.
    Implausible,
}

/// Whether a final sheet would be of all returns, in words.
fn would_be(progress: &Progress) -> &str
    ensures { result.now ≡ would_be progress.now }
{
    if progress.missing == 0 {
        "would be"
    } else {
        "would not be"
    }
}

/// Room for the lines that go with a view.
pub(crate) type Said = ArrayVec<u8, 320>;

/// Appends a line with the returns held and due, the municipalities that are closed and all of them, the commands accepted,
/// and whether a final sheet would be of all returns.
fn push_progress(text: &mut Said, progress: &Progress, accepted: u64)
    requires { length text.old.items ≤ 94 }
    ensures { text.new.items ≡ text.old.items ++ summary_of progress.now accepted }
{
    push_numbered(text, "", progress.held);
    push_numbered(text, " of ", progress.due);
    push_numbered(text, " returns, ", progress.closed);
    push_numbered(text, " of ", progress.municipalities);
    push(text, " municipalities closed, ");
    push_numeral(text, accepted);
    push(text, " commands; final ");
    push(text, would_be(progress));
    push(text, " of all returns\n");
}

/// Appends the line of `push_progress` for the whole canton.
fn push_summary(text: &mut Said, count: &Count<'_>)
    requires { length text.old.items ≤ 94 }
    ensures { text.new.items ≡ text.old.items ++ summary count.now }
{
    let progress = progress_within(count, Region::Whole);
    push_progress(text, &progress, count.accepted());
}

/// The lines that go with a view: one with how many returns are in from the whole canton. For implausible votes, if the
/// constituencies get no seats, a line above it says that votes are not compared with persons. Fails if memory is refused.
pub fn said_of(alloc: Global, count: &Count<'_>, view: View) -> Result<Vec<u8>, AllocError>
    ensures { IfOk result (λ text. IsSaidOf count.now view text.items) }
{
    let mut said = Said::new();
    if view == View::Implausible {
        push_note(&mut said, &found_seats(alloc, count.setup())?);
    }
    push_summary(&mut said, count);
    Vec::from_slice(alloc, &said)
}
