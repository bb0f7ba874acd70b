//! The first list whose votes differ from those held.
ghost use Rattle.std.specs.Prelude.{◌≡◌, ◌≢◌, ◌+◌, ◌*◌, ◌↔◌, IfOk, IfNone, IfSome, IsTrue, length};
ghost use Rattle.std.specs.Option.{option_copied};
ghost use Rattle.zh_check.specs.Others.{FindsOtherVotes, IsFirstOther, IsOther, IsOtherVotes};
ghost use Rattle.zh_check.specs.Reading.{votes_read};

use crate::checked::OtherVotes;
use crate::lines::line_after;
use crate::lists::lines_before;
use std::alloc::{AllocError, Global};
use zh_districts::Setup;
use zh_totals::Totals;

/// The place of the first votes that differ from those held.
fn first_other(votes: &[u64], held: &[u64]) -> Option<usize>
    ensures first { IfSome result (IsFirstOther votes.now held.now) }
    ensures none { IfNone result (length held.now ≡ length votes.now → votes.now ≡ held.now) }
{
    for place in 0..votes.len().min(held.len()) {
        if votes[place] != held[place] {
            return Some(place);
        }
    }
    None
}

/// The report of votes that differ from those held, on the line after the first `before` lines.
fn other_after(alloc: Global, text: &[u8], before: u32, held: u64) -> Result<OtherVotes, AllocError>
    ensures { IfOk result (IsOther text.now before held) }
{
    Ok(OtherVotes {
        line: u64::from(before) + 1,
        found: line_after(alloc, text, before)?,
        held,
    })
}

/// The first list whose votes differ from those held. If there is none, which is possible if `held` is of another set-up,
/// the first line is reported.
fn other_votes(
    alloc: Global,
    setup: &Setup,
    text: &[u8],
    votes: &[u64],
    held: &[u64],
) -> Result<OtherVotes, AllocError>
    requires { length votes.now ≡ length setup.now.constituencies * length setup.now.groups }
    ensures { IfOk result (λ other. length held.now ≡ length votes.now → votes.now ≢ held.now →
        IsOtherVotes setup.now text.now votes.now held.now other) }
{
    match first_other(votes, held) {
        Some(place) => other_after(alloc, text, lines_before(setup, place), held[place]),
        None => other_after(alloc, text, 0, 0),
    }
}

/// Whether these votes are those held.
fn has_votes(votes: &[u64], held: &Totals<'_>) -> bool
    ensures { IsTrue result ↔ votes.now ≡ held.now.votes }
{
    votes == held.all()
}

/// The first list whose votes, as read from a text, are not those held. Without `held` there is none.
pub(crate) fn first_other_votes(
    alloc: Global,
    setup: &Setup,
    text: &[u8],
    votes: &[u64],
    held: Option<&Totals<'_>>,
) -> Result<Option<OtherVotes>, AllocError>
    requires { votes.now ≡ votes_read setup.now text.now }
    ensures { IfOk result (FindsOtherVotes setup.now (option_copied held.entry) text.now) }
{
    let Some(held) = held else {
        return Ok(None);
    };
    if has_votes(votes, held) {
        return Ok(None);
    }
    let other = other_votes(alloc, setup, text, votes, held.all())?;
    Ok(Some(other))
}
