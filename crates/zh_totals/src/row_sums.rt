//! The sums of the rows of a table of votes, which can be more than an election may have.
ghost use Rattle.std.specs.Prelude.{◌≡◌, ◌+◌, ◌*◌, ◌^◌, ◌<◌, ◌≤◌, IfOk, MatchOption, length};
ghost use Rattle.zh_totals.specs.GivenVotes.{AreRowSums, votes_from, votes_of_rows};

use std::alloc::{AllocError, Global};

/// The greatest number of votes of an election.
const MOST: u64 = 100_000_000_000_000;

/// The sum of `count` numbers of votes from a place on. None if it is more than an election may have.
fn votes_from(votes: &[u64], first: usize, count: usize) -> Option<u64>
    requires { first + count ≤ length votes.now }
    ensures { MatchOption result (10 ^ 14 < votes_from votes.now first count)
        (λ sum. (sum ≡ votes_from votes.now first count) × (sum ≤ 10 ^ 14)) }
{
    let mut sum = 0;
    for place in 0..count {
        let more = votes[first + place];
        if more > MOST - sum {
            return None;
        }
        sum += more;
    }
    Some(sum)
}

/// The sum of each row. None if all rows together have more votes than an election may have. Fails if memory is refused.
pub(crate) fn row_sums(
    alloc: Global,
    votes: &[u64],
    rows: usize,
    columns: usize,
) -> Result<Option<Vec<u64>>, AllocError>
    requires each { length votes.now ≡ rows * columns }
    requires rows { rows ≤ 32 }
    requires columns { columns ≤ 32 }
    ensures { IfOk result (λ found. MatchOption found (10 ^ 14 < votes_of_rows votes.now columns rows)
        (λ sums. AreRowSums votes.now columns rows sums.items)) }
{
    let mut sums = Vec::with_capacity(alloc, rows)?;
    let mut all = 0;
    for row in 0..rows {
        let Some(sum) = votes_from(votes, row * columns, columns) else {
            return Ok(None);
        };
        if sum > MOST - all {
            return Ok(None);
        }
        all += sum;
        sums.push(sum)?;
    }
    Ok(Some(sums))
}
