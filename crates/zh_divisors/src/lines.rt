//! The divisor of a line of a matrix, by the divisor method with standard rounding: the line's seats are given one by one. The
//! next seat of a cell is worth its votes over `next_signpost`, and its last seat its votes over `last_signpost`.
ghost use Rattle.std.specs.Prelude.{◌≡◌, ◌+◌, ◌-◌, ◌*◌, ◌/◌, ◌^◌, ◌≤◌, length, slice_index, ◌<◌, ◌↔◌, IsTrue};
ghost use Rattle.zh_divisors.specs.Line.{IsMatrixLine, clamped, line_divisor};
ghost use Rattle.zh_divisors.specs.LineSeats.{AreGiven, IsLastCell, IsNextCell, IsSmallLine, last_signpost, next_signpost};
ghost use Rattle.zh_divisors.specs.Sums.{sum_to};

/// The least whole number above 2 * `votes` * 10^12 / `signpost`. With the signpost of a cell's next seat (`next_signpost`) it is
/// the least divisor, in millionths, under which the cell does not get that seat, a half rounded up.
fn least_above(votes: u64, signpost: u128) -> u128
    requires votes { votes ≤ 10 ^ 14 }
    requires positive { 1 ≤ signpost }
    ensures { result ≡ 2 * (votes * 10 ^ 12) / signpost + 1 }
{
    2 * (u128::from(votes) * 1_000_000_000_000) / signpost + 1
}

/// The greatest whole number below 2 * `votes` * 10^12 / `signpost`. With the signpost of a cell's last seat (`last_signpost`) it
/// is the greatest divisor, in millionths, under which the cell keeps that seat, a half rounded down, or 0 if there is none.
fn greatest_below(votes: u64, signpost: u128) -> u128
    requires some { 1 ≤ votes }
    requires votes { votes ≤ 10 ^ 14 }
    requires positive { 1 ≤ signpost }
    ensures { result ≡ (2 * (votes * 10 ^ 12) - 1) / signpost }
{
    (2 * (u128::from(votes) * 1_000_000_000_000) - 1) / signpost
}

/// A divisor clamped to the range from 1 to `most`.
fn hold(divisor: u128, most: u64) -> u64
    requires { 1 ≤ most }
    ensures { result ≡ clamped most divisor }
{
    divisor.clamp(1, u128::from(most)) as u64
}

/// The divisor of a row or a column of votes, in millionths, from 1 to `most`.
///
/// `others` are the divisors, in millionths, of the lines that cross it, and `target` is the number of seats that it is
/// to get. The divisor is the mean of two bounds, rounded down and then clamped (docs/DEFINITIONS.md). One bound is the
/// least divisor under which the quotients, rounded half up, add up to at most the target. The other is the greatest
/// divisor under which the quotients, rounded half down, add up to at least the target, or 0 if there is none.
pub fn line(votes: &[u64], others: &[u64], target: u32, most: u64) -> u64
    requires line { IsMatrixLine votes.now others.now }
    requires at_least_one { 1 ≤ target }
    requires at_most_400 { target ≤ 400 }
    requires most { 1 ≤ most }
    ensures { result ≡ line_divisor (length votes.now) (slice_index votes.now) (slice_index others.now) target most }
{
    let mut seats = [0u32; 32];
    let last = give_one_by_one(votes, others, target, &mut seats);
    let next = next_cell(votes, others, &seats);
    let least = least_above(votes[next], next_signpost(others, &seats, next));
    let greatest = greatest_below(votes[last], last_signpost(others, &seats, last));
    hold((least + greatest) / 2, most)
}

/// The doubled signpost of a cell's next seat (2 s + 1, if it has s seats), times the divisor, in millionths, of the line that
/// crosses there.
pub(crate) fn next_signpost(others: &[u64], seats: &[u32], cell: usize) -> u128
    requires other { cell < length others.now }
    requires seat { cell < length seats.now }
    requires small { slice_index others.now cell ≤ 10 ^ 18 }
    requires few { slice_index seats.now cell ≤ 400 }
    ensures signpost { result ≡ next_signpost others.now seats.now cell }
    ensures most { result ≤ 801 * 10 ^ 18 }
{
    u128::from(others[cell]) * (2 * u128::from(seats[cell]) + 1)
}

/// The doubled signpost of a cell's last seat (2 s - 1, if it has s seats), times the divisor, in millionths, of the line that
/// crosses there.
pub(crate) fn last_signpost(others: &[u64], seats: &[u32], cell: usize) -> u128
    requires other { cell < length others.now }
    requires seat { cell < length seats.now }
    requires small { slice_index others.now cell ≤ 10 ^ 18 }
    requires few { slice_index seats.now cell ≤ 400 }
    requires seated { 1 ≤ slice_index seats.now cell }
    ensures { result ≡ last_signpost others.now seats.now cell }
{
    u128::from(others[cell]) * (2 * u128::from(seats[cell]) - 1)
}

/// Votes times a signpost as `next_signpost` gives it. The product fits into 128 bits.
fn times(votes: u64, signpost: u128) -> u128
    requires votes { votes ≤ 10 ^ 14 }
    requires signpost { signpost ≤ 801 * 10 ^ 18 }
    ensures { result ≡ votes * signpost }
{
    u128::from(votes) * signpost
}

/// Whether the next seat of `j` is worth more than that of `k`.
fn next_is_worth_more(votes: &[u64], others: &[u64], seats: &[u32], j: usize, k: usize) -> bool
    requires small { IsSmallLine votes.now others.now seats.now }
    requires j { j < length votes.now }
    requires k { k < length votes.now }
    ensures { IsTrue result ↔ (slice_index votes.now k * next_signpost others.now seats.now j
        < slice_index votes.now j * next_signpost others.now seats.now k) }
{
    let ahead = times(votes[k], next_signpost(others, seats, j));
    ahead < times(votes[j], next_signpost(others, seats, k))
}

/// A cell whose next seat is worth most.
pub(crate) fn next_cell(votes: &[u64], others: &[u64], seats: &[u32]) -> usize
    requires { IsSmallLine votes.now others.now seats.now }
    ensures { IsNextCell votes.now others.now seats.now (length votes.now) result }
{
    let mut next = 0;
    for j in 1..votes.len() {
        if next_is_worth_more(votes, others, seats, j, next) {
            next = j;
        }
    }
    next
}

/// Gives `target` seats one by one, each to a cell to which it is worth most. Returns the cell that got the last seat.
pub(crate) fn give_one_by_one(
    votes: &[u64],
    others: &[u64],
    target: u32,
    seats: &mut [u32],
) -> usize
    requires line { IsMatrixLine votes.now others.now }
    requires at_least_one { 1 ≤ target }
    requires at_most_400 { target ≤ 400 }
    requires room { length votes.now ≤ length seats.old }
    requires empty { sum_to (length votes.now) (slice_index seats.old) ≡ 0 }
    ensures given { AreGiven votes.now others.now seats.new target }
    ensures last { IsLastCell votes.now others.now seats.new result }
{
    let mut last = 0;
    for _given in 0..target {
        last = next_cell(votes, others, seats);
        seats[last] += 1;
    }
    last
}
