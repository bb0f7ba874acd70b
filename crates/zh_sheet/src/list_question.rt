//! The question for the lower apportionment: constituencies in rows, and seated groups (those with upper seats) in columns.
ghost use Rattle.std.specs.List.{range_with_len};
ghost use Rattle.std.specs.Prelude.{◌≡◌, ◌-◌, ◌≤◌, length, IfOk, ◌^◌, ◌++◌, ◌==◌, All, OnOk, flat_map, map, position};
ghost use Rattle.std.specs.Prelude.{slice_index};
ghost use Rattle.zh_sheet.specs.Distribution.{seated_groups};
ghost use Rattle.zh_sheet.specs.Stages.{IsAboveLists, IsAsked, question_in};
ghost use Rattle.zh_totals.specs.Totals.{votes_in};

use crate::above::{Above, seats_above};
use crate::fault::SheetFault;
use std::alloc::{AllocError, Global};
use zh_matrices::{Matrix, Question};
use zh_totals::Totals;
use zh_upper::Upper;

/// The votes of the seated groups in each constituency, and the seats that constituencies and groups are to get, with
/// everything that these seats follow from.
#[derive(Drop)]
pub(crate) struct ListQuestion {
    pub above: Above,
    /// The numbers of the groups with upper seats, the columns, in order.
    pub seated: Vec<u32>,
    pub column_totals: Vec<u32>,
    pub matrix: Matrix,
}

impl ListQuestion {
    ghost use Rattle.zh_matrices.specs.Asked.{asked};

    /// The question for these totals, or the first reason why constituencies or groups get no seats. `Memory` can come in place
    /// of either.
    pub fn of(alloc: Global, totals: &Totals<'_>) -> Result<ListQuestion, SheetFault>
        ensures { IsAboveLists (IsAsked totals.now) totals.now result }
    {
        let above = seats_above(alloc, totals)?;
        let setup = totals.setup();
        let seated = seated_groups(alloc, &above.upper, setup.groups())?;
        let column_totals = seats_of(alloc, &above.upper, &seated)?;
        let votes = votes_of(alloc, totals, &seated)?;
        let matrix = Matrix::new(alloc, setup.constituencies() as usize, seated.len(), &votes)?;
        Ok(ListQuestion {
            above,
            seated,
            column_totals,
            matrix,
        })
    }
}

/// The numbers of the groups with upper seats, in order.
fn seated_groups(alloc: Global, upper: &Upper, groups: u32) -> Result<Vec<u32>, AllocError>
    requires { groups ≡ length upper.now.seats }
    ensures { IfOk result (λ seated. seated.items ≡ seated_groups upper.now.seats) }
{
    let mut seated = Vec::with_capacity(alloc, groups as usize)?;
    for place in 0..groups {
        if upper.seats(place + 1) > 0 {
            seated.push(place + 1)?;
        }
    }
    Ok(seated)
}

/// The upper seats of these groups.
fn seats_of(alloc: Global, upper: &Upper, seated: &[u32]) -> Result<Vec<u32>, AllocError>
    requires { All (λ g. (1 ≤ g) × (g ≤ length upper.now.seats)) seated.now }
    ensures { IfOk result (λ seats. seats.items ≡ map (λ g. slice_index upper.now.seats (g - 1)) seated.now) }
{
    let mut seats = Vec::with_capacity(alloc, seated.len())?;
    for group in seated {
        seats.push(upper.seats(*group))?;
    }
    Ok(seats)
}

/// Appends the votes of these groups in a constituency.
fn push_votes(
    votes: &mut Vec<u64>,
    totals: &Totals<'_>,
    constituency: u32,
    seated: &[u32],
) -> Result<(), AllocError>
    requires from_one { 1 ≤ constituency }
    requires there { constituency ≤ length totals.now.canton.constituencies }
    requires seated { All (λ g. (1 ≤ g) × (g ≤ length totals.now.canton.groups)) seated.now }
    requires small { All (λ v. v ≤ 10 ^ 14) votes.old.items }
    ensures votes { OnOk result (votes.new.items ≡ votes.old.items ++ map (votes_in totals.now constituency) seated.now) }
    ensures small { OnOk result (All (λ v. v ≤ 10 ^ 14) votes.new.items) }
{
    for group in seated {
        votes.push(totals.votes(constituency, *group))?;
    }
    Ok(())
}

/// The votes of these groups, constituency by constituency.
fn votes_of(alloc: Global, totals: &Totals<'_>, seated: &[u32]) -> Result<Vec<u64>, AllocError>
    requires { All (λ g. (1 ≤ g) × (g ≤ length totals.now.canton.groups)) seated.now }
    ensures votes { IfOk result (λ votes. votes.items ≡
        flat_map (λ d. map (votes_in totals.now d) seated.now) (range_with_len 1 (length totals.now.canton.constituencies))) }
    ensures small { IfOk result (λ votes. All (λ v. v ≤ 10 ^ 14) votes.items) }
{
    let mut votes = Vec::new(alloc);
    for place in 0..totals.setup().constituencies() {
        push_votes(&mut votes, totals, place + 1, seated)?;
    }
    Ok(votes)
}

/// The place of a group among these, from 0. None if it is not among them.
pub(crate) fn column_of(seated: &[u32], group: u32) -> Option<usize>
    ensures { result ≡ position (λ seated. seated == group) seated.now }
{
    seated.iter().position(|seated| *seated == group)
}
