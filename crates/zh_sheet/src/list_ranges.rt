//! The fewest and the most seats that lists can have.
ghost use Rattle.std.specs.Prelude.{◌≡◌, ◌-◌, ◌≤◌, length};
ghost use Rattle.zh_matrices.specs.Question.{cell};

use crate::list_seats::ListSeats;
use std::marker::Model;

/// The fewest and the most seats of the lists of the seated groups in each constituency, if the lot decides.
#[derive(Drop)]
pub struct ListRanges {
    least: ListSeats,
    most: ListSeats,
}

impl Model for ListRanges {
    ghost use Rattle.std.specs.Prelude.{◌≡◌};
    ghost use Rattle.zh_sheet.specs.ListRanges.{RangesOfLists};

    ghost Value = { RangesOfLists };

    ghost view = { λ x. record {
      constituencies = x.least.constituencies;
      groups = x.least.groups;
      least = x.least.seats;
      most = x.most.seats;
    } };

    ghost invariant = { λ x. (x.most.constituencies ≡ x.least.constituencies) × (x.most.groups ≡ x.least.groups) };
}

impl ListRanges {
    /// The ranges between these seats of the same lists.
    pub(crate) fn new(least: ListSeats, most: ListSeats) -> Self
        requires constituencies { most.constituencies ≡ least.constituencies }
        requires groups { most.groups ≡ least.groups }
        ensures { result ≡ record {
          constituencies = least.constituencies;
          groups = least.groups;
          least = least.seats;
          most = most.seats;
        } }
    {
        ListRanges { least, most }
    }

    pub fn constituencies(&self) -> u32
        ensures { result ≡ self.now.constituencies }
    {
        self.least.constituencies()
    }

    /// The numbers of the groups.
    pub fn groups(&self) -> &[u32]
        ensures groups { result.now ≡ self.now.groups }
        ensures few { length result.now ≤ 32 }
    {
        self.least.groups()
    }

    /// The fewest seats of a list in a constituency. Its group is in this place of `groups`, counted from 1.
    pub fn least(&self, constituency: u32, place: u32) -> u32
        requires from_one { 1 ≤ constituency }
        requires there { constituency ≤ self.now.constituencies }
        requires place_from_one { 1 ≤ place }
        requires place_there { place ≤ length self.now.groups }
        ensures { result ≡ cell (length self.now.groups) self.now.least (constituency - 1) (place - 1) }
    {
        self.least.seats(constituency, place)
    }

    /// The most seats of a list in a constituency. Its group is in this place of `groups`, counted from 1.
    pub fn most(&self, constituency: u32, place: u32) -> u32
        requires from_one { 1 ≤ constituency }
        requires there { constituency ≤ self.now.constituencies }
        requires place_from_one { 1 ≤ place }
        requires place_there { place ≤ length self.now.groups }
        ensures { result ≡ cell (length self.now.groups) self.now.most (constituency - 1) (place - 1) }
    {
        self.most.seats(constituency, place)
    }
}
