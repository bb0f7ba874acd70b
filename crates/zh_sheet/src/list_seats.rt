//! The seats of lists, without divisors.
ghost use Rattle.std.specs.Prelude.{◌≡◌, ◌-◌, ◌*◌, ◌≤◌, length};
ghost use Rattle.zh_matrices.specs.Question.{cell};

use std::marker::Model;

/// The seats of the lists of the seated groups in each constituency, if there are no divisors to show.
#[derive(Drop)]
pub struct ListSeats {
    constituencies: u32,
    groups: Vec<u32>,
    seats: Vec<u32>,
}

impl Model for ListSeats {
    ghost use Rattle.std.specs.Prelude.{◌≡◌, ◌*◌, ◌≤◌, length};
    ghost use Rattle.zh_sheet.specs.ListSeats.{SeatsOfLists};

    ghost Value = { SeatsOfLists };

    ghost view = { λ x. record { constituencies = x.constituencies; groups = x.groups.items; seats = x.seats.items } };

    ghost invariant = { λ x. (length x.seats.items ≡ x.constituencies * length x.groups.items) × (length x.groups.items ≤ 32) };
}

impl ListSeats {
    /// The seats of the lists of these groups, by constituency and then group.
    pub(crate) fn new(constituencies: u32, groups: Vec<u32>, seats: Vec<u32>) -> Self
        requires seats { length seats.items ≡ constituencies * length groups.items }
        requires groups { length groups.items ≤ 32 }
        ensures { result ≡ record { constituencies = constituencies; groups = groups.items; seats = seats.items } }
    {
        ListSeats {
            constituencies,
            groups,
            seats,
        }
    }

    pub fn constituencies(&self) -> u32
        ensures { result ≡ self.now.constituencies }
    {
        self.constituencies
    }

    /// The numbers of the groups.
    pub fn groups(&self) -> &[u32]
        ensures groups { result.now ≡ self.now.groups }
        ensures few { length result.now ≤ 32 }
    {
        &self.groups
    }

    /// The seats of a list in a constituency. Its group is in this place of `groups`, counted from 1.
    pub fn seats(&self, constituency: u32, place: u32) -> u32
        requires from_one { 1 ≤ constituency }
        requires there { constituency ≤ self.now.constituencies }
        requires place_from_one { 1 ≤ place }
        requires place_there { place ≤ length self.now.groups }
        ensures { result ≡ cell (length self.now.groups) self.now.seats (constituency - 1) (place - 1) }
    {
        let before = (constituency - 1) as usize * self.groups.len();
        self.seats[before + (place - 1) as usize]
    }
}
