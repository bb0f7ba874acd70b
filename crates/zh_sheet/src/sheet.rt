//! A sheet: the seats of the groups in the constituencies, with everything that they follow from.
ghost use Rattle.std.specs.Prelude.{◌≡◌, ◌-◌, ◌<◌, ◌≤◌, if◌then◌else◌, Some, None, IfSome, [], length, slice_get, slice_index};
ghost use Rattle.std.specs.Option.{option_map_or};

use crate::above::Above;
use crate::list_question::{ListQuestion, column_of};
use std::marker::Model;
use zh_districts::Setup;
use zh_divisors::Shares;
use zh_lower::Lower;
use zh_totals::Totals;
use zh_upper::{Upper, voter_number};

/// The distribution of the seats of an election, with everything that it follows from (GPR sections 88 and 102 to 104): the
/// votes, the seats of the constituencies and of the groups with their divisors, and the seats of each list.
///
/// Each sheet meets the definitions: a clause of `setup` says so. Constituencies and groups are numbered from 1.
#[derive(Drop)]
pub struct Sheet<'s> {
    pub(crate) totals: Totals<'s>,
    pub(crate) seats: Shares,
    pub(crate) taking: Vec<bool>,
    pub(crate) voters: Vec<u64>,
    pub(crate) upper: Upper,
    pub(crate) seated: Vec<u32>,
    pub(crate) lower: Lower,
}

impl<'s> Model for Sheet<'s> {
    ghost use Rattle.zh_sheet.specs.Distribution.{Distribution};
    ghost use Rattle.zh_sheet.specs.Inside.{IsSheetInside, distribution_in};

    ghost Value = { Distribution };

    ghost view = { distribution_in };

    ghost invariant = { IsSheetInside };
}

impl<'s> Sheet<'s> {
    ghost use Rattle.zh_matrices.specs.Divisors.{millionths};
    ghost use Rattle.zh_sheet.specs.Distribution.{IsDistribution};
    ghost use Rattle.zh_sheet.specs.Given.{DoFollow};
    ghost use Rattle.zh_sheet.specs.Readings.{column_of, list_seats, takes_part};
    ghost use Rattle.zh_sheet.specs.Stages.{IsAsked, distribution_with, question_in};
    ghost use Rattle.zh_totals.specs.Totals.{votes_in};
    ghost use Rattle.zh_upper.specs.VoterNumbers.{voter_number};

    /// The sheet with these seats of the lists, which follow from what was asked with the divisors in `lower`. The divisors
    /// must be in millionths.
    pub(crate) fn with_lists(totals: Totals<'s>, asked: ListQuestion, lower: Lower) -> Sheet<'s>
        requires asked { IsAsked totals asked }
        requires follow { DoFollow (question_in asked) lower }
        requires divisors { lower.divisors ≡ millionths lower.divisors.of_rows lower.divisors.of_columns }
        ensures { result ≡ distribution_with totals.entry asked.above lower }
    {
        let Above {
            seats,
            taking,
            voters,
            upper,
        } = asked.above;
        Sheet {
            totals,
            seats,
            taking,
            voters,
            upper,
            seated: asked.seated,
            lower,
        }
    }

    /// The set-up of the election. This also ensures that the sheet meets the definitions.
    pub fn setup(&self) -> &'s Setup
        ensures setup { result.now ≡ self.now.totals.canton }
        ensures meets { IsDistribution self.now }
    {
        self.totals.setup()
    }

    /// The votes of the election.
    pub fn totals(&self) -> &Totals<'s>
        ensures { result.now ≡ self.now.totals }
    {
        &self.totals
    }

    /// The seats of the constituencies, with their divisor.
    pub fn seats(&self) -> &Shares
        ensures { result.now ≡ self.now.seats }
    {
        &self.seats
    }

    /// The seats of the groups in the whole canton, with their divisor.
    pub fn upper(&self) -> &Upper
        ensures { result.now ≡ self.now.upper }
    {
        &self.upper
    }

    /// The seats of a constituency, at least one.
    pub fn constituency_seats(&self, constituency: u32) -> u32
        requires from_one { 1 ≤ constituency }
        requires there { constituency ≤ length self.now.totals.canton.constituencies }
        ensures seats { result ≡ slice_index self.now.seats.seats (constituency - 1) }
        ensures seated { 1 ≤ result }
    {
        self.seats.seats()[(constituency - 1) as usize]
    }

    /// The divisor of a constituency for the seats of its lists, in millionths.
    pub fn constituency_divisor(&self, constituency: u32) -> u64
        requires from_one { 1 ≤ constituency }
        requires there { constituency ≤ length self.now.totals.canton.constituencies }
        ensures { result ≡ slice_index self.now.lower.divisors.of_rows (constituency - 1) }
    {
        self.lower.row_divisor(constituency)
    }

    /// The name of a constituency, at most 40 bytes.
    pub fn constituency_name(&self, constituency: u32) -> &str
        requires from_one { 1 ≤ constituency }
        requires there { constituency ≤ length self.now.totals.canton.constituencies }
        ensures name { result.now ≡ option_map_or (λ c. c.name) (slice_get self.now.totals.canton.constituencies (constituency - 1)) [] }
        ensures short { length result.now ≤ 40 }
    {
        self.setup().constituency_name(constituency)
    }

    /// Whether a group takes part in the apportionment.
    pub fn takes_part(&self, group: u32) -> bool
        requires from_one { 1 ≤ group }
        requires there { group ≤ length self.now.totals.canton.groups }
        ensures { result ≡ takes_part self.now group }
    {
        self.taking[(group - 1) as usize]
    }

    /// The voter sum of a group. None if it does not take part.
    pub fn voters(&self, group: u32) -> Option<u64>
        requires from_one { 1 ≤ group }
        requires there { group ≤ length self.now.totals.canton.groups }
        ensures { result ≡ (if takes_part self.now group then Some (slice_index self.now.voters (group - 1)) else None) }
    {
        if self.takes_part(group) {
            Some(self.voters[(group - 1) as usize])
        } else {
            None
        }
    }

    /// The seats of a group in the whole canton.
    pub fn group_seats(&self, group: u32) -> u32
        requires from_one { 1 ≤ group }
        requires there { group ≤ length self.now.totals.canton.groups }
        ensures { result ≡ slice_index self.now.upper.seats (group - 1) }
    {
        self.upper.seats(group)
    }

    /// The place of a group among the seated groups, from 0. None if it has no seats.
    fn column(&self, group: u32) -> Option<usize>
        ensures place { result ≡ column_of self.now group }
        ensures there { IfSome result (λ column. column < length self.now.lower.divisors.of_columns) }
        ensures few { IfSome result (λ column. column < 32) }
    {
        column_of(&self.seated, group)
    }

    /// The divisor of a group for the seats of its lists, in millionths. None if it has no seats.
    pub fn group_divisor(&self, group: u32) -> Option<u64>
        ensures { result ≡ option_map_or (λ column. Some (slice_index self.now.lower.divisors.of_columns column))
            (column_of self.now group) None }
    {
        let column = self.column(group)?;
        Some(self.lower.column_divisor(column as u32 + 1))
    }

    /// The name of a group, at most 40 bytes.
    pub fn group_name(&self, group: u32) -> &str
        requires from_one { 1 ≤ group }
        requires there { group ≤ length self.now.totals.canton.groups }
        ensures name { result.now ≡ option_map_or (λ g. g.name) (slice_get self.now.totals.canton.groups (group - 1)) [] }
        ensures short { length result.now ≤ 40 }
    {
        self.setup().group_name(group)
    }

    /// The voter number of a list: its votes over the seats of its constituency, rounded half up. None if its group does not
    /// take part.
    pub fn list_voters(&self, constituency: u32, group: u32) -> Option<u64>
        requires from_one { 1 ≤ constituency }
        requires there { constituency ≤ length self.now.totals.canton.constituencies }
        requires group_from_one { 1 ≤ group }
        requires group_there { group ≤ length self.now.totals.canton.groups }
        ensures { result ≡ (if takes_part self.now group
            then Some (voter_number (votes_in self.now.totals constituency group) (slice_index self.now.seats.seats (constituency - 1)))
            else None) }
    {
        if self.takes_part(group) {
            let votes = self.totals.votes(constituency, group);
            Some(voter_number(votes, self.constituency_seats(constituency)))
        } else {
            None
        }
    }

    /// The seats of a list, 0 if its group has none.
    pub fn list_seats(&self, constituency: u32, group: u32) -> u32
        requires from_one { 1 ≤ constituency }
        requires there { constituency ≤ length self.now.totals.canton.constituencies }
        ensures { result ≡ list_seats self.now constituency group }
    {
        match self.column(group) {
            Some(column) => self.lower.seats(constituency, column as u32 + 1),
            None => 0,
        }
    }
}
