//! How many returns of a group's lists are held and due.

ghost use Rattle.std.specs.Prelude.{◌≡◌, ◌≤◌, length};
ghost use Rattle.zh_count_tables.specs.Returned.{is_due, is_held, lies_within, returned_of};
ghost use Rattle.zh_tables.specs.Progress.{one_if};

use zh_returns::Count;

/// The municipalities whose returns are counted.
#[derive(Clone, Copy)]
pub(crate) enum Region {
    /// All of them.
    Canton,
    /// Those of one constituency.
    Constituency(u32),
}

/// The number of returns of a group's lists.
#[derive(Clone, Copy)]
pub(crate) struct Returned {
    /// Returns that are held, including withdrawals.
    pub held: u32,
    /// Returns that are due: one from each municipality where the list stands.
    pub due: u32,
}

fn one_if(holds: bool) -> u32
    ensures { result ≡ one_if holds }
{
    if holds { 1 } else { 0 }
}

/// Whether a municipality is in a region.
fn lies_within(count: &Count<'_>, region: Region, municipality: u32) -> bool
    requires from_one { 1 ≤ municipality }
    requires there { municipality ≤ length count.now.canton.municipalities }
    ensures { result ≡ lies_within count.now.canton region municipality }
{
    match region {
        Region::Canton => true,
        Region::Constituency(number) => count.setup().constituency_of(municipality) == number,
    }
}

/// Whether a municipality is in a region and a return of the group's list from it is held.
fn is_held(count: &Count<'_>, region: Region, group: u32, municipality: u32) -> bool
    requires from_one { 1 ≤ municipality }
    requires there { municipality ≤ length count.now.canton.municipalities }
    requires group_from_one { 1 ≤ group }
    requires group_there { group ≤ length count.now.canton.groups }
    ensures { result ≡ is_held count.now region group municipality }
{
    lies_within(count, region, municipality) && count.entry(municipality, group).is_some()
}

/// Whether a municipality is in a region and a return of the group's list from it is due.
fn is_due(count: &Count<'_>, region: Region, group: u32, municipality: u32) -> bool
    requires from_one { 1 ≤ municipality }
    requires there { municipality ≤ length count.now.canton.municipalities }
    requires group_from_one { 1 ≤ group }
    requires group_there { group ≤ length count.now.canton.groups }
    ensures { result ≡ is_due count.now.canton region group municipality }
{
    let setup = count.setup();
    lies_within(count, region, municipality)
        && setup.stands(setup.constituency_of(municipality), group)
}

/// The number of returns of a group's lists from a region.
pub(crate) fn returned_of(count: &Count<'_>, region: Region, group: u32) -> Returned
    requires from_one { 1 ≤ group }
    requires there { group ≤ length count.now.canton.groups }
    ensures { result ≡ returned_of count.now region group }
{
    let mut held = 0;
    let mut due = 0;
    for place in 0..count.setup().municipalities() {
        held += one_if(is_held(count, region, group, place + 1));
        due += one_if(is_due(count, region, group, place + 1));
    }
    Returned { held, due }
}
