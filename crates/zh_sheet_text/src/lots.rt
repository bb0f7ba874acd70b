//! What the lot decides, as text.

ghost use Rattle.std.specs.Prelude.{◌≡◌, ◌≤◌, ◌++◌, OnOk, false, length, slice_index, slice_index_or};
ghost use Rattle.zh_text.specs.Each.{each_to};
ghost use Rattle.zh_sheet_text.specs.Lots.{constituency_behind, group_behind, lines_in, list_behind, list_lines, lot_text};
ghost use Rattle.zh_sheet_text.specs.Lots.{range_line, range_of, tied_constituency_line, tied_group_line, tied_list_line};

use crate::refusals::{push_line, push_spaced};
use std::alloc::AllocError;
use zh_districts::Setup;
use zh_sheet::{ListRanges, Lot, SeatRanges};
use zh_text::push_number;

/// A list with the fewest and the most seats that it has in any distribution.
#[derive(Clone, Copy)]
struct ListRange {
    constituency: u32,
    group: u32,
    least: u32,
    most: u32,
}

/// Which lists have a line.
#[derive(Clone, Copy)]
enum Listed {
    /// Those whose seats differ between the distributions.
    Differing,
    /// Those with the same seats in each distribution, at least one.
    Same,
}

/// Whether the mark at an index is set. Past the end it is not.
fn is_marked(marks: &[bool], place: usize) -> bool
    ensures { result ≡ slice_index_or marks.now place false }
{
    marks.get(place).copied().unwrap_or(false)
}

/// The number at an index, or 0 past the end.
fn number_in(numbers: &[u32], place: usize) -> u32
    ensures { result ≡ slice_index numbers.now place }
{
    numbers.get(place).copied().unwrap_or(0)
}

/// The name of a constituency, or an empty text if there is no such constituency.
fn constituency_behind(setup: &Setup, constituency: u32) -> &str
    ensures { result.now ≡ constituency_behind setup.now constituency }
{
    if constituency >= 1 && constituency <= setup.constituencies() {
        setup.constituency_name(constituency)
    } else {
        ""
    }
}

/// The name of a group, or an empty text if there is no such group.
fn group_behind(setup: &Setup, group: u32) -> &str
    ensures { result.now ≡ group_behind setup.now group }
{
    if group >= 1 && group <= setup.groups() {
        setup.group_name(group)
    } else {
        ""
    }
}

/// Appends a space and the names of a list, which follow its numbers.
fn push_behind(out: &mut Vec<u8>, setup: &Setup, list: ListRange) -> Result<(), AllocError>
    ensures { OnOk result (out.new.items ≡ out.old.items ++ list_behind setup.now list) }
{
    out.push(b' ')?;
    out.extend_from_slice(constituency_behind(setup, list.constituency).as_bytes())?;
    out.extend_from_slice(b", ")?;
    out.extend_from_slice(group_behind(setup, list.group).as_bytes())
}

/// Appends the line of a constituency, if it is marked.
fn push_constituency(
    out: &mut Vec<u8>,
    setup: &Setup,
    marks: &[bool],
    constituency: u32,
) -> Result<(), AllocError>
    requires { 1 ≤ constituency }
    ensures { OnOk result (out.new.items ≡ out.old.items ++ tied_constituency_line setup.now marks.now constituency) }
{
    if is_marked(marks, (constituency - 1) as usize) {
        out.push(b'\n')?;
        push_number(out, constituency)?;
        out.push(b' ')?;
        out.extend_from_slice(constituency_behind(setup, constituency).as_bytes())
    } else {
        Ok(())
    }
}

/// Appends the lines of the marked constituencies.
fn push_constituencies(out: &mut Vec<u8>, setup: &Setup, marks: &[bool]) -> Result<(), AllocError>
    ensures { OnOk result (out.new.items ≡ out.old.items
        ++ each_to (length setup.now.constituencies) (tied_constituency_line setup.now marks.now)) }
{
    for place in 0..setup.constituencies() {
        push_constituency(out, setup, marks, place + 1)?;
    }
    Ok(())
}

/// Appends the line of a group, if its seats differ.
fn push_range(
    out: &mut Vec<u8>,
    setup: &Setup,
    group: u32,
    least: u32,
    most: u32,
) -> Result<(), AllocError>
    ensures { OnOk result (out.new.items ≡ out.old.items ++ range_line setup.now group least most) }
{
    if least < most {
        push_line(out, group, least, most)?;
        out.push(b' ')?;
        out.extend_from_slice(group_behind(setup, group).as_bytes())
    } else {
        Ok(())
    }
}

/// Appends the lines of the groups whose seats differ.
fn push_groups(out: &mut Vec<u8>, setup: &Setup, ranges: &SeatRanges) -> Result<(), AllocError>
    ensures { OnOk result (out.new.items ≡ out.old.items
        ++ each_to (length setup.now.groups) (tied_group_line setup.now ranges.now)) }
{
    for place in 0..setup.groups() {
        let least = number_in(&ranges.least, place as usize);
        let most = number_in(&ranges.most, place as usize);
        push_range(out, setup, place + 1, least, most)?;
    }
    Ok(())
}

/// Appends the line of a list, if `listed` selects it.
fn push_listed(
    out: &mut Vec<u8>,
    setup: &Setup,
    listed: Listed,
    list: ListRange,
) -> Result<(), AllocError>
    ensures { OnOk result (out.new.items ≡ out.old.items ++ tied_list_line setup.now listed list) }
{
    match listed {
        Listed::Differing if list.least < list.most => {
            push_line(out, list.constituency, list.group, list.least)?;
            push_spaced(out, list.most)?;
            push_behind(out, setup, list)
        }
        Listed::Same if list.least >= list.most && list.least > 0 => {
            push_line(out, list.constituency, list.group, list.least)?;
            push_behind(out, setup, list)
        }
        _ => Ok(()),
    }
}

/// The list of a constituency and of the group at a place in `groups`, counted from 1.
fn range_of(lists: &ListRanges, constituency: u32, place: u32) -> ListRange
    requires from_one { 1 ≤ constituency }
    requires there { constituency ≤ lists.now.constituencies }
    requires place_from_one { 1 ≤ place }
    requires place_there { place ≤ length lists.now.groups }
    ensures { result ≡ range_of lists.now constituency place }
{
    ListRange {
        constituency,
        group: lists.groups()[(place - 1) as usize],
        least: lists.least(constituency, place),
        most: lists.most(constituency, place),
    }
}

/// Appends a line for each list of a constituency that `listed` selects, among those of the groups in `lists`.
fn push_listed_in(
    out: &mut Vec<u8>,
    setup: &Setup,
    listed: Listed,
    lists: &ListRanges,
    constituency: u32,
) -> Result<(), AllocError>
    requires from_one { 1 ≤ constituency }
    requires there { constituency ≤ lists.now.constituencies }
    ensures { OnOk result (out.new.items ≡ out.old.items ++ lines_in setup.now listed lists.now constituency) }
{
    for place in 0..lists.groups().len() {
        let list = range_of(lists, constituency, place as u32 + 1);
        push_listed(out, setup, listed, list)?;
    }
    Ok(())
}

/// Appends a line for each list that `listed` selects, by constituency, among those of the groups in `lists`.
fn push_lists(
    out: &mut Vec<u8>,
    setup: &Setup,
    listed: Listed,
    lists: &ListRanges,
) -> Result<(), AllocError>
    ensures { OnOk result (out.new.items ≡ out.old.items ++ list_lines setup.now listed lists.now) }
{
    for place in 0..lists.constituencies() {
        push_listed_in(out, setup, listed, lists, place + 1)?;
    }
    Ok(())
}

/// Appends what the lot decides.
pub(crate) fn push_lot(out: &mut Vec<u8>, setup: &Setup, lot: &Lot) -> Result<(), AllocError>
    ensures { OnOk result (out.new.items ≡ out.old.items ++ lot_text setup.now lot.now) }
{
    match lot {
        Lot::Constituencies(marks) => {
            out.extend_from_slice(
                b"the lot decides between distributions that differ in these constituencies",
            )?;
            push_constituencies(out, setup, marks)
        }
        Lot::Groups(ranges) => {
            out.extend_from_slice(
                b"the lot decides between distributions that differ in these groups",
            )?;
            push_groups(out, setup, ranges)
        }
        Lot::Lists(lists) => {
            out.extend_from_slice(
                b"the lot decides between distributions that differ in these lists",
            )?;
            push_lists(out, setup, Listed::Differing, lists)?;
            out.extend_from_slice(b"\nall other lists have the same seats in each")?;
            push_lists(out, setup, Listed::Same, lists)
        }
    }
}
