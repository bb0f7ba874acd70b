//! The function that the module exports.

ghost use Rattle.std.specs.Prelude.{◌≡◌, ◌≤◌};
ghost use Rattle.zh_page.specs.Answers.{IsHanded};
ghost use Rattle.zh_page.specs.declared.answer.PageStatus.TheVariants as statuses;
ghost use Rattle.zh_page.specs.declared.answer.HandedStatus.TheVariants as handed;
ghost use Rattle.zh_page_module.specs.Given.{texts_given};

use std::alloc::Global;
use zh_page::{HandedStatus, PageStatus, hand_over};

/// Checks a sheet, given the texts of a set-up and, if `is_held`, of an export. The text of the answer is copied to the
/// front of `room`, and `count` gets its length.
///
/// Returns 0 if the sheet is right and 1 if it is wrong, with its verdict. Returns 2 if the first text is not a set-up
/// and 3 if the last one is not an export of this set-up, with the report of the fault. Returns 4 if an allocation was
/// refused, without a text. Returns 5 if the room is too small; then nothing is written to it.
#[unsafe(no_mangle)]
pub extern "C" fn check_sheet(
    alloc: Global,
    setup: &[u8],
    sheet: &[u8],
    held: &[u8],
    is_held: bool,
    room: &mut [u8],
    count: &mut usize,
) -> u32
    ensures right { result ≡ 0
        → IsHanded (texts_given setup.now sheet.now is_held held.now) (handed.Whole statuses.Right) count.new room.new }
    ensures wrong { result ≡ 1
        → IsHanded (texts_given setup.now sheet.now is_held held.now) (handed.Whole statuses.Wrong) count.new room.new }
    ensures no_setup { result ≡ 2
        → IsHanded (texts_given setup.now sheet.now is_held held.now) (handed.Whole statuses.NoSetup) count.new room.new }
    ensures no_rows { result ≡ 3
        → IsHanded (texts_given setup.now sheet.now is_held held.now) (handed.Whole statuses.NoRows) count.new room.new }
    ensures memory { result ≡ 4
        → IsHanded (texts_given setup.now sheet.now is_held held.now) (handed.Whole statuses.Memory) count.new room.new }
    ensures no_room { result ≡ 5
        → IsHanded (texts_given setup.now sheet.now is_held held.now) handed.NoRoom count.new room.new }
    ensures untouched { result ≡ 5 → room.new ≡ room.old }
    ensures few { result ≤ 5 }
{
    let export = if is_held { Some(held) } else { None };
    match hand_over(alloc, setup, sheet, export, room, count) {
        HandedStatus::Whole(PageStatus::Right) => 0,
        HandedStatus::Whole(PageStatus::Wrong) => 1,
        HandedStatus::Whole(PageStatus::NoSetup) => 2,
        HandedStatus::Whole(PageStatus::NoRows) => 3,
        HandedStatus::Whole(PageStatus::Memory) => 4,
        HandedStatus::NoRoom => 5,
    }
}
