//! The answer to a page, and its transfer into the page's memory.
ghost use Rattle.std.specs.Option.{option_copied};
ghost use Rattle.std.specs.Prelude.{◌≡◌};
ghost use Rattle.zh_page.specs.Answers.{IsHanded};

use crate::checked::check_texts;
use std::alloc::Global;

/// The result of a check, given the texts of a page.
#[derive(Clone, Copy)]
pub enum PageStatus {
    /// The sheet is right.
    Right,
    /// The sheet is wrong.
    Wrong,
    /// The text of the set-up is not a set-up.
    NoSetup,
    /// The text of the export is not an export of this set-up.
    NoRows,
    /// An allocation was refused.
    Memory,
}

/// The answer to a page: a status and a text. For a right or a wrong sheet the text is the verdict. Otherwise it is the
/// same report of the fault as the program's; it is empty if an allocation was refused.
#[derive(Drop)]
pub struct PageAnswer {
    pub status: PageStatus,
    pub text: Vec<u8>,
}

/// Whether an answer was transferred.
#[derive(Clone, Copy)]
pub enum HandedStatus {
    /// The whole text was transferred, and this is the answer's status.
    Whole(PageStatus),
    /// The room is too small for the text. Nothing was written to it.
    NoRoom,
}

/// Checks a sheet as [`check_texts`] does and copies the text of the answer to the front of `room`. `count` gets the
/// length of the text, even if the room is too small.
pub fn hand_over(
    alloc: Global,
    setup: &[u8],
    sheet: &[u8],
    held: Option<&[u8]>,
    room: &mut [u8],
    count: &mut usize,
) -> HandedStatus
    ensures handed { IsHanded (record { setup = setup.now; sheet = sheet.now; held = option_copied held.entry })
        result count.new room.new }
    ensures untouched { result ≡ HandedStatus.NoRoom → room.new ≡ room.old }
{
    let PageAnswer { status, text } = check_texts(alloc, setup, sheet, held);
    *count = text.len();
    if room.len() < text.len() {
        return HandedStatus::NoRoom;
    }
    room[..text.len()].copy_from_slice(&text);
    HandedStatus::Whole(status)
}
