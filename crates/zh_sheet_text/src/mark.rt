//! How seats are marked: whether they are final, after how many commands, and where this comes from. And why there are
//! no seats.
ghost use Rattle.std.specs.Prelude.{◌≡◌};
ghost use Rattle.zh_sheet_text.specs.Lists.{kind};
ghost use Rattle.zh_sheet_text.specs.SeatTable.{whose};

use zh_commands::Refusal;
use zh_sheet::{ExhaustedReason, Lot, Sheet, SheetRefusal};

/// Where a mark comes from.
#[derive(Clone, Copy)]
pub enum Source {
    /// The count from which the seats are computed.
    Count,
    /// A published sheet. Nobody can tell from it whether what it states is true.
    Sheet,
}

impl Source {
    /// The text after each statement of a published sheet. It is empty for the count.
    pub(crate) fn whose(self) -> &'static str
        ensures { result.now ≡ whose self }
    {
        match self {
            Source::Count => "",
            Source::Sheet => " (as the sheet says)",
        }
    }
}

/// How seats are marked: whether they are final, how many commands were accepted before, and where this comes from.
#[derive(Clone, Copy)]
pub struct Mark {
    pub is_final: bool,
    pub accepted: u64,
    pub source: Source,
}

impl Mark {
    /// `final` or `provisional`, after `stated` if a published sheet says so.
    pub fn kind(&self) -> &str
        ensures { result.now ≡ kind self.now }
    {
        match (self.source, self.is_final) {
            (Source::Count, true) => "final",
            (Source::Count, false) => "provisional",
            (Source::Sheet, true) => "stated final",
            (Source::Sheet, false) => "stated provisional",
        }
    }
}

/// A sheet and the mark of its seats.
#[derive(Drop)]
pub struct MarkedSheet<'s> {
    pub sheet: Sheet<'s>,
    pub mark: Mark,
}

/// Why there are no seats.
#[derive(Drop)]
pub enum NoSeats {
    /// The sheet is refused, like a line that asks for it.
    Refused(Refusal),
    /// The sheet is refused because the search for divisors was exhausted, for this reason.
    Exhausted(ExhaustedReason),
    /// The sheet is refused because seats are tied. The lot decides between the results.
    Tied(SheetRefusal, Lot),
    /// The text is not a right sheet of this set-up.
    Wrong,
}
