//! The file in which a fault occurred, and the place in it.

ghost use Rattle.std.specs.Prelude.{◌≡◌, ◌≤◌, length};
ghost use Rattle.zh_program.specs.Reports.{file_name, limits_text, place_text};

use arrayvec::ArrayVec;
use zh_disk::DISK_LENGTH;
use zh_file::FileCause;
use zh_office::OpenFault;
use zh_setups::{FaultPlace, Key};
use zh_text::{push, push_bytes, push_numeral};
use zh_verdicts::shown_place;

/// A file that is given to a task.
#[derive(Clone, Copy)]
pub enum TaskFile {
    Setup,
    Disk,
    /// The CSV file with the returns of a load.
    Csv,
    Sheet,
    /// The export that a sheet is checked against.
    Held,
}

impl TaskFile {
    /// The name of the fault if this file can't be used: at most 11 bytes.
    pub(crate) fn name(self) -> &'static str
        ensures name { result.now ≡ file_name self }
        ensures short { length result.now ≤ 11 }
    {
        match self {
            TaskFile::Setup => "setup file",
            TaskFile::Disk => OpenFault::Device.name(),
            TaskFile::Csv => "csv file",
            TaskFile::Sheet => "sheet file",
            TaskFile::Held => "held file",
        }
    }
}

/// Where a fault occurred, or its cause.
#[derive(Clone, Copy)]
pub enum TaskPlace {
    /// Why a file was not opened.
    Cause(FileCause),
    /// A place in the text of the set-up.
    Setup(FaultPlace),
    /// A place in the text of the set-up whose value is out of range. The report shows the limits.
    Range(FaultPlace),
    /// The length of the disk's file in bytes, which is not that of a disk.
    Length(u64),
}

/// A place or a cause, as text: at most 115 bytes.
pub(crate) type PlaceWords = ArrayVec<u8, 128>;

/// The limits of the value at a place in a set-up, as text. It is empty for a key without shown limits.
fn limits_of(place: &FaultPlace) -> &'static str
    ensures limits { result.now ≡ limits_text place.now }
    ensures short { length result.now ≤ 35 }
{
    match place {
        FaultPlace::Top(key) => match key {
            Key::Version => ": 1 or 2",
            Key::House => ": 1 to 400",
            Key::CantonQuorum => ": 1 to 49",
            Key::Constituency | Key::Group => ": 1 to 32 tables",
            Key::Municipality => ": 1 to 512 tables",
            _ => "",
        },
        FaultPlace::Table { key, .. } => match key {
            Key::Name => ": 1 to 40 bytes, no space at an end",
            Key::Persons => ": 1 to 10000000",
            Key::Constituency => ": the number of a constituency",
            Key::Stands => ": numbers of constituencies",
            _ => "",
        },
        FaultPlace::At(_) => "",
    }
}

/// A place or a cause, as text.
pub(crate) fn place_words(place: &TaskPlace) -> PlaceWords
    ensures place { result.items ≡ place_text place.now }
    ensures short { length result.items ≤ 115 }
{
    let mut words = PlaceWords::new();
    match place {
        TaskPlace::Cause(cause) => push(&mut words, cause.as_str()),
        TaskPlace::Setup(place) => push_bytes(&mut words, shown_place(place).as_slice()),
        TaskPlace::Range(place) => {
            push_bytes(&mut words, shown_place(place).as_slice());
            push(&mut words, limits_of(place));
        }
        TaskPlace::Length(found) => {
            push_numeral(&mut words, *found);
            push(&mut words, " bytes instead of ");
            push_numeral(&mut words, DISK_LENGTH);
        }
    }
    words
}
