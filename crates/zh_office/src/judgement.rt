//! What a loading would do with a record and with a text.

ghost use Rattle.std.specs.Prelude.{◌≡◌, ◌+◌, ◌<◌, ◌≤◌, ◌^◌};
ghost use Rattle.zh_csv.specs.declared.records.ReadFault.TheVariants as reading;
ghost use Rattle.zh_office.specs.Findings.{by_verdict, forecast_with};
ghost use Rattle.zh_office.specs.declared.judgement.JudgementFault.TheVariants as faults;

use std::alloc::AllocError;
use zh_commands::Refusal;
use zh_csv::ReadFault;
use zh_returns::Verdict;
use zh_text::WriteFault;

/// What a loading would do with a record.
#[derive(Clone, Copy)]
pub enum Judgement {
    /// Its row would be stored.
    Stores,
    /// The count already holds its row.
    Same,
    Refused(Refusal),
}

/// What a loading would do with a text: how many records it would judge, how many of them it would refuse, and whether it
/// would store one. A loading stores all of them or none. If none is refused and none would be stored, the count already
/// holds them all.
#[derive(Clone, Copy)]
pub struct Forecast {
    pub records: u32,
    pub refused: u32,
    pub stores: bool,
}

impl Forecast {
    /// Counts one more record.
    pub(crate) fn note(&mut self, judgement: Judgement)
        requires within { self.old.refused ≤ self.old.records }
        requires room { self.old.records + 1 < 2 ^ 32 }
        ensures { self.new ≡ forecast_with self.old judgement }
    {
        self.records += 1;
        match judgement {
            Judgement::Stores => self.stores = true,
            Judgement::Same => {}
            Judgement::Refused(_) => self.refused += 1,
        }
    }
}

/// The judgement of a row, from the verdict on it.
pub(crate) fn by_verdict(verdict: Verdict) -> Judgement
    ensures { result ≡ by_verdict verdict }
{
    match verdict {
        Verdict::Accept => Judgement::Stores,
        Verdict::Same => Judgement::Same,
        Verdict::Refused(reason) => Judgement::Refused(Refusal::Judged(reason)),
    }
}

/// Why the judging of a text stopped before its end.
#[derive(Clone, Copy)]
pub enum JudgementFault {
    /// An allocation was refused, or the crate `csv` reports an error although no read failed.
    Memory,
    /// The reader failed.
    Read,
    /// The text has at least 4,294,967,294 records.
    Turns,
    /// The writer failed or took no byte.
    Write,
}

impl From<AllocError> for JudgementFault {
    ghost from_gives = { λ _ fault. fault ≡ faults.Memory };

    fn from(_: AllocError) -> JudgementFault {
        JudgementFault::Memory
    }
}

impl From<WriteFault> for JudgementFault {
    ghost from_gives = { λ _ fault. fault ≡ faults.Write };

    fn from(_: WriteFault) -> JudgementFault {
        JudgementFault::Write
    }
}

impl From<ReadFault> for JudgementFault {
    ghost from_gives = { λ error fault. (error ≡ reading.Memory → fault ≡ faults.Memory) × (error ≡ reading.Read → fault ≡ faults.Read) };

    fn from(error: ReadFault) -> JudgementFault {
        match error {
            ReadFault::Memory => JudgementFault::Memory,
            ReadFault::Read => JudgementFault::Read,
        }
    }
}
