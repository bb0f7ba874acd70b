//! An area of records: a write-ahead log in which each record counts once its gate is open.
ghost use Rattle.std.specs.Prelude.{◌≡◌, ◌+◌, ◌↔◌, ◌<◌, ◌≤◌, ℕ, length, slice_index, IfOk, OnOk, OnErr, IsErrOf, is_err, List, IfSome};
ghost use Rattle.std.specs.Prelude.{IfNone};
ghost use Rattle.zh_disk.specs.Disk.{Asks};
ghost use Rattle.zh_disk.specs.History.{Call};
ghost use Rattle.zh_disk.specs.declared.disk.TheConstants.{DISK_LENGTH};
ghost use Rattle.zh_journal.specs.Calls.{FindsArea, GivesPayload, Appends, Clears};
ghost use Rattle.zh_journal.specs.Faults.{area_append_fails, area_open_fails};
ghost use Rattle.zh_journal.specs.Pages.{pages_of, ReadsRecords};
ghost use Rattle.zh_journal.specs.Place.{pages_left, grown};
ghost use Rattle.zh_journal.specs.declared.page.TheConstants.{AREA_LENGTH, AREA_PAGES};

use crate::fault::{AppendFault, AreaFault, OpenFault};
use crate::gate::open_gate;
use crate::page::{AREA_LENGTH, AREA_PAGES, Head, LONGEST_PAYLOAD, PAGE_LENGTH, head_at, pages_of};
use crate::reader::Reader;
use crate::record::{find_page, read_record, stage};
use std::marker::Model;
use zh_disk::Disk;

/// The records of one area of a disk: where the area begins, the page at which its records end, and how many there are.
///
/// A call that uses the disk takes it as an argument, which must be the disk on which the area was opened. If `append` meets a
/// device fault, open the area again.
#[derive(Drop)]
pub struct Area {
    base: u64,
    end: u32,
    count: u32,
}

impl Model for Area {
    ghost use Rattle.std.specs.Prelude.{◌+◌, ◌≤◌};
    ghost use Rattle.zh_disk.specs.declared.disk.TheConstants.{DISK_LENGTH};
    ghost use Rattle.zh_journal.specs.declared.page.TheConstants.{AREA_LENGTH, AREA_PAGES};
    ghost use Rattle.zh_journal.specs.Place.{Place};

    ghost Value = { Place };

    ghost view = { λ a. record { base = a.base; end = a.end; count = a.count } };

    ghost invariant = { λ a. (a.base + AREA_LENGTH ≤ DISK_LENGTH) × (a.end ≤ AREA_PAGES) × (a.count ≤ a.end) };
}

impl Area {
    /// Finds the records of the area that begins at this place. Returns the area with a reader, which goes through its records
    /// in order. Reads the area once, into `pages`, which the reader keeps, and writes nothing.
    pub fn open<D: Disk>(
        disk: &mut D,
        base: u64,
        mut pages: Vec<u8>,
    ) -> Result<(Area, Reader), OpenFault>
        requires base { base + AREA_LENGTH ≤ DISK_LENGTH }
        requires size { length pages.items ≡ AREA_LENGTH }

        ensures call { Call area_open_fails (Asks (FindsArea base)) (D.history disk.old) (D.history disk.new) result }
        ensures base { IfOk result (λ opened. opened.0.base ≡ base) }
    {
        disk.read_at(base, &mut pages)?;
        let Some(extent) = extent_of(&pages) else {
            return Err(OpenFault::Damaged);
        };
        let area = Area {
            base,
            end: extent.end,
            count: extent.count,
        };
        Ok((area, Reader::new(pages, extent.end)))
    }

    /// The number of records.
    pub fn records(&self) -> u32
        ensures count { result ≡ self.now.count }
        ensures most { result ≤ self.now.end }
    {
        self.count
    }

    /// The number of pages after the last record, from 0 to 1,024.
    pub fn pages_left(&self) -> u32
        ensures left { result ≡ pages_left self.now }
        ensures all { self.now.end + result ≡ AREA_PAGES }
    {
        AREA_PAGES - self.end
    }

    /// Reads the payload of record `i`, counted from 0, into the caller's buffer and returns that part of the buffer. Finds
    /// the record by reading the heads of those before it. (To go through all records, use the reader that `open` returns.)
    /// If the disk no longer has this record, the slice is empty; no record has an empty payload.
    pub fn record<'b, D: Disk>(
        &self,
        disk: &mut D,
        i: u32,
        buffer: &'b mut [u8],
    ) -> Result<&'b [u8], AreaFault>
        requires i { i < self.now.count }
        requires buffer { LONGEST_PAYLOAD ≤ length buffer.old }

        ensures call { Call is_err
            (Asks (λ bytes answer. IfOk answer (λ payload. GivesPayload self.now.base i bytes payload.now)))
            (D.history disk.old) (D.history disk.new) result }

        ensures most { IfOk result (λ payload. length payload.now ≤ LONGEST_PAYLOAD) }
    {
        let page = find_page(disk, self.base, i)?;
        let at = self.base + PAGE_LENGTH * (page as u64);
        let len = read_record(disk, at, AREA_PAGES - page, buffer)?;
        Ok(&buffer[..len as usize])
    }

    /// Appends a record: writes bytes 1 to 255 of each of its pages, syncs, opens the gate of its first page, and syncs
    /// again.
    ///
    /// If too few pages are left, the fault is `Full` and nothing changes. If the fault is `Device`, the disk can hold the
    /// record or not, and the area is without it.
    pub fn append<D: Disk>(&mut self, disk: &mut D, payload: &[u8]) -> Result<(), AppendFault>
        requires some { 1 ≤ length payload.now }
        requires most { length payload.now ≤ LONGEST_PAYLOAD }

        ensures call { Call area_append_fails (Appends self.old payload.now)
            (D.history disk.old) (D.history disk.new) result }
        ensures ok { OnOk result (self.new ≡ grown self.old (length payload.now)) }
        ensures err { OnErr result (self.new ≡ self.old) }

        ensures full { (result ≡ Err AppendFault.Full) ↔ (pages_left self.old < pages_of (length payload.now)) }
        ensures untouched { IsErrOf result AppendFault.Full → disk.new ≡ disk.old }
    {
        let pages = pages_of(payload.len() as u32);
        if self.pages_left() < pages {
            return Err(AppendFault::Full);
        }
        let at = self.base + PAGE_LENGTH * (self.end as u64);
        stage(disk, at, payload)?;
        open_gate(disk, at)?;
        self.end += pages;
        self.count += 1;
        Ok(())
    }

    /// Writes zeros over the area that begins at this place and returns the area without records. Until the caller has
    /// synced, the disk can hold anything there, so a gate in front of the area must stay closed until then.
    pub fn clear<D: Disk>(disk: &mut D, base: u64, zeros: &[u8]) -> Result<Area, AreaFault>
        requires base { base + AREA_LENGTH ≤ DISK_LENGTH }
        requires size { length zeros.now ≡ AREA_LENGTH }
        requires zero { (k : ℕ) → slice_index zeros.now k ≡ 0 }

        ensures call { Call is_err (Clears base) (D.history disk.old) (D.history disk.new) result }
        ensures empty { IfOk result (λ a. a ≡ record { base = base; end = 0; count = 0 }) }
    {
        disk.write_at(base, zeros)?;
        Ok(Area {
            base,
            end: 0,
            count: 0,
        })
    }
}

/// The page at which the records end, and how many there are.
#[derive(Clone, Copy)]
pub(crate) struct Extent {
    pub(crate) end: u32,
    pub(crate) count: u32,
}

/// Where the records in these pages end, and how many there are. `None` if a page at which the next record would begin has an
/// open gate and breaks a rule of the format.
pub(crate) fn extent_of(pages: &[u8]) -> Option<Extent>
    requires { length pages.now ≡ AREA_LENGTH }

    ensures found { IfSome result (λ extent. (rs : List (List ℕ))
        × ReadsRecords 0 pages.now rs extent.end × (length rs ≡ extent.count)) }
    ensures within { IfSome result (λ extent. (extent.end ≤ AREA_PAGES) × (extent.count ≤ extent.end)) }
    ensures damaged { IfNone result ((rs : List (List ℕ)) (j : ℕ) → ReadsRecords 0 pages.now rs j → ⊥) }
{
    let mut end = 0;
    let mut count = 0;
    while end < AREA_PAGES {
        match head_at(pages, PAGE_LENGTH as usize * end as usize, AREA_PAGES - end) {
            Head::Closed => break,
            Head::Damaged => return None,
            Head::Record(len) => {
                end += pages_of(len);
                count += 1;
            }
        }
    }
    Some(Extent { end, count })
}
