//! A record on its pages: staging, which writes everything except the gates, and reading into the caller's buffer.
ghost use Rattle.std.specs.Prelude.{◌+◌, ◌*◌, ◌<◌, ◌≤◌, length, is_err, ◌≡◌, ℕ, slice_index, IfOk, OnOk};
ghost use Rattle.zh_disk.specs.Disk.{Writes, Asks};
ghost use Rattle.zh_disk.specs.History.{Call};
ghost use Rattle.zh_disk.specs.declared.disk.TheConstants.{DISK_LENGTH};
ghost use Rattle.zh_journal.specs.Calls.{Stages, IsOnPage, HasPayload, GivesRecord, FindsPage};
ghost use Rattle.zh_journal.specs.Pages.{body_of, pages_of};
ghost use Rattle.zh_journal.specs.declared.page.TheConstants.{LONGEST_PAYLOAD};

use crate::page::{
    AREA_LENGTH, AREA_PAGES, Head, LONGEST_PAYLOAD, PAGE_LENGTH, page_of, pages_of, read_head,
};
use zh_disk::{Disk, DiskFault};

fn write_page<D: Disk>(disk: &mut D, at: u64, payload: &[u8], i: u32) -> Result<(), DiskFault>
    requires len { length payload.now ≤ LONGEST_PAYLOAD }
    requires i { i < pages_of (length payload.now) }
    requires room { at + 256 * pages_of (length payload.now) ≤ DISK_LENGTH }

    // This is one write, whatever the disk answers.
    ensures call { Call is_err (Writes (at + 256 * i + 1) (body_of payload.now i))
        (D.history disk.old) (D.history disk.new) result }
{
    let page = page_of(payload, i);
    disk.write_at(at + PAGE_LENGTH * (i as u64) + 1, &page)
}

/// Writes a record to the pages from this place on, except for their gates, with one write for each page.
pub(crate) fn stage<D: Disk>(disk: &mut D, at: u64, payload: &[u8]) -> Result<(), DiskFault>
    requires len { length payload.now ≤ LONGEST_PAYLOAD }
    requires room { at + 256 * pages_of (length payload.now) ≤ DISK_LENGTH }

    ensures call { Call is_err (Stages at payload.now) (D.history disk.old) (D.history disk.new) result }
{
    for i in 0..pages_of(payload.len() as u32) {
        write_page(disk, at, payload, i)?;
    }
    Ok(())
}

/// Reads the part of the payload on page `i` of a record. Byte k of the payload, if it is on page i, is at
/// place 4 + k + i of the record: after the three other bytes of the head and the gates of pages 0 to i.
fn read_page<D: Disk>(
    disk: &mut D,
    at: u64,
    len: u32,
    i: u32,
    buffer: &mut [u8],
) -> Result<(), DiskFault>
    requires len { len ≤ LONGEST_PAYLOAD }
    requires i { i < pages_of len }
    requires room { at + 256 * pages_of len ≤ DISK_LENGTH }
    requires buffer { len ≤ length buffer.old }

    ensures call { Call is_err (Asks (λ bytes answer. OnOk answer (IsOnPage i at len bytes buffer.new)))
        (D.history disk.old) (D.history disk.new) result }

    ensures rest { (k : ℕ) → k + 3 < 255 * i → slice_index buffer.new k ≡ slice_index buffer.old k }
{
    let from = (255 * i).saturating_sub(3);
    let to = (255 * i + 252).min(len);
    disk.read_at(
        at + (4 + from + i) as u64,
        &mut buffer[from as usize..to as usize],
    )
}

/// Reads the payload of the record at this place, which has the length `len` according to its head.
fn read_payload<D: Disk>(
    disk: &mut D,
    at: u64,
    len: u32,
    buffer: &mut [u8],
) -> Result<(), DiskFault>
    requires len { len ≤ LONGEST_PAYLOAD }
    requires room { at + 256 * pages_of len ≤ DISK_LENGTH }
    requires buffer { len ≤ length buffer.old }

    ensures call { Call is_err (Asks (λ bytes answer. OnOk answer (HasPayload at len bytes buffer.new)))
        (D.history disk.old) (D.history disk.new) result }
{
    for i in 0..pages_of(len) {
        read_page(disk, at, len, i, buffer)?;
    }
    Ok(())
}

/// Reads the payload of the record at this place, if there are `left` pages from there on. Returns its length, or
/// 0 if no record that fits into these pages begins there.
pub(crate) fn read_record<D: Disk>(
    disk: &mut D,
    at: u64,
    left: u32,
    buffer: &mut [u8],
) -> Result<u32, DiskFault>
    requires room { at + 256 * left ≤ DISK_LENGTH }
    requires buffer { LONGEST_PAYLOAD ≤ length buffer.old }

    ensures call { Call is_err (Asks (λ bytes answer. IfOk answer (GivesRecord at left bytes buffer.new)))
        (D.history disk.old) (D.history disk.new) result }
    ensures len { IfOk result (λ len. (len ≤ LONGEST_PAYLOAD) × (1 ≤ len → pages_of len ≤ left)) }
{
    if left == 0 {
        return Ok(0);
    }
    let Head::Record(len) = read_head(disk, at, left)? else {
        return Ok(0);
    };
    read_payload(disk, at, len, buffer)?;
    Ok(len)
}

/// The page after the first `i` records of the area at this base, which is where record `i` begins if there is one.
/// It is found by reading the heads of these records. `AREA_PAGES` if there are fewer of them.
pub(crate) fn find_page<D: Disk>(disk: &mut D, base: u64, i: u32) -> Result<u32, DiskFault>
    requires { base + AREA_LENGTH ≤ DISK_LENGTH }

    ensures call { Call is_err (Asks (λ bytes answer. IfOk answer (FindsPage base i bytes)))
        (D.history disk.old) (D.history disk.new) result }
    ensures inside { IfOk result (λ page. page ≤ AREA_PAGES) }
{
    let mut page = 0;
    for _passed in 0..i {
        if page == AREA_PAGES {
            break;
        }
        let at = base + PAGE_LENGTH * (page as u64);
        let Head::Record(len) = read_head(disk, at, AREA_PAGES - page)? else {
            return Ok(AREA_PAGES);
        };
        page += pages_of(len);
    }
    Ok(page)
}
