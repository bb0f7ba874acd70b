//! Reports of faults, and remarks on standard error.

ghost use Rattle.std.specs.Prelude.{◌≡◌, ◌+◌, ◌≤◌, ◌++◌, length, option_map};
ghost use Rattle.zh_program.specs.Paths.{shown_path};
ghost use Rattle.zh_program.specs.Remarks.{BecameOf};
ghost use Rattle.zh_program.specs.Reports.{fault_text, report_text, second_line};

use crate::fault::TaskFault;
use crate::place::{TaskFile, TaskPlace, place_words};
use arrayvec::ArrayVec;
use std::io::Write;
use zh_file::Remark;
use zh_office::{OpenFault, ServeFault};
use zh_text::{push, push_bytes, push_name, put};
use zh_verdicts::push_shown;

/// The most bytes of a path that are shown. Linux accepts no longer path.
const LONGEST_SHOWN: usize = 4_096;

/// The lines of a report: at most 4,260 bytes.
type Report = ArrayVec<u8, 4352>;

/// Appends the name of a fault.
fn push_fault(report: &mut Report, fault: &TaskFault)
    requires { length report.old.items ≤ 9 }
    ensures name { report.new.items ≡ report.old.items ++ fault_text fault.now }
    ensures short { length report.new.items ≤ length report.old.items + 36 }
{
    match fault {
        TaskFault::Unopened(file, _) | TaskFault::Unreadable(file) => { push(report, file.name()) }
        TaskFault::Setup(refusal) => push(report, refusal.fault.name()),
        TaskFault::Device | TaskFault::Faulted => push(report, TaskFile::Disk.name()),
        TaskFault::Busy => push(report, "disk busy"),
        TaskFault::Size(_) => push(report, "disk size"),
        TaskFault::InUse => push(report, "disk inuse"),
        TaskFault::Open(opening) => push(report, opening.name()),
        TaskFault::Held(record) => push(report, record.name()),
        TaskFault::Table(listing) => push_name(report, listing.name()),
        TaskFault::Memory => push(report, OpenFault::Memory.name()),
        TaskFault::Serve(serving) => push(report, serving.name()),
        TaskFault::Write => push(report, ServeFault::Write.name()),
        TaskFault::Refused => push(report, "refused"),
    }
}

/// Appends a path in the form in which it is shown, at most 4,096 bytes.
fn push_path(report: &mut Report, path: &str)
    requires { length report.old.items ≤ 128 }
    ensures shown { report.new.items ≡ report.old.items ++ shown_path path.now }
    ensures short { length report.new.items ≤ length report.old.items + 4096 }
{
    push_shown(report, path.as_bytes(), path.len().min(LONGEST_SHOWN));
}

/// Appends the second line: the path of the file, and the place in it or the cause, as far as known. Without either there is no
/// line.
fn push_second(report: &mut Report, path: Option<&str>, place: Option<TaskPlace>)
    requires { length report.old.items ≤ 46 }
    ensures { report.new.items ≡ report.old.items ++ second_line (option_map (λ p. p.now) path.entry) place }
{
    match (path, place) {
        (None, None) => {}
        (None, Some(place)) => {
            push_bytes(report, place_words(&place).as_slice());
            report.push(b'\n');
        }
        (Some(path), None) => {
            push_path(report, path);
            report.push(b'\n');
        }
        (Some(path), Some(place)) => {
            push_path(report, path);
            push(report, ": ");
            push_bytes(report, place_words(&place).as_slice());
            report.push(b'\n');
        }
    }
}

/// The report of a fault: a line with its name, then a line with its file and its place or cause, as far as known. It allocates
/// no memory.
fn report_lines(path: Option<&str>, fault: TaskFault) -> Report
    ensures { result.items ≡ report_text (option_map (λ p. p.now) path.entry) fault }
{
    let mut report = Report::new();
    push(&mut report, "zhcount: ");
    push_fault(&mut report, &fault);
    push(&mut report, "\n");
    push_second(&mut report, path, fault.place());
    report
}

/// Reports a fault to standard error, with the path of its file if it has one. The result says whether the report was written
/// whole.
pub(crate) fn report<E: Write>(path: Option<&str>, fault: TaskFault, faults: &mut E) -> Remark
    ensures { BecameOf result (E.contents faults.old) (E.contents faults.new) (report_text (option_map (λ p. p.now) path.entry) fault) }
{
    let lines = report_lines(path, fault);
    make_remark(lines.as_slice(), faults)
}

/// Writes a remark to standard error. The result says whether it was written whole. A task goes on either way.
pub(crate) fn make_remark<E: Write>(text: &[u8], faults: &mut E) -> Remark
    ensures { BecameOf result (E.contents faults.old) (E.contents faults.new) text.now }
{
    match put(faults, text) {
        Ok(()) => Remark::Whole,
        Err(_) => Remark::Broken,
    }
}
