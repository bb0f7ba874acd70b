//! Turns on the office of a case.

use crate::disk::{Device, disk_of, image_of};
use crate::fault::CaseFault;
use crate::fixture::{Fixture, present};
use crate::reason::push_made;
use crate::streams::{SlowInput, SlowOutput};
use crate::texts::{bytes_of, next_number, number, parted, push_lines};
use std::alloc::{AllocError, Global};
use std::fs;
use zh_commands::{Reply, write_reply};
use zh_districts::Setup;
use zh_film::Film;
use zh_office::{FormatFault, NotedReader, Office, OpenFault, ServeFault};
use zh_returns::{Count, Format, PAYLOAD_LENGTH, decode_command};
use zh_sheet::make_or_reason;

/// How many reads an office is allowed for a line.
const READS_OF_LINE: u64 = 1_000;

/// The answer of an opening.
fn word_of(opened: &Result<Office<'_>, OpenFault>) -> &'static str {
    match opened {
        Ok(_) => "ok",
        Err(OpenFault::Memory) => "memory",
        Err(OpenFault::Device) => "device",
        Err(OpenFault::Blank) => "blank",
        Err(OpenFault::Damaged) => "damaged",
        Err(OpenFault::SetupDiffers) => "differs",
    }
}

/// The answer of an opening of this disk, on which no office stays open.
fn word_of_opening(alloc: Global, setup: &Setup, disk: &mut Device) -> &'static str {
    word_of(&Office::open(alloc, setup, disk))
}

/// The answer of a formatting.
fn word_of_formatting(formatted: Result<(), FormatFault>) -> &'static str {
    match formatted {
        Ok(()) => "ok",
        Err(FormatFault::Memory) => "memory",
        Err(FormatFault::Device) => "device",
    }
}

/// Has the office answer the lines of a text. Whether it did.
fn is_served(
    office: &mut Office<'_>,
    disk: &mut Device,
    mut text: &[u8],
    output: &mut Vec<u8>,
) -> bool {
    office
        .serve(&mut text, output, disk, &mut Film::new(), READS_OF_LINE)
        .is_ok()
}

/// Appends how serving ended: after how many lines, or with which fault.
fn push_end(answer: &mut String, served: Result<u64, ServeFault>) -> Result<(), AllocError> {
    match served {
        Ok(lines) => write!(answer, "{lines}"),
        Err(fault) => write!(answer, "{fault}"),
    }
}

/// Appends how serving ended, and the lines that were written.
fn push_served(
    answer: &mut String,
    served: Result<u64, ServeFault>,
    written: &[u8],
) -> Result<(), CaseFault> {
    push_end(answer, served)?;
    push_lines(answer, "; ", written)
}

/// Appends a reply without its desk, and how many bytes were not read.
fn push_loaded(answer: &mut String, reply: &Reply, left: usize) -> Result<(), CaseFault> {
    let mut line = [0; 64];
    let length = write_reply(0, reply, &mut line);
    push_lines(answer, "; ", line.get(2..length).unwrap_or(&[]))?;
    Ok(write!(answer, "; {left} left")?)
}

/// Appends the answer where no office is open.
fn push_closed(answer: &mut String) -> Result<(), CaseFault> {
    Ok(answer.push_str("closed")?)
}

fn encode(count: &Count<'_>, into: &mut [u8]) {
    if into.len() >= PAYLOAD_LENGTH {
        count.encode(into);
    }
}

impl<'s> Fixture<'s> {
    /// Formats the disk, with no office open on it.
    pub(crate) fn format(&mut self) -> Result<&'static str, CaseFault> {
        self.close();
        self.begin()?;
        let formatted = Office::format(self.alloc, self.setup, present(&mut self.device)?);
        self.end();
        Ok(word_of_formatting(formatted))
    }

    fn keep(&mut self, opened: Result<Office<'s>, OpenFault>) {
        self.office = opened.ok();
    }

    /// Opens the office on the disk, as after a restart.
    pub(crate) fn open(&mut self) -> Result<&'static str, CaseFault> {
        self.begin()?;
        let opened = Office::open(self.alloc, self.setup, present(&mut self.device)?);
        self.end();
        let word = word_of(&opened);
        self.keep(opened);
        Ok(word)
    }

    /// The result of opening the disk that is in a file, or `changed` if that changes it.
    pub(crate) fn damage(&self, name: &str) -> Result<&'static str, CaseFault> {
        let image = fs::read(self.rt, name)?;
        let mut disk = disk_of(self.alloc, &image)?;
        let word = word_of_opening(self.alloc, self.setup, &mut disk);
        let is_same = image_of(self.alloc, &mut disk)? == image;
        Ok(if is_same { word } else { "changed" })
    }

    /// Writes the bytes of the open office's count into a file. Without an office there are none.
    pub(crate) fn save_count(&self, name: &str) -> Result<(), CaseFault> {
        let mut bytes = Vec::new(self.alloc);
        if let Some(office) = &self.office {
            bytes = vec![in self.alloc; 0; PAYLOAD_LENGTH]?;
            encode(office.count(), &mut bytes);
        }
        fs::write(self.rt, name, &bytes)?;
        Ok(())
    }

    /// Appends the number of commands that the open office has accepted, or 0 if no office is open.
    pub(crate) fn accepted(&self, answer: &mut String) -> Result<(), CaseFault> {
        let accepted = match &self.office {
            Some(office) => office.count().accepted(),
            None => 0,
        };
        Ok(write!(answer, "{accepted}")?)
    }

    /// Appends the office's verdict on the command of these bytes.
    pub(crate) fn judge(&self, digits: &str, answer: &mut String) -> Result<(), CaseFault> {
        let bytes = bytes_of(self.alloc, digits.replace(self.alloc, " ", "")?.as_str())?;
        let (Some(office), Some(command)) = (&self.office, decode_command(&bytes, Format::Two))
        else {
            return Err(CaseFault::Text("an open office and a command are needed"));
        };
        Ok(write!(answer, "{:?}", office.count().judge(&command))?)
    }

    /// Sends the office a line that ends in LF. The output is then its answer. Whether an office is open.
    fn send_line(&mut self, line: &[u8]) -> Result<bool, CaseFault> {
        let Some(office) = &mut self.office else {
            return Ok(false);
        };
        if is_served(office, present(&mut self.device)?, line, &mut self.output) {
            Ok(true)
        } else {
            Err(CaseFault::Text("the line is too long"))
        }
    }

    /// Appends the office's answer to these bytes and an LF.
    pub(crate) fn send(&mut self, digits: &str, answer: &mut String) -> Result<(), CaseFault> {
        let mut line = bytes_of(self.alloc, digits)?;
        line.push(b'\n')?;
        self.output.clear();
        self.begin()?;
        let is_open = self.send_line(&line);
        self.end();
        if !is_open? {
            return push_closed(answer);
        }
        push_lines(answer, "; ", &self.output)
    }

    /// Appends how serving the text in a file ended (after how many lines, or with which fault) and the lines that were written.
    /// The numbers say after how many reads it ends, after how many bytes its input and how many writes its output fail, and how
    /// many bytes one write takes at most.
    pub(crate) fn serve(&mut self, given: &str, answer: &mut String) -> Result<(), CaseFault> {
        let (name, limits) = parted(given);
        let mut limits = limits.split_whitespace();
        let reads = next_number(&mut limits)?;
        let left_in = next_number(&mut limits)?;
        let left_out = next_number(&mut limits)?;
        let takes = next_number(&mut limits)? as usize;
        let text = fs::read(self.rt, name)?;
        let output = SlowOutput::new(self.alloc, left_out, takes);
        self.serve_on(SlowInput::new(&text, left_in), output, reads, answer)
    }

    fn serve_on(
        &mut self,
        mut input: SlowInput<'_>,
        mut output: SlowOutput,
        reads: u64,
        answer: &mut String,
    ) -> Result<(), CaseFault> {
        let Some(office) = &mut self.office else {
            return push_closed(answer);
        };
        let disk = present(&mut self.device)?;
        let served = office.serve(&mut input, &mut output, disk, &mut Film::new(), reads);
        push_served(answer, served, &output.bytes)
    }

    /// Appends the office's answer to loading the text in a file, which is read byte by byte and fails after so many bytes. The
    /// answer has no desk. It also says how many bytes were not read.
    pub(crate) fn load(&mut self, given: &str, answer: &mut String) -> Result<(), CaseFault> {
        let (name, left) = parted(given);
        let left = number(left)?;
        let text = fs::read(self.rt, name)?;
        self.load_from(SlowInput::new(&text, left), answer)
    }

    fn load_from(
        &mut self,
        mut input: SlowInput<'_>,
        answer: &mut String,
    ) -> Result<(), CaseFault> {
        self.begin()?;
        let Some(office) = &mut self.office else {
            return push_closed(answer);
        };
        let disk = present(&mut self.device)?;
        let reply = office.load(disk, &mut NotedReader::new(&mut input));
        self.end();
        push_loaded(answer, &reply, input.text.len())
    }

    /// Appends the office's export.
    pub(crate) fn export(&self, answer: &mut String) -> Result<(), CaseFault> {
        let Some(office) = &self.office else {
            return push_closed(answer);
        };
        match office.export(Vec::new(self.alloc)) {
            Ok(out) => push_lines(answer, "; ", &out),
            Err(fault) => Ok(write!(answer, "{fault}")?),
        }
    }

    /// Appends why the office's count has no sheet, or `a sheet` if it has one.
    pub(crate) fn reason(&mut self, answer: &mut String) -> Result<(), CaseFault> {
        self.begin()?;
        let Some(office) = &self.office else {
            return push_closed(answer);
        };
        let made = make_or_reason(self.alloc, office.totals());
        self.end();
        Ok(push_made(answer, made, self.setup.constituencies())?)
    }
}
