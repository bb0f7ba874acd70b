//! Serving the lines of a reader.

ghost use Rattle.std.specs.Prelude.{◌≡◌, ◌≤◌, ◌++◌, ◌↔◌, [], ◌∷◌, length, MatchResult, IsErrOf};
ghost use Rattle.zh_office.specs.Text.{HasNoEnd, ended_lines, last_line};
ghost use Rattle.zh_film.specs.Frames.{frames};
ghost use Rattle.zh_film.specs.Scenes.{scenes};
ghost use Rattle.zh_ledger.specs.Submissions.{on_disk};
ghost use Rattle.zh_office.specs.Exchanges.{answer_text};
ghost use Rattle.zh_office.specs.Filmed.{FilmsAll, FilmsFront, TakesBlock, WritesText};
ghost use Rattle.zh_office.specs.Runs.{Continues};
ghost use Rattle.zh_office.specs.Served.{session, HasFailedRead, IsReadWithin, Serves, serving_name};
ghost use Rattle.zh_office.specs.declared.service.ServeFault.TheVariants as faults;

use crate::answer::Answer;
use crate::line_cutter::{PartialLine, extend_line, split_line};
use crate::office::Office;
use std::io::{Read, Write};
use thiserror::Error;
use zh_commands::{desk_of, write_reply};
use zh_disk::Disk;
use zh_film::Film;
use zh_sheet_text::write_sheet;
use zh_text::{WriteFault, put};

/// The most bytes that a read asks for.
const BLOCK: usize = 8192;

/// The fault that ended serving.
#[derive(Clone, Copy, Debug, Error)]
#[error("{}", self.name())]
pub enum ServeFault {
    /// The reader failed.
    Read,
    /// The writer failed or took no byte.
    Write,
    /// All allowed reads were made, and none of them met the end of the input.
    Turns,
}

impl ServeFault {
    /// Its name in reports.
    pub fn name(self) -> &'static str
        ensures name { result.now ≡ serving_name self }
        ensures short { length result.now ≤ 5 }
    {
        match self {
            ServeFault::Read => "read",
            ServeFault::Write => "write",
            ServeFault::Turns => "turns",
        }
    }
}

impl From<WriteFault> for ServeFault {
    ghost from_gives = { λ _ e. e ≡ faults.Write };

    fn from(_: WriteFault) -> Self {
        ServeFault::Write
    }
}

impl<'s> Office<'s> {
    /// Writes an answer under the number of the desk that asked.
    fn write_answer<W: Write>(
        &self,
        desk: u8,
        answer: &Answer<'s>,
        writer: &mut W,
    ) -> Result<(), WriteFault>
        ensures { WritesText (W.contents writer.old) (W.contents writer.new)
            (answer_text desk self.now.ledger.tally.accepted answer.now) result }
    {
        match answer {
            Answer::Reply(reply) => {
                let mut text = [0; 64];
                let len = write_reply(desk, reply, &mut text);
                put(writer, &text[..len])
            }
            Answer::Sheet(sheet, is_final) => {
                write_sheet(sheet, desk, *is_final, self.count().accepted(), writer)
            }
        }
    }

    /// Answers a line, then writes the answer under the number of the desk that asked, or 0 if the line does not begin with
    /// that of a desk.
    fn answer<R: Read, W: Write, D: Disk>(
        &mut self,
        bytes: &[u8],
        reader: &R,
        writer: &mut W,
        disk: &mut D,
        film: &mut Film<R, W, D>,
    ) -> Result<(), WriteFault>
        ensures { MatchResult result
            (λ _. FilmsAll (bytes.now ∷ [])
            (session (W.contents writer.old) self.old (D.history disk.old)
            (R.remaining reader.now) (frames R.Read W.Write D.Disk film.old))
            (session (W.contents writer.new) self.new (D.history disk.new)
            (R.remaining reader.now) (frames R.Read W.Write D.Disk film.new)))
            (λ _. FilmsFront (bytes.now ∷ [])
            (session (W.contents writer.old) self.old (D.history disk.old)
            (R.remaining reader.now) (frames R.Read W.Write D.Disk film.old))
            (session (W.contents writer.new) self.new (D.history disk.new)
            (R.remaining reader.now) (frames R.Read W.Write D.Disk film.new))) }
    {
        let desk = desk_of(bytes);
        let answer = self.line(disk, bytes);
        film.note(reader, writer, disk);
        self.write_answer(desk, &answer, writer)?;
        film.note(reader, writer, disk);
        Ok(())
    }

    /// Answers the lines that end in a block; the first of them begins with the bytes in `line`. Then `line` contains the
    /// bytes of the line that has not ended, at most its first 121. Returns how many lines it answered.
    fn take_block<R: Read, W: Write, D: Disk>(
        &mut self,
        line: &mut PartialLine,
        block: &[u8],
        reader: &R,
        writer: &mut W,
        disk: &mut D,
        film: &mut Film<R, W, D>,
    ) -> Result<usize, WriteFault>
        requires { HasNoEnd line.old.items }
        ensures { MatchResult result
            (TakesBlock
            (session (W.contents writer.old) self.old (D.history disk.old)
            (R.remaining reader.now) (frames R.Read W.Write D.Disk film.old))
            line.old.items block.now
            (session (W.contents writer.new) self.new (D.history disk.new)
            (R.remaining reader.now) (frames R.Read W.Write D.Disk film.new))
            line.new.items)
            (λ _. FilmsFront (ended_lines (line.old.items ++ block.now))
            (session (W.contents writer.old) self.old (D.history disk.old)
            (R.remaining reader.now) (frames R.Read W.Write D.Disk film.old))
            (session (W.contents writer.new) self.new (D.history disk.new)
            (R.remaining reader.now) (frames R.Read W.Write D.Disk film.new))) }
    {
        let mut rest = block;
        let mut count = 0;
        while let Some((ended, others)) = split_line(rest) {
            extend_line(line, ended);
            self.answer(line, reader, writer, disk, film)?;
            line.clear();
            rest = others;
            count += 1;
        }
        extend_line(line, rest);
        Ok(count)
    }

    /// Answers the last line, which has not ended, if it has a byte. Returns how many lines it answered, 0 or 1.
    fn finish<R: Read, W: Write, D: Disk>(
        &mut self,
        line: &PartialLine,
        reader: &R,
        writer: &mut W,
        disk: &mut D,
        film: &mut Film<R, W, D>,
    ) -> Result<u64, WriteFault>
        ensures { MatchResult result
            (λ count. (count ≡ length (last_line line.now.items)) × FilmsAll (last_line line.now.items)
            (session (W.contents writer.old) self.old (D.history disk.old)
            (R.remaining reader.now) (frames R.Read W.Write D.Disk film.old))
            (session (W.contents writer.new) self.new (D.history disk.new)
            (R.remaining reader.now) (frames R.Read W.Write D.Disk film.new)))
            (λ _. FilmsFront (last_line line.now.items)
            (session (W.contents writer.old) self.old (D.history disk.old)
            (R.remaining reader.now) (frames R.Read W.Write D.Disk film.old))
            (session (W.contents writer.new) self.new (D.history disk.new)
            (R.remaining reader.now) (frames R.Read W.Write D.Disk film.new))) }
    {
        if line.is_empty() {
            return Ok(0);
        }
        self.answer(line, reader, writer, disk, film)?;
        Ok(1)
    }

    /// Answers the lines of a reader until its end, in at most `turns` reads of up to 8,192 bytes. Returns the number of
    /// lines, or 2^64 - 1 if there are more.
    ///
    /// If the reader fails, or the reads are used up before one meets the end of the input, the lines that had ended by
    /// then are answered, and a line that had not ended is not. If the writer fails, a proper prefix of the answers is
    /// written; the line whose answer is cut short has been carried out, and no line after it. An interrupted read or write
    /// counts as a failure.
    ///
    /// The film, which must be empty, notes the order of these events: the disk has carried out a line before its answer is
    /// written, and a line is answered before the next one is carried out and before more is read.
    pub fn serve<R: Read, W: Write, D: Disk>(
        &mut self,
        reader: &mut R,
        writer: &mut W,
        disk: &mut D,
        film: &mut Film<R, W, D>,
        turns: u64,
    ) -> Result<u64, ServeFault>
        requires { scenes film.old ≡ [] }
        ensures serves { Serves
            (session (W.contents writer.old) self.old (D.history disk.old) (R.remaining reader.old) [])
            (session (W.contents writer.new) self.new (D.history disk.new)
            (R.remaining reader.new) (frames R.Read W.Write D.Disk film.new))
            result }
        // The latest frame of the film is of a failed read exactly if serving ends with the fault `Read`.
        ensures failed { HasFailedRead (frames R.Read W.Write D.Disk film.new) ↔ IsErrOf result ServeFault.Read }
        // However serving ends, the history of the disk continues from the one before, and its count of failures does not
        // fall.
        ensures disk { Continues (on_disk self.old.ledger (D.history disk.old)) (on_disk self.new.ledger (D.history disk.new)) }
        // At most `turns` reads are made, and exactly that many if serving ends for lack of reads. Each read takes at least one
        // byte, except possibly the last.
        ensures reads { IsReadWithin result (frames R.Read W.Write D.Disk film.new)
            (R.remaining reader.old) (R.remaining reader.new) turns }
    {
        let mut block = blank_block();
        let mut line = PartialLine::new();
        let mut count: u64 = 0;
        film.note(reader, writer, disk);
        for _ in 0..turns {
            let Ok(len) = film.read(reader, writer, disk, &mut block) else {
                return Err(ServeFault::Read);
            };
            if len == 0 {
                let last = self.finish(&line, reader, writer, disk, film)?;
                return Ok(count.saturating_add(last));
            }
            let lines = self.take_block(&mut line, &block[..len], reader, writer, disk, film)?;
            count = count.saturating_add(lines as u64);
        }
        Err(ServeFault::Turns)
    }
}

/// Room for one read.
fn blank_block() -> [u8; BLOCK] {
    [0; BLOCK]
}
