//! The bytes of a command: written in format Two, and read in either.
ghost use Rattle.std.specs.Int.{w16, w32, to_be_bytes};
ghost use Rattle.std.specs.List.{flat_map};
ghost use Rattle.std.specs.Prelude.{◌≡◌, ◌+◌, ◌*◌, ◌<◌, ◌≤◌, ◌^◌, ◌∷◌, ◌++◌, length, drop, ◌≢◌, ℕ, IfSome, IfNone};
ghost use Rattle.zh_returns.specs.Decoding.{Decodes};
ghost use Rattle.zh_returns.specs.Rows.{row_spelling, IsBatch};
ghost use Rattle.zh_returns.specs.Spelling.{command_spelling, FitsCommand, IsWithdrawal, IsSpeakable};
ghost use Rattle.zh_returns.specs.declared.command.Command.{Command};
ghost use Rattle.zh_returns.specs.declared.command.Format.{Format};

use crate::command::{
    BATCH_ONE, BATCH_TWO, CLOSE, Command, Format, LAST_DESK, REOPEN, RETURN_ONE, RETURN_TWO,
    WITHDRAW_ONE, WITHDRAW_TWO,
};
use crate::row::{ROW_LENGTH, read_row, write_row};
use crate::rows::Rows;
use byteorder::{BigEndian, ByteOrder};

/// The greatest length of a command in bytes: that of a batch of 1,000 rows in format Two.
pub(crate) const COMMAND_LENGTH: usize = 11_004;

/// The length of a kind and a desk, in bytes, in format Two.
pub(crate) const HEAD_LENGTH: usize = 2;

/// The length of a municipality, or of the number of rows, in bytes.
pub(crate) const SHORT_LENGTH: usize = 2;

/// The length of a withdrawal after its kind and its desk, in bytes.
pub(crate) const WITHDRAWAL_LENGTH: usize = 7;

/// Writes a command to the front of `out` in format Two, as docs/FORMATS.md describes it. Returns the number of its bytes.
pub fn encode_command(command: &Command<'_>, out: &mut [u8]) -> usize
    requires fits { FitsCommand command.now }
    requires room { length (command_spelling Format.Two command.now) ≤ length out.old }
    ensures length { result ≡ length (command_spelling Format.Two command.now) }
    ensures most { result ≤ COMMAND_LENGTH }
    ensures spelling { out.new ≡ command_spelling Format.Two command.now ++ drop result out.old }
{
    match command {
        Command::Return { desk, row } => {
            write_head(RETURN_TWO, *desk, out);
            write_row(*row, &mut out[HEAD_LENGTH..HEAD_LENGTH + ROW_LENGTH]);
            HEAD_LENGTH + ROW_LENGTH
        }
        Command::Withdraw {
            desk,
            municipality,
            list,
            number,
        } => {
            write_head(WITHDRAW_TWO, *desk, out);
            let fields = &mut out[HEAD_LENGTH..HEAD_LENGTH + WITHDRAWAL_LENGTH];
            write_withdrawal(*municipality, *list, *number, fields);
            HEAD_LENGTH + WITHDRAWAL_LENGTH
        }
        Command::Close { municipality } => write_short(CLOSE, *municipality, out),
        Command::Reopen { municipality } => write_short(REOPEN, *municipality, out),
        Command::Batch { desk, rows } => write_batch(*desk, rows, out),
    }
}

/// Writes a kind and a desk to the front of `out`.
fn write_head(kind: u8, desk: u8, out: &mut [u8])
    requires { HEAD_LENGTH ≤ length out.old }
    ensures { out.new ≡ kind ∷ desk ∷ drop HEAD_LENGTH out.old }
{
    out[0] = kind;
    out[1] = desk;
}

fn write_withdrawal(municipality: u32, list: u32, number: u32, out: &mut [u8])
    requires municipality { municipality < 2 ^ 16 }
    requires list { list < 2 ^ 8 }
    requires room { length out.old ≡ WITHDRAWAL_LENGTH }
    ensures { out.new ≡ to_be_bytes w16 municipality ++ (list ∷ to_be_bytes w32 number) }
{
    BigEndian::write_u16(out, municipality as u16);
    out[2] = list as u8;
    BigEndian::write_u32(&mut out[3..], number);
}

/// Writes a kind and a municipality to the front of `out` and returns the number of their bytes.
fn write_short(kind: u8, municipality: u32, out: &mut [u8]) -> usize
    requires municipality { municipality < 2 ^ 16 }
    requires room { 1 + SHORT_LENGTH ≤ length out.old }
    ensures length { result ≡ 1 + SHORT_LENGTH }
    ensures spelling { out.new ≡ (kind ∷ to_be_bytes w16 municipality) ++ drop (1 + SHORT_LENGTH) out.old }
{
    out[0] = kind;
    BigEndian::write_u16(&mut out[1..], municipality as u16);
    1 + SHORT_LENGTH
}

/// Writes a batch to the front of `out` and returns the number of its bytes.
fn write_batch(desk: u8, rows: &Rows<'_>, out: &mut [u8]) -> usize
    requires { HEAD_LENGTH + SHORT_LENGTH + ROW_LENGTH * length rows.now ≤ length out.old }
    ensures length { result ≡ HEAD_LENGTH + SHORT_LENGTH + ROW_LENGTH * length rows.now }
    ensures most { result ≤ COMMAND_LENGTH }
    ensures spelling { out.new ≡ (BATCH_TWO ∷ desk ∷ (to_be_bytes w16 (length rows.now) ++ flat_map row_spelling rows.now))
        ++ drop result out.old }
{
    let head = HEAD_LENGTH + SHORT_LENGTH;
    let end = head + ROW_LENGTH * rows.len();
    write_head(BATCH_TWO, desk, out);
    BigEndian::write_u16(&mut out[HEAD_LENGTH..], rows.len() as u16);
    out[head..end].copy_from_slice(rows.bytes());
    end
}

/// The command that has these bytes in a format, if there is one. In format One its desk is 0.
pub fn decode_command(bytes: &[u8], format: Format) -> Option<Command<'_>>
    ensures { Decodes (IsSpeakable format) (command_spelling format) bytes.now result }
{
    match (format, bytes) {
        (Format::One, [RETURN_ONE, row @ ..]) => Some(Command::Return {
            desk: 0,
            row: read_row(row)?,
        }),
        (Format::Two, [RETURN_TWO, desk @ 0..=LAST_DESK, row @ ..]) => Some(Command::Return {
            desk: *desk,
            row: read_row(row)?,
        }),
        (Format::One, [WITHDRAW_ONE, fields @ ..]) => Some(read_withdrawal(fields)?.by(0)),
        (Format::Two, [WITHDRAW_TWO, desk @ 0..=LAST_DESK, fields @ ..]) => {
            Some(read_withdrawal(fields)?.by(*desk))
        }
        (_, [CLOSE, municipality @ ..]) => Some(Command::Close {
            municipality: read_short(municipality)?,
        }),
        (_, [REOPEN, municipality @ ..]) => Some(Command::Reopen {
            municipality: read_short(municipality)?,
        }),
        (Format::One, [BATCH_ONE, batch @ ..]) => Some(Command::Batch {
            desk: 0,
            rows: read_batch(batch)?,
        }),
        (Format::Two, [BATCH_TWO, desk @ 0..=LAST_DESK, batch @ ..]) => Some(Command::Batch {
            desk: *desk,
            rows: read_batch(batch)?,
        }),
        _ => None,
    }
}

/// The fields of a withdrawal.
struct Withdrawal {
    municipality: u32,
    list: u32,
    number: u32,
}

impl Withdrawal {
    /// This withdrawal as a command of a desk.
    fn by<'a>(self, desk: u8) -> Command<'a>
        ensures { result ≡ Command.Withdraw desk self.municipality self.list self.number }
    {
        let Withdrawal {
            municipality,
            list,
            number,
        } = self;
        Command::Withdraw {
            desk,
            municipality,
            list,
            number,
        }
    }
}

/// The withdrawal that has these bytes after its kind and its desk. None if there are not 7 bytes, or if the replacement number
/// is 0.
fn read_withdrawal(bytes: &[u8]) -> Option<Withdrawal>
    ensures read { IfSome result (λ it. IsWithdrawal it.municipality it.list it.number
        × (to_be_bytes w16 it.municipality ++ (it.list ∷ to_be_bytes w32 it.number) ≡ bytes.now)) }
    ensures refused { IfNone result ((municipality list number : ℕ) → IsWithdrawal municipality list number
        → to_be_bytes w16 municipality ++ (list ∷ to_be_bytes w32 number) ≡ bytes.now → ⊥) }
{
    if bytes.len() != WITHDRAWAL_LENGTH {
        return None;
    }
    let municipality = BigEndian::read_u16(bytes) as u32;
    let list = bytes[2] as u32;
    let number = BigEndian::read_u32(&bytes[3..]);
    if number == 0 {
        return None;
    }
    Some(Withdrawal {
        municipality,
        list,
        number,
    })
}

/// The number in two bytes. None if there are not two bytes.
fn read_short(bytes: &[u8]) -> Option<u32>
    ensures read { IfSome result (λ number. (number < 2 ^ 16) × (to_be_bytes w16 number ≡ bytes.now)) }
    ensures refused { IfNone result (length bytes.now ≢ SHORT_LENGTH) }
{
    if bytes.len() != SHORT_LENGTH {
        return None;
    }
    Some(BigEndian::read_u16(bytes) as u32)
}

/// The rows of the batch that has these bytes after its kind and its desk, if there is one.
fn read_batch(bytes: &[u8]) -> Option<Rows<'_>>
    ensures { Decodes IsBatch (λ rows. to_be_bytes w16 (length rows) ++ flat_map row_spelling rows) bytes.now result }
{
    if bytes.len() < SHORT_LENGTH {
        return None;
    }
    let (count, rows) = bytes.split_at(SHORT_LENGTH);
    let rows = Rows::read(rows)?;
    if rows.len() != BigEndian::read_u16(count) as usize {
        return None;
    }
    Some(rows)
}
