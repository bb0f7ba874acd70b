//! The lines of the desks.
ghost use Rattle.std.specs.Prelude.{◌≡◌};
ghost use Rattle.zh_returns.specs.Spelling.{HasNumbers};
ghost use Rattle.zh_commands.specs.Commands.{desk_command};
ghost use Rattle.zh_commands.specs.Lines.{IsRequest};

use thiserror::Error;
use zh_returns::{Command, Desk, Row};

/// A line that was read.
#[derive(Clone, Copy)]
pub struct Line {
    /// The desk that sent the line.
    pub desk: Desk,
    /// What the desk asks for.
    pub request: Request,
}

/// What a desk asks for.
#[derive(Clone, Copy)]
pub enum Request {
    /// A command that this one line gives.
    Command(DeskCommand),
    /// `commit`: the desk's batch becomes one command.
    Commit,
    /// A step of the desk's batch that is not a command.
    Batch(BatchStep),
    /// A question about the count.
    Query(DeskQuery),
}

/// The commands that one line gives.
#[derive(Clone, Copy)]
pub enum DeskCommand {
    /// `return M L N V`: the votes of a list in a municipality, under a replacement number (from 1).
    Return(Row),
    /// `withdraw M L N`: a list is withdrawn in a municipality, under a replacement number (from 1).
    Withdraw {
        municipality: u32,
        list: u32,
        number: u32,
    },
    /// `close M`: the municipality accepts no more returns and withdrawals.
    Close {
        municipality: u32,
    },
    /// `reopen M`: the closed municipality accepts them again.
    Reopen {
        municipality: u32,
    },
}

/// A step of a desk's batch that is not a command.
#[derive(Clone, Copy)]
pub enum BatchStep {
    /// `open`: begins a batch of the desk.
    Open,
    /// `row M L N V`: adds a return to the desk's batch.
    Row(Row),
    /// `drop`: gives up the desk's batch.
    Drop,
}

/// A question of a desk about the count. It changes nothing.
#[derive(Clone, Copy)]
pub enum DeskQuery {
    /// `show M L`: what is held for a list in a municipality.
    Show { municipality: u32, list: u32 },
    /// `last M L`: the desk that set what is held for a list in a municipality.
    Last { municipality: u32, list: u32 },
    /// `sheet`: the seats by the returns held.
    Sheet,
    /// `final`: the same, if every municipality is closed.
    Final,
}

impl DeskCommand {
    /// The command, given by this desk.
    pub fn of_desk(self, desk: Desk) -> Command<'static>
        ensures command { result ≡ desk_command desk self }
        ensures numbers { IsRequest (Request.Command self) → HasNumbers result }
    {
        let desk = desk.number;
        match self {
            DeskCommand::Return(row) => Command::Return { desk, row },
            DeskCommand::Withdraw {
                municipality,
                list,
                number,
            } => Command::Withdraw {
                desk,
                municipality,
                list,
                number,
            },
            DeskCommand::Close { municipality } => Command::Close { municipality },
            DeskCommand::Reopen { municipality } => Command::Reopen { municipality },
        }
    }
}

/// Why a line can't be read.
#[derive(Clone, Copy, Debug, Error)]
pub enum LineFault {
    /// The line has none of the forms in `docs/FORMATS.md`, "Lines", or has more than 120 bytes.
    #[error("syntax")]
    Syntax,
    /// The first word is a numeral, but not the number of a desk (1 to 8).
    #[error("desk")]
    Desk,
}
