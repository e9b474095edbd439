//! Why nothing was measured.

ghost use Rattle.std.specs.Prelude.{◌≡◌};
ghost use Rattle.oneshot_loops.specs.CommandFault.{status_of};

use crate::command::USAGE;
use crate::fault as rounds;
use std::alloc::AllocError;
use thiserror::Error;

/// Why nothing was measured.
#[derive(Debug, Drop, Error)]
pub enum Fault {
    /// The arguments are not a loop's name and a count, with or without a channel's name before them.
    #[error("{USAGE}")]
    BadArguments,
    /// The output could not be written.
    #[error("write failed")]
    WriteFailed,
    /// The rounds ended early, or none was made.
    #[error(transparent)]
    Rounds(#[from] rounds::Fault),
    /// Out of memory, before the rounds.
    #[error("out of memory")]
    OutOfMemory(#[from(alloc)] AllocError),
}

impl Fault {
    /// Returns the program's exit status, from 1 to 3.
    pub fn status(&self) -> u8
        ensures { result ≡ status_of self.now }
    {
        match self {
            Fault::BadArguments => 2,
            Fault::WriteFailed => 1,
            Fault::Rounds(rounds::Fault::ClockFailed) => 1,
            Fault::Rounds(rounds::Fault::MessageLost) => 1,
            Fault::Rounds(rounds::Fault::CannotRun) => 2,
            Fault::Rounds(rounds::Fault::TaskFailed) => 1,
            Fault::Rounds(rounds::Fault::OutOfMemory(_)) => 3,
            Fault::OutOfMemory(_) => 3,
        }
    }
}
