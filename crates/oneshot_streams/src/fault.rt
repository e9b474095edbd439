//! The program's faults and their exit statuses.

ghost use Rattle.std.specs.Prelude.{◌≡◌, alloc_error};
ghost use Rattle.oneshot_streams.specs.declared.fault.Fault.TheVariants.{OutOfMemory};
ghost use Rattle.oneshot_streams.specs.Fault.{status_of, fault_of};

use oneshot_text::{Malformed, ParseError};
use std::alloc::{AllocError, AllocFailed};
use thiserror::Error;

/// Why the program wrote no whole trace.
#[derive(Debug, Drop, Error)]
pub enum Fault {
    /// The input could not be read.
    #[error("read failed")]
    ReadFailed,
    /// The output could not be written.
    #[error("write failed")]
    WriteFailed,
    /// The input has more than 1,048,576 bytes.
    #[error("input too long")]
    InputTooLong,
    /// A byte of the input is above 127.
    #[error("input is not ASCII")]
    NotAscii,
    /// The input is not three lines of the grammar.
    #[error(transparent)]
    Malformed(Malformed),
    /// Out of memory.
    #[error("out of memory")]
    OutOfMemory(AllocError),
}

impl From<ParseError> for Fault {
    ghost from_gives = { λ error fault. fault ≡ fault_of error };

    fn from(error: ParseError) -> Fault {
        match error {
            ParseError::Malformed(malformed) => Fault::Malformed(malformed),
            ParseError::OutOfMemory(refused) => Fault::OutOfMemory(refused),
        }
    }
}

impl From<AllocError> for Fault {
    ghost from_gives = { λ refused fault. fault ≡ OutOfMemory refused };

    fn from(refused: AllocError) -> Fault {
        Fault::OutOfMemory(refused)
    }
}

impl<T: Drop> From<AllocFailed<T>> for Fault {
    ghost from_gives = { λ _ fault. fault ≡ OutOfMemory alloc_error };

    fn from(_: AllocFailed<T>) -> Fault {
        Fault::OutOfMemory(AllocError)
    }
}

impl Fault {
    /// Returns the exit status: 1 for a stream, 2 for the input, 3 for memory.
    pub fn status(&self) -> u8
        ensures { result ≡ status_of self.now }
    {
        match self {
            Fault::ReadFailed => 1,
            Fault::WriteFailed => 1,
            Fault::InputTooLong => 2,
            Fault::NotAscii => 2,
            Fault::Malformed(_) => 2,
            Fault::OutOfMemory(_) => 3,
        }
    }
}
