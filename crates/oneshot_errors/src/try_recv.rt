//! Why a receive that does not wait has no message.

use std::error::Error;
use std::fmt;
use std::fmt::{Display, Formatter};

/// Why `try_recv` of a receiver or a future, or `try_take` of a ticket, has no message.
///
/// The two reasons are those of the Rust crate. `Display` writes "receiving on an empty channel" for `Empty`, and
/// "receiving on a closed channel" for `Disconnected`.
#[derive(Clone, Copy, Debug, Eq, Hash, PartialEq)]
pub enum TryRecvError {
    /// When the call checked, the sender was there and had sent nothing; or, for a future, the sender was about to
    /// finish. The receiver stays open, and a later receive may return the message.
    Empty,
    /// The sender was dropped without sending, or the message was received before. None will ever come.
    Disconnected,
}

impl Display for TryRecvError {
    ghost use Rattle.std.specs.Prelude.{Some};
    ghost use Rattle.oneshot_errors.specs.Texts.{try_recv_text};

    ghost output = { λ error. Some (try_recv_text error) };

    fn fmt<W: fmt::Write>(&self, f: &mut Formatter<W>) -> fmt::Result {
        match self {
            TryRecvError::Empty => f.pad("receiving on an empty channel"),
            TryRecvError::Disconnected => f.pad("receiving on a closed channel"),
        }
    }
}

impl Error for TryRecvError {}
