//! Why a receive with a limit has no message.

use std::error::Error;
use std::fmt;
use std::fmt::{Display, Formatter};

/// Why `recv_deadline` or `recv_timeout` of a receiver, or `wait_for` of a ticket, has no message.
///
/// The two reasons are those of the Rust crate. `Display` writes "timed out waiting on channel" for `Timeout`, and
/// "channel is empty and sending half is closed" for `Disconnected`.
#[derive(Clone, Copy, Debug, Eq, Hash, PartialEq)]
pub enum RecvTimeoutError {
    /// The deadline was over, and when the call last checked, the sender was there and had sent nothing. The receiver
    /// stays open, and a later receive may return the message.
    ///
    /// In this port the deadline also counts as over if the clock fails.
    Timeout,
    /// The sender was dropped without sending, or the message was received before. None will ever come.
    Disconnected,
}

impl Display for RecvTimeoutError {
    ghost use Rattle.std.specs.Prelude.{Some};
    ghost use Rattle.oneshot_errors.specs.Texts.{recv_timeout_text};

    ghost output = { λ error. Some (recv_timeout_text error) };

    fn fmt<W: fmt::Write>(&self, f: &mut Formatter<W>) -> fmt::Result {
        match self {
            RecvTimeoutError::Timeout => f.pad("timed out waiting on channel"),
            RecvTimeoutError::Disconnected => {
                f.pad("channel is empty and sending half is closed")
            }
        }
    }
}

impl Error for RecvTimeoutError {}
