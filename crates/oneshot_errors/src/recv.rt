//! Why a receive without a limit, or a future, has no message.

use std::error::Error;
use std::fmt;
use std::fmt::{Display, Formatter};

/// Why `recv` or `recv_ref` of a receiver, `wait` of a ticket, or a future has no message: none will ever come.
///
/// The sender was dropped without sending, or the message was received before. The Rust crate has the same reasons.
///
/// `Display` writes "receiving on a closed channel".
#[derive(Clone, Copy, Debug, Eq, Hash, PartialEq)]
pub struct RecvError;

impl Display for RecvError {
    ghost use Rattle.std.specs.Prelude.{Some};
    ghost use Rattle.oneshot_errors.specs.Texts.{recv_text};

    ghost output = { λ _. Some recv_text };

    fn fmt<W: fmt::Write>(&self, f: &mut Formatter<W>) -> fmt::Result {
        f.pad("receiving on a closed channel")
    }
}

impl Error for RecvError {}
