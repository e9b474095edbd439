//! `try_recv`, and the last steps of every other receive but `recv`.

ghost use Rattle.std.specs.Prelude.{◌≡◌};
ghost use Rattle.std.specs.Option.{option_map};
ghost use Rattle.oneshot_machine.specs.TableRows.{leads, row_for};
ghost use Rattle.oneshot_machine.specs.TryRecv.{try_step, try_rows};

use crate::machine::RowEnd::{Answers, Goes};
use crate::machine::receiver::ReceiverPos;
use crate::machine::receiver::ReceiverPos::Try;
use crate::machine::{Reply, RowEnd, Seen, Step};
use crate::states::{DISCONNECTED, EMPTY, MESSAGE, Op};

/// A position of `try_recv`, or of the last steps of another receive.
#[derive(Clone, Copy)]
pub enum TryPos {
    /// `try_recv` is about to read the word.
    TryLoad,
    /// A receive that found the message is about to close the channel.
    Close,
    /// A receive is about to take its message.
    Take,
    /// A receive that found no sender is about to store `DISCONNECTED` again.
    CloseOnly,
}

impl TryPos {
    pub(crate) fn step(&self) -> Step
        ensures { result ≡ try_step self.now }
    {
        match self {
            TryPos::TryLoad => Step::Word(Op::Load),
            TryPos::Close => Step::Word(Op::Store(DISCONNECTED)),
            TryPos::Take => Step::TakeMessage,
            TryPos::CloseOnly => Step::Word(Op::Store(DISCONNECTED)),
        }
    }

    pub(crate) fn row(&self, seen: Seen) -> Option<RowEnd<ReceiverPos>>
        ensures { option_map leads result ≡ row_for seen (try_rows self.now) }
    {
        let end = match (self, seen) {
            (TryPos::TryLoad, Seen::Word(MESSAGE)) => Goes(Try(TryPos::Close)),
            (TryPos::TryLoad, Seen::Word(EMPTY)) => Answers(Reply::Empty),
            (TryPos::TryLoad, Seen::Word(DISCONNECTED)) => Answers(Reply::Disconnected),
            (TryPos::Close, Seen::Done) => Goes(Try(TryPos::Take)),
            (TryPos::Take, Seen::Done) => Answers(Reply::Message),
            (TryPos::CloseOnly, Seen::Done) => Answers(Reply::Disconnected),
            _ => return None,
        };
        Some(end)
    }
}
