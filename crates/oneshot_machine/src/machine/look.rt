//! The receiver's looks: what each reads, and its reply.

ghost use Rattle.std.specs.Prelude.{◌≡◌};
ghost use Rattle.std.specs.Option.{option_map};
ghost use Rattle.oneshot_machine.specs.TableRows.{leads, row_for};
ghost use Rattle.oneshot_machine.specs.Look.{look_step, look_rows};

use crate::machine::RowEnd::Answers;
use crate::machine::receiver::ReceiverPos;
use crate::machine::{Reply, RowEnd, Seen, Step};
use crate::states::{DISCONNECTED, EMPTY, MESSAGE, Op, RECEIVING, UNPARKING};

/// The position of a look: its one read of the word.
#[derive(Clone, Copy)]
pub enum LookPos {
    /// `has_message` is about to read the word.
    LookFull,
    /// `is_closed` is about to read the word.
    LookClosed,
}

impl LookPos {
    pub(crate) fn step(&self) -> Step
        ensures { result ≡ look_step self.now }
    {
        match self {
            LookPos::LookFull => Step::Word(Op::Load),
            LookPos::LookClosed => Step::Word(Op::Load),
        }
    }

    pub(crate) fn row(&self, seen: Seen) -> Option<RowEnd<ReceiverPos>>
        ensures { option_map leads result ≡ row_for seen (look_rows self.now) }
    {
        let end = match (self, seen) {
            (LookPos::LookFull, Seen::Word(MESSAGE)) => Answers(Reply::Yes),
            (LookPos::LookFull, Seen::Word(RECEIVING)) => Answers(Reply::No),
            (LookPos::LookFull, Seen::Word(UNPARKING)) => Answers(Reply::No),
            (LookPos::LookFull, Seen::Word(DISCONNECTED)) => Answers(Reply::No),
            (LookPos::LookFull, Seen::Word(EMPTY)) => Answers(Reply::No),
            (LookPos::LookClosed, Seen::Word(DISCONNECTED)) => Answers(Reply::Yes),
            (LookPos::LookClosed, Seen::Word(RECEIVING)) => Answers(Reply::No),
            (LookPos::LookClosed, Seen::Word(UNPARKING)) => Answers(Reply::No),
            (LookPos::LookClosed, Seen::Word(EMPTY)) => Answers(Reply::No),
            (LookPos::LookClosed, Seen::Word(MESSAGE)) => Answers(Reply::No),
            _ => return None,
        };
        Some(end)
    }
}
