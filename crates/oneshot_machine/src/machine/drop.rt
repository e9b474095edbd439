//! The drop of a receiver, and the last steps that the drop of a future shares with it.

ghost use Rattle.std.specs.Prelude.{◌≡◌};
ghost use Rattle.std.specs.Option.{option_map};
ghost use Rattle.oneshot_machine.specs.TableRows.{leads, row_for};
ghost use Rattle.oneshot_machine.specs.Drop.{drop_step, drop_rows};

use crate::machine::RowEnd::{Answers, Goes};
use crate::machine::receiver::ReceiverPos;
use crate::machine::receiver::ReceiverPos::Drop;
use crate::machine::{Reply, RowEnd, Seen, Step};
use crate::states::{DISCONNECTED, EMPTY, MESSAGE, Op};

/// A position of a receiver's drop, or of the last steps that a future's drop shares with it.
#[derive(Clone, Copy)]
pub enum DropPos {
    /// The drop is about to close the channel.
    DropSwap,
    /// The drop is about to drop the message that it found.
    DropMessage,
    /// The drop is about to free the block.
    DropFree,
}

impl DropPos {
    pub(crate) fn step(&self) -> Step
        ensures { result ≡ drop_step self.now }
    {
        match self {
            DropPos::DropSwap => Step::Word(Op::Swap(DISCONNECTED)),
            DropPos::DropMessage => Step::DropMessage,
            DropPos::DropFree => Step::Free,
        }
    }

    pub(crate) fn row(&self, seen: Seen) -> Option<RowEnd<ReceiverPos>>
        ensures { option_map leads result ≡ row_for seen (drop_rows self.now) }
    {
        let end = match (self, seen) {
            (DropPos::DropSwap, Seen::Word(EMPTY)) => Answers(Reply::Done),
            (DropPos::DropSwap, Seen::Word(MESSAGE)) => Goes(Drop(DropPos::DropMessage)),
            (DropPos::DropSwap, Seen::Word(DISCONNECTED)) => Goes(Drop(DropPos::DropFree)),
            (DropPos::DropMessage, Seen::Done) => Goes(Drop(DropPos::DropFree)),
            (DropPos::DropFree, Seen::Done) => Answers(Reply::Done),
            _ => return None,
        };
        Some(end)
    }
}
