//! The drop of a future: it never blocks, and leaves the block to a sender that is about to finish.

ghost use Rattle.std.specs.Prelude.{◌≡◌};
ghost use Rattle.std.specs.Option.{option_map};
ghost use Rattle.oneshot_machine.specs.TableRows.{leads, row_for};
ghost use Rattle.oneshot_machine.specs.AsyncDrop.{async_drop_step, async_drop_rows};

use crate::machine::RowEnd::{Answers, Goes};
use crate::machine::async_drop::AsyncDropPos::{AsyncBack, AsyncExchange, AsyncLoad, AsyncSwap};
use crate::machine::drop::DropPos;
use crate::machine::receiver::ReceiverPos;
use crate::machine::receiver::ReceiverPos::{AsyncDrop, Drop};
use crate::machine::{Reply, RowEnd, Seen, Step};
use crate::states::{DISCONNECTED, EMPTY, MESSAGE, Op, RECEIVING, UNPARKING};

/// A position of a future's drop.
#[derive(Clone, Copy)]
pub enum AsyncDropPos {
    /// The future's drop is about to read the word.
    AsyncLoad,
    /// The future's drop is about to exchange `RECEIVING` for `EMPTY`.
    AsyncExchange,
    /// The future's drop is about to take its copy back.
    AsyncBack,
    /// The future's drop is about to close the channel.
    AsyncSwap,
}

impl AsyncDropPos {
    pub(crate) fn step(&self) -> Step
        ensures { result ≡ async_drop_step self.now }
    {
        match self {
            AsyncLoad => Step::Word(Op::Load),
            AsyncExchange => Step::Word(Op::Exchange(RECEIVING, EMPTY)),
            AsyncBack => Step::Withdraw,
            AsyncSwap => Step::Word(Op::Swap(DISCONNECTED)),
        }
    }

    pub(crate) fn row(&self, seen: Seen) -> Option<RowEnd<ReceiverPos>>
        ensures { option_map leads result ≡ row_for seen (async_drop_rows self.now) }
    {
        let end = match (self, seen) {
            (AsyncLoad, Seen::Word(RECEIVING)) => Goes(AsyncDrop(AsyncExchange)),
            (AsyncLoad, Seen::Word(UNPARKING)) => Goes(AsyncDrop(AsyncSwap)),
            (AsyncLoad, Seen::Word(DISCONNECTED)) => Goes(AsyncDrop(AsyncSwap)),
            (AsyncLoad, Seen::Word(EMPTY)) => Goes(AsyncDrop(AsyncSwap)),
            (AsyncLoad, Seen::Word(MESSAGE)) => Goes(AsyncDrop(AsyncSwap)),
            (AsyncExchange, Seen::Word(RECEIVING)) => Goes(AsyncDrop(AsyncBack)),
            (AsyncExchange, Seen::Word(UNPARKING)) => Goes(AsyncDrop(AsyncSwap)),
            (AsyncExchange, Seen::Word(DISCONNECTED)) => Goes(AsyncDrop(AsyncSwap)),
            (AsyncExchange, Seen::Word(MESSAGE)) => Goes(AsyncDrop(AsyncSwap)),
            (AsyncBack, Seen::Done) => Goes(AsyncDrop(AsyncSwap)),
            (AsyncSwap, Seen::Word(EMPTY)) => Answers(Reply::Done),
            (AsyncSwap, Seen::Word(UNPARKING)) => Answers(Reply::Done),
            (AsyncSwap, Seen::Word(MESSAGE)) => Goes(Drop(DropPos::DropMessage)),
            (AsyncSwap, Seen::Word(DISCONNECTED)) => Goes(Drop(DropPos::DropFree)),
            _ => return None,
        };
        Some(end)
    }
}
