//! The types that both transition tables use: ends, steps, what a step sees, and replies.
//!
//! Each table stands twice. The files of the folder `machine` have its rows as code, which the model runs. The files of
//! `specs/` have the same rows as definitions, by which contracts and laws are stated. A `row` here has the arms in the
//! order of the definition's rows, one for each (of `StartSwap`, one for both values of `timed` where their rows are
//! the same), and its contract proves that it is the definition.
//!
//! A row that is wrong in both places meets this contract. Other proofs may refuse it: `tables_are_exact` compares the
//! operations of both tables, each driver of `oneshot_drive` is proved to follow the rows, and every run has to keep
//! the laws of `oneshot_laws`. Beside the proofs, `scripts/traces` runs an input for each row
//! (`scripts/parts/leads.txt`), and compares the text with that of `scripts/parts/reference.py`, which has tables of
//! its own. `oneshot_trace_audit` has the digests of such texts under 10,000 schedules a pair of scripts, and
//! `scripts/traces drawn` computes them by the reference.

mod async_drop;
mod by_ref;
mod drop;
mod future;
mod look;
mod receiver;
mod sender;
mod timed;
mod try_recv;
mod value;

use crate::states::Op;
pub use async_drop::AsyncDropPos;
pub use by_ref::RefPos;
pub use drop::DropPos;
pub use future::FuturePos;
pub use look::LookPos;
pub use receiver::{ReceiverPos, ReceiverStart};
pub use sender::{SenderCall, SenderPos};
pub use timed::TimedPos;
pub use try_recv::TryPos;
pub use value::ValuePos;

/// An end of the channel.
#[derive(Clone, Copy, Debug, Eq, PartialEq)]
pub enum End {
    /// The sender, or the error of its refused `send`.
    Sender,
    /// The receiver, also as a future.
    Receiver,
}

/// What one step of an end does. A call is a sequence of steps, by its transition table.
#[derive(Clone, Copy, Debug, Eq, PartialEq)]
pub enum Step {
    /// One operation on the shared word.
    Word(Op),
    /// The sender stores its message.
    WriteMessage,
    /// The message is taken from its slot.
    TakeMessage,
    /// The message is dropped in its slot.
    DropMessage,
    /// The receiver moves its waker from its hand into the slot.
    WriteWaker,
    /// The sender takes the waker from its slot.
    TakeWaker,
    /// The receiver takes its waker back from the slot into its hand.
    Withdraw,
    /// The receiver parks. The park may end without a wake.
    Park,
    /// The receiver reads its clock.
    Clock,
    /// The receiver copies its task's waker into its hand.
    Copy,
    /// The sender wakes the receiver by the waker that it took.
    Wake,
    /// A poll wakes its own task.
    WakeOwn,
    /// The block is freed.
    Free,
    /// None of these: `into_future` or `as_inner`.
    Plain,
}

/// What a step sees, by which the table selects its row.
#[derive(Clone, Copy, Debug, Eq, PartialEq)]
pub enum Seen {
    /// Nothing that the table depends on.
    Done,
    /// The word before the operation. A `Store` sees `Done` instead.
    Word(u8),
    /// By the clock, whether the deadline is over.
    Over(bool),
    /// Whether the copy of a waker was refused.
    Refused(bool),
    /// Whether a park ended by its token, which it consumed.
    Token(bool),
}

/// What a call returns, without the message.
#[derive(Clone, Copy, Debug, Eq, PartialEq)]
pub enum Reply {
    /// `send` returned `Ok`.
    Sent,
    /// `send` returned `Err`, with the message.
    Refused,
    /// `is_closed` or `has_message` returned `true`.
    Yes,
    /// `is_closed` or `has_message` returned `false`.
    No,
    /// The call returned the message, or `as_inner` a reference to it.
    Message,
    /// `try_recv` found no message yet.
    Empty,
    /// The deadline of a receive is over, and its swap found that the sender had not acted.
    Timeout,
    /// The call's disconnected error.
    Disconnected,
    /// A poll returned `Pending`.
    Pending,
    /// `into_future` returned the future.
    Future,
    /// The drop is done.
    Done,
}

/// Where a row leads.
#[derive(Clone, Copy)]
pub(crate) enum RowEnd<Position> {
    /// To another position of the call.
    Goes(Position),
    /// To the reply that ends the call.
    Answers(Reply),
}
