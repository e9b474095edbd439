//! The receiver's transition table: the positions of its calls, the step at each, and where each row leads.

ghost use Rattle.std.specs.Prelude.{◌≡◌, Some, IsTrue, IfSome, is_some};
ghost use Rattle.std.specs.Option.{option_map};
ghost use Rattle.oneshot_machine.specs.TableRows.{leads, outcome};
ghost use Rattle.oneshot_machine.specs.Receiver.{receiver_start, receiver_step, receiver_row};

use crate::machine::RowEnd::{Answers, Goes};
use crate::machine::async_drop::AsyncDropPos;
use crate::machine::by_ref::RefPos;
use crate::machine::drop::DropPos;
use crate::machine::future::FuturePos;
use crate::machine::look::LookPos;
use crate::machine::timed::TimedPos;
use crate::machine::try_recv::TryPos;
use crate::machine::value::ValuePos;
use crate::machine::{Reply, RowEnd, Seen, Step};

/// A call of the receiver, or of the future that it became.
#[derive(Clone, Copy, Debug, Eq, PartialEq)]
pub enum ReceiverStart {
    /// `Receiver::try_recv`.
    TryRecv,
    /// `Receiver::recv`.
    Recv,
    /// `Receiver::recv_ref`.
    RecvRef,
    /// `Receiver::recv_deadline`.
    RecvDeadline,
    /// `Receiver::recv_timeout`.
    RecvTimeout {
        /// Whether an `Instant` can represent now plus the timeout, or the clock failed. If not, the call has no
        /// deadline.
        representable: bool,
    },
    /// `has_message` of a `Receiver` or an `AsyncReceiver`.
    HasMessage,
    /// `is_closed` of a `Receiver` or an `AsyncReceiver`.
    IsClosed,
    /// `Receiver::into_future`.
    IntoFuture,
    /// `AsyncReceiver::poll`.
    Poll,
    /// `AsyncReceiver::try_recv`.
    AsyncTryRecv,
    /// The receiver is dropped.
    Drop,
    /// The future is dropped.
    DropAsync,
}

/// A position of the receiver's table, by the family of its call.
#[derive(Clone, Copy)]
pub enum ReceiverPos {
    /// A look.
    Look(LookPos),
    /// A `try_recv`, or the last steps of another receive.
    Try(TryPos),
    /// A receive by reference.
    Ref(RefPos),
    /// A receive with a deadline.
    Timed(TimedPos),
    /// A receive by value.
    Value(ValuePos),
    /// A call of the receiver as a future.
    Future(FuturePos),
    /// The drop of a future.
    AsyncDrop(AsyncDropPos),
    /// The drop of a receiver, or the last steps that a future's drop shares with it.
    Drop(DropPos),
}

impl ReceiverPos {
    /// Returns the first position of `call`.
    pub fn start(call: ReceiverStart) -> ReceiverPos
        ensures { result ≡ receiver_start call }
    {
        match call {
            ReceiverStart::TryRecv => ReceiverPos::Try(TryPos::TryLoad),
            ReceiverStart::Recv => ReceiverPos::Value(ValuePos::RecvLoad),
            ReceiverStart::RecvRef => ReceiverPos::Ref(RefPos::StartLoad { timed: false }),
            ReceiverStart::RecvDeadline => ReceiverPos::Ref(RefPos::StartLoad { timed: true }),
            ReceiverStart::RecvTimeout { representable } => ReceiverPos::Timed(TimedPos::SumClock {
                representable,
            }),
            ReceiverStart::HasMessage => ReceiverPos::Look(LookPos::LookFull),
            ReceiverStart::IsClosed => ReceiverPos::Look(LookPos::LookClosed),
            ReceiverStart::IntoFuture => ReceiverPos::Future(FuturePos::IntoFuture),
            ReceiverStart::Poll => ReceiverPos::Future(FuturePos::PollLoad),
            ReceiverStart::AsyncTryRecv => ReceiverPos::Future(FuturePos::AsyncTryLoad),
            ReceiverStart::Drop => ReceiverPos::Drop(DropPos::DropSwap),
            ReceiverStart::DropAsync => ReceiverPos::AsyncDrop(AsyncDropPos::AsyncLoad),
        }
    }

    /// Returns the step at this position: an operation on the word, or another step.
    pub fn step(&self) -> Step
        ensures { result ≡ receiver_step self.now }
    {
        match self {
            ReceiverPos::Look(at) => at.step(),
            ReceiverPos::Try(at) => at.step(),
            ReceiverPos::Ref(at) => at.step(),
            ReceiverPos::Timed(at) => at.step(),
            ReceiverPos::Value(at) => at.step(),
            ReceiverPos::Future(at) => at.step(),
            ReceiverPos::AsyncDrop(at) => at.step(),
            ReceiverPos::Drop(at) => at.step(),
        }
    }

    /// Returns whether the table has a row here for `seen`.
    pub fn accepts(&self, seen: Seen) -> bool
        ensures { result ≡ is_some (receiver_row self.now seen) }
    {
        self.row(seen).is_some()
    }

    /// Follows the row for `seen`, which the position has to accept. Returns the next position; or this
    /// position, with the reply that ends the call.
    pub fn next(&self, seen: Seen) -> (ReceiverPos, Option<Reply>)
        requires { IsTrue (is_some (receiver_row self.now seen)) }
        ensures row { receiver_row self.now seen ≡ Some (outcome result) }
        ensures stays { IfSome result.1 (λ _. result.0 ≡ self.now) }
    {
        match self.row(seen) {
            Some(Goes(next)) => (next, None),
            Some(Answers(reply)) => (*self, Some(reply)),
            None => unreachable!(),
        }
    }

    // The row for `seen`, if the table has one.
    fn row(&self, seen: Seen) -> Option<RowEnd<ReceiverPos>>
        ensures { option_map leads result ≡ receiver_row self.now seen }
    {
        match self {
            ReceiverPos::Look(at) => at.row(seen),
            ReceiverPos::Try(at) => at.row(seen),
            ReceiverPos::Ref(at) => at.row(seen),
            ReceiverPos::Timed(at) => at.row(seen),
            ReceiverPos::Value(at) => at.row(seen),
            ReceiverPos::Future(at) => at.row(seen),
            ReceiverPos::AsyncDrop(at) => at.row(seen),
            ReceiverPos::Drop(at) => at.row(seen),
        }
    }
}
