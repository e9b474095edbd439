//! Scripts, which are the calls of each end, and the moves of a schedule.

ghost use Rattle.std.specs.Prelude.{◌≡◌, length};

use std::marker::Model;

/// What the sender does: looks, and then its last call.
#[derive(Debug, Drop)]
pub struct SenderScript<T> {
    /// How many times it calls `is_closed`.
    pub looks: usize,
    /// The call that ends the sender.
    pub last: SenderLast<T>,
}

/// The sender's last call.
#[derive(Debug, Drop)]
pub enum SenderLast<T> {
    /// `send` of this message, and what is done with the error if it is refused.
    Send(T, ErrorScript),
    /// The sender is dropped.
    Drop,
    /// No last call: the sender stays.
    Stop,
}

/// What is done with the error of a refused `send`: looks, and then its last call.
#[derive(Debug, Drop)]
pub struct ErrorScript {
    /// How many times `as_inner` is called.
    pub looks: usize,
    /// The call that ends the error.
    pub last: ErrorLast,
}

/// The error's last call.
#[derive(Debug, Drop)]
pub enum ErrorLast {
    /// `SendError::into_inner`.
    IntoInner,
    /// The error is dropped.
    Drop,
    /// No last call: the error stays.
    Stop,
}

/// What the receiver does: these calls in their order, and then its last one.
#[derive(Debug, Drop)]
pub struct ReceiverScript {
    /// The calls that leave the receiver in place.
    pub calls: CallList<ReceiverCall>,
    /// The call that ends the receiver.
    pub last: ReceiverLast,
}

/// A call that leaves the receiver in place.
#[derive(Clone, Copy, Debug, Eq, PartialEq)]
pub enum ReceiverCall {
    /// `Receiver::try_recv`.
    TryRecv,
    /// `Receiver::recv_ref`.
    RecvRef,
    /// `Receiver::recv_deadline`.
    RecvDeadline,
    /// `Receiver::recv_timeout`.
    RecvTimeout {
        /// As in `ReceiverStart::RecvTimeout`.
        representable: bool,
    },
    /// `Receiver::has_message`.
    HasMessage,
    /// `Receiver::is_closed`.
    IsClosed,
}

/// The receiver's last call.
#[derive(Debug, Drop)]
pub enum ReceiverLast {
    /// `Receiver::recv`.
    Recv,
    /// The receiver is dropped.
    Drop,
    /// `Receiver::into_future`, and what the future does.
    IntoFuture(AsyncScript),
    /// No last call: the receiver stays.
    Stop,
}

/// What the future does: these calls in their order, and then its last one.
#[derive(Debug, Drop)]
pub struct AsyncScript {
    /// The calls that leave the future in place.
    pub calls: CallList<AsyncCall>,
    /// The call that ends the future.
    pub last: AsyncLast,
}

/// A call that leaves the future in place.
#[derive(Clone, Copy, Debug, Eq, PartialEq)]
pub enum AsyncCall {
    /// `AsyncReceiver::poll`, with the task's waker of this number.
    Poll(u64),
    /// `AsyncReceiver::try_recv`.
    TryRecv,
    /// `AsyncReceiver::has_message`.
    HasMessage,
    /// `AsyncReceiver::is_closed`.
    IsClosed,
}

/// The future's last call.
#[derive(Debug, Drop)]
pub enum AsyncLast {
    /// The future is dropped.
    Drop,
    /// No last call: the future stays.
    Stop,
}

/// Calls in their order. Contracts see them as a list.
#[derive(Debug, Drop)]
pub struct CallList<C> {
    calls: Vec<C>,
}

impl<C> Model for CallList<C> {
    ghost use Rattle.std.specs.Prelude.{List};

    ghost Value = { List C };

    ghost view = { λ list. list.calls.items };
}

impl<C> From<Vec<C>> for CallList<C> {
    ghost from_gives = { λ calls list. list ≡ calls.items };

    fn from(calls: Vec<C>) -> CallList<C> {
        CallList { calls }
    }
}

impl<C> CallList<C> {
    /// Returns the calls, in the order in which they are made.
    pub fn as_slice(&self) -> &[C]
        ensures { result.now ≡ self.now }
    {
        self.calls.as_slice()
    }
}

/// One move of a schedule.
#[derive(Clone, Copy, Debug, Eq, PartialEq)]
pub enum Move {
    /// The sender moves.
    Sender,
    /// The receiver moves. If it then reads a clock, this is past the deadline if `over`. If it copies
    /// a waker, the copy is refused if `refuse`. No other step reads them.
    Receiver { over: bool, refuse: bool },
}
