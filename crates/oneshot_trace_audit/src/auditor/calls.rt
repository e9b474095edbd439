//! The calls of scripts, in their order.

use oneshot_machine::machine::Reply;
use oneshot_replay::{
    AsyncCall, AsyncLast, AsyncScript, ErrorLast, ErrorScript, ReceiverCall, ReceiverLast,
    ReceiverScript, SenderLast, SenderScript,
};

/// A call of an end, of a refused message's error, or of a future.
#[derive(Clone, Copy)]
pub(crate) enum Call {
    /// `Sender::is_closed`.
    SenderIsClosed,
    /// `Sender::send`.
    Send,
    /// The sender is dropped.
    DropSender,
    /// `SendError::as_inner`.
    AsInner,
    /// `SendError::into_inner`.
    IntoInner,
    /// The error is dropped.
    DropError,
    /// A call that leaves the receiver in place; a future's looks and its `try_recv` are the receiver's.
    Receiver(ReceiverCall),
    /// `Receiver::recv`.
    Recv,
    /// `Receiver::into_future`.
    IntoFuture,
    /// `AsyncReceiver::poll`, with the task's waker of this number.
    Poll(u64),
    /// The receiver or its future is dropped.
    DropReceiver,
}

impl Call {
    /// Whether it is a receive.
    pub(crate) fn is_receive(self) -> bool {
        match self {
            Call::Receiver(call) => !is_look(call),
            Call::Recv | Call::Poll(_) => true,
            Call::SenderIsClosed
            | Call::Send
            | Call::DropSender
            | Call::AsInner
            | Call::IntoInner
            | Call::DropError
            | Call::IntoFuture
            | Call::DropReceiver => false,
        }
    }

    /// Whether it ends its end. A call that ends an error does not.
    pub(crate) fn is_last_of_end(self) -> bool {
        matches!(
            self,
            Call::Send | Call::DropSender | Call::Recv | Call::DropReceiver
        )
    }

    /// The reply "nothing yet" of a receive. `None`: it has none, as a receive without a deadline.
    pub(crate) fn nothing_yet(self) -> Option<Reply> {
        match self {
            Call::Receiver(ReceiverCall::TryRecv) => Some(Reply::Empty),
            Call::Receiver(
                ReceiverCall::RecvDeadline
                | ReceiverCall::RecvTimeout {
                    representable: true,
                },
            ) => Some(Reply::Timeout),
            Call::Poll(_) => Some(Reply::Pending),
            _ => None,
        }
    }

    /// The reply of a call that is no step of the object.
    pub(crate) fn fixed_reply(self) -> Option<Reply> {
        match self {
            Call::AsInner | Call::IntoInner => Some(Reply::Message),
            Call::DropError => Some(Reply::Done),
            Call::IntoFuture => Some(Reply::Future),
            _ => None,
        }
    }
}

fn is_look(call: ReceiverCall) -> bool {
    matches!(call, ReceiverCall::HasMessage | ReceiverCall::IsClosed)
}

/// The sender's call after `others` calls. The calls of the error come only after a refused `send`.
pub(crate) fn sender_call(
    script: &SenderScript<u64>,
    others: usize,
    is_refused: bool,
) -> Option<Call> {
    if others < script.looks {
        return Some(Call::SenderIsClosed);
    }
    let past = others - script.looks;
    if past == 0 {
        return last_sender_call(script);
    }
    match &script.last {
        SenderLast::Send(_, error) if is_refused => error_call(error, past - 1),
        _ => None,
    }
}

fn last_sender_call(script: &SenderScript<u64>) -> Option<Call> {
    match &script.last {
        SenderLast::Send(_, _) => Some(Call::Send),
        SenderLast::Drop => Some(Call::DropSender),
        SenderLast::Stop => None,
    }
}

/// The error's call after `others` calls.
fn error_call(script: &ErrorScript, others: usize) -> Option<Call> {
    if others < script.looks {
        return Some(Call::AsInner);
    }
    if others > script.looks {
        return None;
    }
    match &script.last {
        ErrorLast::IntoInner => Some(Call::IntoInner),
        ErrorLast::Drop => Some(Call::DropError),
        ErrorLast::Stop => None,
    }
}

/// The receiver's call after `others` calls.
pub(crate) fn receiver_call(script: &ReceiverScript, others: usize) -> Option<Call> {
    let calls = script.calls.as_slice();
    if others < calls.len() {
        return Some(Call::Receiver(calls[others]));
    }
    let past = others - calls.len();
    if past == 0 {
        return last_receiver_call(script);
    }
    match &script.last {
        ReceiverLast::IntoFuture(future) => future_call(future, past - 1),
        ReceiverLast::Recv | ReceiverLast::Drop | ReceiverLast::Stop => None,
    }
}

fn last_receiver_call(script: &ReceiverScript) -> Option<Call> {
    match &script.last {
        ReceiverLast::Recv => Some(Call::Recv),
        ReceiverLast::Drop => Some(Call::DropReceiver),
        ReceiverLast::IntoFuture(_) => Some(Call::IntoFuture),
        ReceiverLast::Stop => None,
    }
}

/// The future's call after `others` calls.
fn future_call(script: &AsyncScript, others: usize) -> Option<Call> {
    let calls = script.calls.as_slice();
    if others < calls.len() {
        return Some(match calls[others] {
            AsyncCall::Poll(number) => Call::Poll(number),
            AsyncCall::TryRecv => Call::Receiver(ReceiverCall::TryRecv),
            AsyncCall::HasMessage => Call::Receiver(ReceiverCall::HasMessage),
            AsyncCall::IsClosed => Call::Receiver(ReceiverCall::IsClosed),
        });
    }
    match &script.last {
        AsyncLast::Drop if others == calls.len() => Some(Call::DropReceiver),
        AsyncLast::Drop | AsyncLast::Stop => None,
    }
}
