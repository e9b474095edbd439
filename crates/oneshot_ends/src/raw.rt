//! Opaque values that own an end of a channel and have no calls.

ghost use Rattle.std.specs.Prelude.{◌≡◌};

use crate::receiver::Receiver;
use crate::sender::Sender;
use oneshot_word::Promise;
use std::marker::Model;

/// An opaque sender, which `Sender::into_raw` makes and `Sender::from_raw` turns back. The Rust crate has a pointer
/// here.
///
/// Dropping it drops the sender: it wakes a waiting receiver, and no message comes. The drop does not wait for the
/// receiver. Waking a task takes locks, as the drop of a `Sender` does.
///
/// A contract sees it as the sender that it owns. It may go to another thread where `T` is `Send`. Several threads may
/// share a `&` to it where `T` is also `Sync`.
pub struct RawSender<T, P: Promise<T> = ()> {
    sender: Sender<T, P>,
}

impl<T, P: Promise<T>> Model for RawSender<T, P> {
    ghost use Rattle.oneshot_ends.specs.Ends.{SenderView};

    ghost Value = { SenderView P };

    ghost view = { λ r. r.sender };
}

impl<T, P: Promise<T>> Sender<T, P> {
    /// Turns the sender into an opaque value. It performs no operation on the word and does not allocate.
    ///
    /// In the Rust crate it returns a pointer, and the channel's memory leaks unless that is turned back
    /// into a sender. Here the value owns the sender, and dropping it drops the sender.
    pub fn into_raw(self) -> RawSender<T, P>
        ensures { result ≡ self }
    {
        RawSender { sender: self }
    }

    /// Turns `raw` back into its sender. It performs no operation on the word and does not allocate.
    ///
    /// In the Rust crate it is `unsafe`, since its caller may pass any pointer. Here it is safe: only
    /// `into_raw` makes a `RawSender<T>`, and this call consumes it.
    pub fn from_raw(raw: RawSender<T, P>) -> Sender<T, P>
        ensures { result ≡ raw }
    {
        raw.into_sender()
    }
}

impl<T, P: Promise<T>> RawSender<T, P> {
    fn into_sender(self) -> Sender<T, P>
        ensures { result ≡ self }
    {
        let RawSender { sender } = self;
        sender
    }
}

// Written out: a derived `Drop` would require `P: Drop`, and a channel holds no value of `P`.
impl<T: Drop, P: Promise<T>> Drop for RawSender<T, P> {
    fn drop(self) {
        let RawSender { sender: _ } = self;
    }
}

/// An opaque receiver, which `Receiver::into_raw` makes and `Receiver::from_raw` turns back. The Rust crate has a
/// pointer here.
///
/// Dropping it drops the receiver with its `rt`, and a message that was sent and not received. A later
/// `send` is refused: its error owns the message. The drop does not wait for the sender: it blocks only if the
/// drop of the message or of `rt` does.
///
/// A contract sees it as the receiver that it owns. It may go to another thread where `T` and `Rt` are
/// `Send`.
pub struct RawReceiver<T, Rt, P: Promise<T> = ()> {
    receiver: Receiver<T, Rt, P>,
}

impl<T, Rt, P: Promise<T>> Model for RawReceiver<T, Rt, P> {
    ghost use Rattle.oneshot_ends.specs.Ends.{ReceiverView};

    ghost Value = { ReceiverView T P };

    ghost view = { λ r. r.receiver };
}

impl<T, Rt, P: Promise<T>> Receiver<T, Rt, P> {
    /// Turns the receiver into an opaque value. It performs no operation on the word and does not allocate.
    ///
    /// In the Rust crate it returns a pointer, and the channel's memory leaks unless that is turned back
    /// into a receiver. Here the value owns the receiver, and dropping it drops the receiver.
    pub fn into_raw(self) -> RawReceiver<T, Rt, P>
        ensures { result ≡ self }
    {
        RawReceiver { receiver: self }
    }

    /// Turns `raw` back into its receiver. It performs no operation on the word and does not allocate.
    ///
    /// In the Rust crate it is `unsafe`, since its caller may pass any pointer. Here it is safe: only
    /// `into_raw` makes a `RawReceiver<T, Rt>`, and this call consumes it.
    pub fn from_raw(raw: RawReceiver<T, Rt, P>) -> Receiver<T, Rt, P>
        ensures { result ≡ raw }
    {
        raw.into_receiver()
    }
}

impl<T, Rt, P: Promise<T>> RawReceiver<T, Rt, P> {
    fn into_receiver(self) -> Receiver<T, Rt, P>
        ensures { result ≡ self }
    {
        let RawReceiver { receiver } = self;
        receiver
    }
}

impl<T: Drop, Rt: Drop, P: Promise<T>> Drop for RawReceiver<T, Rt, P> {
    fn drop(self) {
        let RawReceiver { receiver: _ } = self;
    }
}
