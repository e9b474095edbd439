//! The end that sends: one message, or none if it is dropped.

ghost use Rattle.std.specs.Prelude.{◌≡◌, IfErr};
ghost use Rattle.oneshot_machine.specs.declared.machine.Reply.TheVariants.{Refused};
ghost use Rattle.oneshot_machine.specs.declared.machine.sender.SenderCall.TheVariants.{Send};
ghost use Rattle.oneshot_machine.specs.Phases.{fresh, sender_at};
ghost use Rattle.oneshot_machine.specs.Slots.{away, vacant};
ghost use Rattle.oneshot_ends.specs.Ends.{SenderGrew, channel_at};
ghost use Rattle.oneshot_ends.specs.Grounds.{IsNewSender};

use crate::error::SendError;
use crate::ground::Unsent;
use crate::message::Message;
use crate::token::WakingHalf;
use futures::task::Waker;
use oneshot_drive::{drop_sender, send};
use oneshot_word::{Promise, SenderSide};
use std::marker::Model;

/// Sends one message to its receiver. `channel`, `channel_for`, `async_channel` and `async_channel_for` make it.
///
/// Dropping it without a `send` wakes a waiting receiver, and no message comes. The drop does not wait for the receiver
/// and does not allocate. To wake a task, it takes the lock of the queue of that task's executor, and of each queue in
/// which that queue is nested. While another thread has such a lock, it tries again and yields.
///
/// A contract sees the sender's channel, with the value that the channel is about, and the log of the sender's
/// operations on the word, the atomic number that both ends share. The log is empty until the sender's one call.
///
/// `P` is the promise of a channel of `channel_for`. `Sender<T>` is the sender of a channel without one.
///
/// It may go to another thread where `T` is `Send`. Several threads may share a `&` to it where `T` is
/// also `Sync`, and call `is_closed`.
pub struct Sender<T, P: Promise<T> = ()> {
    pub(crate) side: Unsent<T, WakingHalf, Waker, P>,
}

impl<T, P: Promise<T>> Model for Sender<T, P> {
    ghost use Rattle.oneshot_ends.specs.Ends.{SenderView, channel_at};
    ghost use Rattle.oneshot_ends.specs.Grounds.{IsNewSender};

    ghost Value = { SenderView P };

    ghost view = { λ s. record { channel = channel_at s.side; log = s.side.log } };

    ghost invariant = { λ s. IsNewSender s.side };
}

impl<T, P: Promise<T>> Sender<T, P> {
    pub(crate) fn new(side: SenderSide<T, WakingHalf, Waker, P>) -> Sender<T, P>
        requires { IsNewSender side }
        ensures channel { result.channel ≡ channel_at side }
        ensures log { result.log ≡ side.log }
    {
        Sender {
            side: Unsent::new(side),
        }
    }

    /// Whether the receiver is gone; if so, a `send` is refused. It performs one load and never blocks. No clause
    /// states what it returns.
    ///
    /// `true` stays true. `false` may be out of date at once, since the receiver may be dropped.
    pub fn is_closed(&self) -> bool {
        self.side.is_closed()
    }
}

impl<T: Message> Sender<T> {
    /// Sends `message`, and wakes a waiting receiver. It does not wait for the receiver and does not allocate.
    /// Waking a task takes locks, as the drop of a `Sender` does (docs/TRUST.md of Hekotumi).
    ///
    /// - `Ok`: the receiver was there. If the receiver is dropped before it receives the message, its drop drops the
    ///   message.
    /// - `Err`: the receiver was gone, or was a future that was dropped while `send` was about to wake its
    ///   task. In the second case `send` still wakes that task. The error owns the message.
    pub fn send(self, message: T) -> Result<(), SendError<T>>
        ensures message { IfErr result (λ error. error.message ≡ message) }
        ensures channel { IfErr result (λ error. error.channel ≡ self.channel) }
        ensures run { IfErr result (λ error. SenderGrew T Send self.log error.log Refused) }
    {
        let Sender { side } = self;
        let mut ground = side.into_ground();
        // A body of its own: a call of `send_kept` would copy the message once more.
        if send(&mut ground, message) {
            T::sent(ground);
            return Ok(());
        }
        Err(SendError::refused(ground))
    }
}

impl<T: Message, P: Promise<T>> Sender<T, P> {
    /// Sends `message` as `send` does. It requires that `message` keeps the channel's promise, which the
    /// receive then guarantees. The results are those of `send`: the error owns a refused message.
    pub fn send_kept(self, message: T) -> Result<(), SendError<T, P>>
        requires promise { P.keeps self.channel.about message }
        ensures message { IfErr result (λ error. error.message ≡ message) }
        ensures channel { IfErr result (λ error. error.channel ≡ self.channel) }
        ensures run { IfErr result (λ error. SenderGrew T Send self.log error.log Refused) }
    {
        let Sender { side } = self;
        let mut ground = side.into_ground();
        // A body of its own too: `send` is for a channel without a promise.
        if send(&mut ground, message) {
            T::sent(ground);
            return Ok(());
        }
        Err(SendError::refused(ground))
    }
}

impl<T: Drop, P: Promise<T>> Drop for Sender<T, P> {
    fn drop(self) {
        let Sender { side } = self;
        let mut ground = side.into_ground();
        drop_sender(&mut ground);
        ground.dropped();
    }
}
