//! The receiver as a future, which a task polls.

ghost use Rattle.std.specs.Prelude.{◌≡◌, ◌≢◌, ⊤, Result, Err, IfOk};
ghost use Rattle.oneshot_errors.specs.declared.recv.RecvError.{RecvError};
ghost use Rattle.oneshot_errors.specs.declared.try_recv.TryRecvError.TheVariants as Tried;
ghost use Rattle.futures.specs.declared.task.Poll.TheVariants.{Pending};
ghost use Rattle.futures.specs.Poll.{IfReady, OnPending};
ghost use Rattle.futures.specs.Task.{Covers, Keeps};
ghost use Rattle.oneshot_machine.specs.declared.machine.receiver.ReceiverStart.TheVariants as C;
ghost use Rattle.oneshot_machine.specs.Counts.{receiver_bound, GrewWithin};
ghost use Rattle.oneshot_machine.specs.Phases.{receiver_at};
ghost use Rattle.oneshot_drive.specs.BetweenCalls.{AtRest, try_recv_reply};
ghost use Rattle.oneshot_drive.specs.Polls.{LeavesPolled, LeavesTried, StaysRegistered, IsDisconnected, poll_reply};
ghost use Rattle.oneshot_machine.specs.Called.{as_receiver};
ghost use Rattle.oneshot_ends.specs.Ends.{ReceiverGrew, HasCalls, IsClosed, IsOpen, channel_at, WillBeWoken};
ghost use Rattle.oneshot_ends.specs.Grounds.{state_of};
ghost use Rattle.oneshot_ends.specs.Taken.{TookAsFound, Takes, TakesReady};

use crate::copies::Copies;
use crate::ground::{Polling, ReceiverBackend};
use crate::token::WakingHalf;
use futures::Future;
use futures::task::{Context, Poll, Source, Waker};
use oneshot_drive::{async_try_recv, drop_async, poll};
use oneshot_errors::{RecvError, TryRecvError};
use oneshot_word::Promise;
use std::cell::Cell;
use std::marker::{Model, PhantomData};

/// A future that receives one message from its sender. `Receiver::into_future`, `Ticket::into_future`, `async_channel`
/// and `async_channel_for` make it. Its output is `Ok` with the message, or `Err` if the sender was dropped without a
/// message or the message was received before.
///
/// Dropping it drops a message that was sent and not received, and drops `rt` last. A later `send` is refused: its
/// error owns the message. A `send` that has found the future waiting is refused too, unless it finishes first. The
/// drop does not wait for the sender: it blocks only if the drop of the message or of `rt` does.
///
/// A copy is a clone of a task's waker, and the drop of a waker wakes its task. A future has at most two copies, also
/// after it was ready, and one of them may be in the channel. The drop of the future drops them, and so wakes their
/// tasks. A copy that the sender has taken is left to the sender. Waking a task takes locks, as the drop of a `Sender`
/// does.
///
/// A contract sees the future's channel, with the value that it is about, the log of the future's
/// operations on the word, which determines whether it is closed, the source at which its polls register, the
/// message that it took out of the channel, if it has, and while it is registered the waker by which its sender
/// wakes it. It takes at most one message.
///
/// `P` is the promise of its channel: the message that it returns keeps it.
///
/// It may go to another thread between two polls where `T` and `Rt` are `Send`. Two threads may not share it.
pub struct AsyncReceiver<T, Rt, P: Promise<T> = ()> {
    pub(crate) ground: ReceiverBackend<T, WakingHalf, Waker, P>,
    source: Source,
    // Copies of wakers that are not in the channel.
    copies: Copies<Waker>,
    // The runtime of the receiver, which no call of a future uses.
    rt: Rt,
    // A cell is not `Sync`, so only one thread at a time has the future.
    unshared: PhantomData<Cell<u8>>,
}

impl<T, Rt, P: Promise<T>> Model for AsyncReceiver<T, Rt, P> {
    ghost use Rattle.oneshot_ends.specs.Ends.{FutureView, channel_at, registered_by};
    ghost use Rattle.oneshot_ends.specs.Invariants.{FutureInvariant};

    ghost Value = { FutureView T P };

    ghost view = { λ r. record {
      channel = channel_at r.ground;
      log = r.ground.log;
      source = r.source.id;
      took = r.ground.passed;
      registered = registered_by r.ground;
    } };

    ghost invariant = { λ r. FutureInvariant r.ground };
}

impl<T, Rt, P: Promise<T>> AsyncReceiver<T, Rt, P> {
    pub(crate) fn new(
        ground: ReceiverBackend<T, WakingHalf, Waker, P>,
        source: Source,
        rt: Rt,
    ) -> AsyncReceiver<T, Rt, P>
        requires rests { AtRest (state_of ground) }
        requires calls { HasCalls T as_receiver ground.log }
        requires found { TookAsFound ground.passed ground.log }
        ensures channel { result.channel ≡ channel_at ground }
        ensures log { result.log ≡ ground.log }
        ensures took { result.took ≡ ground.passed }
    {
        AsyncReceiver {
            ground,
            source,
            copies: Copies::new(),
            rt,
            unshared: PhantomData,
        }
    }

    /// Whether the sender is gone without a message, or the message was received; if so, every later poll and
    /// `try_recv` returns an error. It performs one load and never blocks. No clause states what it returns.
    ///
    /// `true` stays true. `false` may be out of date at once, since the sender may be dropped.
    pub fn is_closed(&self) -> bool {
        self.ground.is_closed()
    }

    /// Whether the message is there; if so, the next poll or `try_recv` returns it. It performs one load and never
    /// blocks. No clause states what it returns.
    ///
    /// `true` stays true until a poll or a `try_recv` takes the message. `false` may be out of date at once, since the
    /// sender may send.
    pub fn has_message(&self) -> bool {
        self.ground.has_message()
    }
}

impl<T: Drop, Rt: Drop, P: Promise<T>> AsyncReceiver<T, Rt, P> {
    /// Receives the message if it is there. It never blocks and does not allocate. The Rust crate has no
    /// `try_recv` of a future: this one follows that of a `Receiver`.
    ///
    /// After `Empty` a registered task is still registered, as clause `stays_registered` states, by the same waker
    /// (`same_waker`). The law `no_wakeup_is_lost` states that a later `send`, or the sender's drop, then uses it.
    ///
    /// - `Ok`: the message. The future is closed from then on.
    /// - `Err(Empty)`: when the call checked, no message had come and the sender was not gone, or the sender was about
    ///   to finish. The future stays open. The call registers no task.
    /// - `Err(Disconnected)`: the sender is gone without a message, or the message was received before.
    ///   Every later `try_recv` and poll fails in the same way.
    pub fn try_recv(&mut self) -> Result<T, TryRecvError>
        ensures channel { self.new.channel ≡ self.old.channel }
        ensures source { self.new.source ≡ self.old.source }
        ensures run { ReceiverGrew T C.AsyncTryRecv self.old.log self.new.log (try_recv_reply result) }
        ensures leaves { LeavesTried (try_recv_reply result) (receiver_at self.new.log) }
        ensures closes { result ≢ Err Tried.Empty → IsClosed self.new.log }
        ensures stays_open { result ≡ Err Tried.Empty → IsOpen self.new.log }
        ensures stays_closed { IsClosed self.old.log → result ≡ Err Tried.Disconnected }
        ensures stays_registered { StaysRegistered result (receiver_at self.old.log) (receiver_at self.new.log) }
        ensures same_waker { result ≡ Err Tried.Empty → self.new.registered ≡ self.old.registered }
        ensures bounded { GrewWithin (receiver_bound C.AsyncTryRecv) self.old.log self.new.log }
        ensures promise { IfOk result (λ message. P.keeps self.old.channel.about message) }
        ensures took { Takes result self.old.took self.new.took }
    {
        async_try_recv(&mut self.ground)
    }
}

impl<T: Drop, Rt: Drop, P: Promise<T>> Future for AsyncReceiver<T, Rt, P> {
    type Output = Result<T, RecvError>;

    ghost needs = { λ r s. s ≡ r.source };

    // The message keeps the promise, also after an executor or a combinator has passed it on.
    ghost gives = { λ r answer. IfOk answer (λ message. P.keeps r.channel.about message) };

    /// Polls once, for the task of `cx`. It does not wait for the sender and does not allocate. If it makes a new copy
    /// of a waker, it may drop a copy of another task that the future kept. That drop wakes the other task, and takes
    /// locks, as the drop of a `Sender` does.
    ///
    /// The sender wakes at most one task: that of the last poll which left its waker in the channel.
    ///
    /// - `Ready(Ok)`: the message.
    /// - `Ready(Err)`: the sender was dropped without a message, or the message was received before. A
    ///   future that was ready returns this from then on.
    /// - `Pending`: no message yet. A registered waker wakes the task, or the task has asked for another poll (clause
    ///   `woken`). If the context could make no waker, `woken` states nothing of the waker. The task asks for another
    ///   poll if no copy of its waker could be made, and at each poll while the sender is about to finish: it has found
    ///   the future waiting, and its last operation on the word is still to come. The law `no_wakeup_is_lost` states
    ///   that a sender which has ended has used the registered waker.
    fn poll(&mut self, cx: &mut Context<'_>) -> Poll<Result<T, RecvError>>
        ensures value { IfReady result (λ answer. IfOk answer (λ message. P.keeps self.old.channel.about message)) }
        ensures again { OnPending result ⊤ }
        ensures same { OnPending result ((answer : Result T RecvError)
            → IfOk answer (λ message. P.keeps self.new.channel.about message)
            → IfOk answer (λ message. P.keeps self.old.channel.about message)) }
        ensures registered { OnPending result (Covers cx.new (λ s. s ≡ self.new.source)) }
        ensures woken { OnPending result (WillBeWoken cx.new self.new) }
        ensures kept { Keeps cx.old cx.new }
        ensures channel { self.new.channel ≡ self.old.channel }
        ensures source { self.new.source ≡ self.old.source }
        ensures run { ReceiverGrew T C.Poll self.old.log self.new.log (poll_reply result) }
        ensures leaves { LeavesPolled (poll_reply result) (receiver_at self.new.log) }
        ensures closes { result ≢ Pending → IsClosed self.new.log }
        ensures stays_open { result ≡ Pending → IsOpen self.new.log }
        ensures stays_closed { IsClosed self.old.log → IsDisconnected result }
        ensures bounded { GrewWithin (receiver_bound C.Poll) self.old.log self.new.log }
        ensures took { TakesReady result self.old.took self.new.took }
    {
        let mut lent = Polling {
            ground: &mut self.ground,
            cx: &mut *cx,
            source: &self.source,
            copies: &mut self.copies,
        };
        poll(&mut lent)
    }
}

impl<T: Drop, Rt: Drop, P: Promise<T>> Drop for AsyncReceiver<T, Rt, P> {
    fn drop(self) {
        let AsyncReceiver {
            mut ground,
            source: _,
            copies: _,
            rt,
            unshared: _,
        } = self;
        drop_async(&mut ground);
        ground.dropped();
        // Last: this may be code of the caller, and may wait for the sender.
        drop(rt);
    }
}
