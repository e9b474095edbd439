//! The end that receives, and may block until a message comes.

ghost use Rattle.std.specs.Prelude.{◌≡◌, ◌≢◌, true, Err, IsErr, IfOk, IfSome};
ghost use Rattle.std.specs.Time.{instant_nanos, FitsClock};
ghost use Rattle.oneshot_errors.specs.declared.recv_timeout.RecvTimeoutError.TheVariants as Timed;
ghost use Rattle.oneshot_errors.specs.declared.try_recv.TryRecvError.TheVariants as Tried;
ghost use Rattle.oneshot_machine.specs.declared.machine.receiver.ReceiverStart.TheVariants.{TryRecv, RecvRef, RecvDeadline, RecvTimeout};
ghost use Rattle.oneshot_machine.specs.Counts.{receiver_bound, GrewWithin};
ghost use Rattle.oneshot_machine.specs.Phases.{receiver_at};
ghost use Rattle.oneshot_drive.specs.BetweenCalls.{Leaves, try_recv_reply, recv_reply, timed_reply};
ghost use Rattle.oneshot_ends.specs.Deadlines.{TimeoutRan};
ghost use Rattle.oneshot_ends.specs.Ends.{ReceiverGrew, IsClosed, IsOpen, channel_at};
ghost use Rattle.oneshot_ends.specs.Grounds.{IsNewReceiver};
ghost use Rattle.oneshot_ends.specs.OwnWakers.{IsHalfOf};
ghost use Rattle.oneshot_ends.specs.Taken.{Takes};

use crate::deadline::{Deadline, Reading, read};
use crate::future::AsyncReceiver;
use crate::ground::{Blocking, ChannelReceiver, ReceiverBackend};
use crate::message::Message;
use crate::patience::Patience;
use crate::token::{ParkingHalf, WakingHalf};
use crate::waker::ChannelWaker;
use futures::task::{Source, Waker};
use oneshot_drive::{drop_receiver, recv, recv_deadline, recv_ref, recv_timeout, try_recv};
use oneshot_errors::{RecvError, RecvTimeoutError, TryRecvError};
use oneshot_word::{Promise, ReceiverSide};
use std::marker::Model;
use std::sync::Wait;
use std::time::{Clock, Duration, Instant};

/// Receives one message from its sender. `channel` and `channel_for` make it.
///
/// Dropping it drops a message that was sent and not received, and drops `rt` last. A later `send` is refused: its
/// error owns the message. The drop does not wait for the sender: it blocks only if the drop of the message or of
/// `rt` does.
///
/// The receives that block (`recv`, `recv_ref`, `recv_deadline`, `recv_timeout`) need `Rt: Wait + Clock`.
/// The other calls accept any `Rt: Drop`, such as `()`.
///
/// A contract sees the receiver's channel, with the value that it is about, the log of the receiver's
/// operations on the word, which determines whether the receiver is closed, and the message that it took out
/// of the channel, if it has. It takes at most one.
///
/// `P` is the promise of a channel of `channel_for`: each message that a receive returns keeps it.
/// `Receiver<T, Rt>` is the receiver of a channel without one.
///
/// It may go to another thread where `T` and `Rt` are `Send`. Two threads may not share it.
pub struct Receiver<T, Rt, P: Promise<T> = ()> {
    pub(crate) ground: ReceiverBackend<T, WakingHalf, Waker, P>,
    // The parker's waking half, unless the sender took it to wake the receiver.
    hand: Option<ChannelWaker>,
    // A parker is not `Sync`, so only one thread at a time has the receiver.
    parker: ParkingHalf,
    // Where its polls register, once it is a future.
    source: Source,
    rt: Rt,
}

impl<T, Rt, P: Promise<T>> Model for Receiver<T, Rt, P> {
    ghost use Rattle.oneshot_ends.specs.Ends.{ReceiverView, channel_at};
    ghost use Rattle.oneshot_ends.specs.Invariants.{ReceiverInvariant};

    ghost Value = { ReceiverView T P };

    ghost view = { λ r. record {
      channel = channel_at r.ground;
      log = r.ground.log;
      took = r.ground.passed;
    } };

    ghost invariant = { λ r. ReceiverInvariant r.parker.parker r.hand r.ground };
}

impl<T, Rt, P: Promise<T>> Receiver<T, Rt, P> {
    pub(crate) fn new(
        side: ReceiverSide<T, WakingHalf, Waker, P>,
        parker: ParkingHalf,
        half: ChannelWaker,
        rt: Rt,
    ) -> Receiver<T, Rt, P>
        requires new { IsNewReceiver side }
        requires own { IsHalfOf parker.parker half }
        ensures channel { result.channel ≡ channel_at side }
        ensures log { result.log ≡ side.log }
        ensures took { result.took ≡ side.passed }
    {
        Receiver {
            ground: ReceiverBackend::new(side),
            hand: Some(half),
            parker,
            source: Source::new(),
            rt,
        }
    }

    /// Whether the sender is gone without a message, or the message was received; if so, every later
    /// receive returns an error. It performs one load and never blocks. No clause states what it returns.
    ///
    /// `true` stays true. `false` may be out of date at once, since the sender may be dropped.
    pub fn is_closed(&self) -> bool {
        self.ground.is_closed()
    }

    /// Whether the message is there; if so, the next receive returns it. It performs one load and never
    /// blocks. No clause states what it returns.
    ///
    /// `true` stays true until a receive. `false` may be out of date at once, since the sender may send.
    pub fn has_message(&self) -> bool {
        self.ground.has_message()
    }
}

impl<T: Drop, Rt: Drop, P: Promise<T>> Receiver<T, Rt, P> {
    /// Receives the message if it is there. It never blocks and does not allocate.
    ///
    /// - `Ok`: the message. The receiver is closed from then on.
    /// - `Err(Empty)`: when the call checked, no message had come, and the sender was not gone. The receiver
    ///   stays open.
    /// - `Err(Disconnected)`: the sender is gone without a message, or the message was received before.
    ///   Every later receive fails in the same way.
    pub fn try_recv(&mut self) -> Result<T, TryRecvError>
        ensures channel { self.new.channel ≡ self.old.channel }
        ensures run { ReceiverGrew T TryRecv self.old.log self.new.log (try_recv_reply result) }
        ensures leaves { Leaves (try_recv_reply result) (receiver_at self.new.log) }
        ensures closes { result ≢ Err Tried.Empty → IsClosed self.new.log }
        ensures stays_open { result ≡ Err Tried.Empty → IsOpen self.new.log }
        ensures stays_closed { IsClosed self.old.log → result ≡ Err Tried.Disconnected }
        ensures bounded { GrewWithin (receiver_bound TryRecv) self.old.log self.new.log }
        ensures promise { IfOk result (λ message. P.keeps self.old.channel.about message) }
        ensures took { Takes result self.old.took self.new.took }
    {
        try_recv(&mut self.ground)
    }

    /// Turns the receiver into a future, which a task can poll. It performs no operation on the word, never
    /// blocks and does not allocate. The receiver's parker is dropped.
    ///
    /// The future keeps `rt`. Its drop drops `rt`. No call turns a future back into a receiver.
    pub fn into_future(self) -> AsyncReceiver<T, Rt, P>
        ensures channel { result.channel ≡ self.channel }
        ensures log { result.log ≡ self.log }
        ensures took { result.took ≡ self.took }
    {
        let Receiver {
            ground,
            hand: _,
            parker,
            source,
            rt,
        } = self;
        parker.let_go(&ground);
        AsyncReceiver::new(ground, source, rt)
    }
}

impl<T: Drop, Rt: Wait + Clock + Drop, P: Promise<T>> Receiver<T, Rt, P> {
    /// Blocks until the message is there or will never come. It does not allocate.
    ///
    /// Before it sleeps, it yields once and spins some microseconds. It blocks forever if the sender is neither used
    /// nor dropped, for example because this thread still holds it.
    ///
    /// - `Ok`: the message.
    /// - `Err`: the sender is gone without a message, or the message was received before.
    ///
    /// Either way the receiver is then closed, and every later receive returns an error.
    pub fn recv_ref(&mut self) -> Result<T, RecvError>
        ensures channel { self.new.channel ≡ self.old.channel }
        ensures run { ReceiverGrew T RecvRef self.old.log self.new.log (recv_reply result) }
        ensures leaves { Leaves (recv_reply result) (receiver_at self.new.log) }
        ensures closes { IsClosed self.new.log }
        ensures stays_closed { IsClosed self.old.log → IsErr result }
        ensures promise { IfOk result (λ message. P.keeps self.old.channel.about message) }
        ensures took { Takes result self.old.took self.new.took }
    {
        let patience = Patience::until(Deadline::Never);
        let mut lent = Blocking::lend(&mut self.ground, &mut self.parker, &self.rt, patience);
        recv_ref(&mut lent, &self.rt, &mut self.hand)
    }

    /// Blocks until the message is there or will never come, or until the runtime's clock is past
    /// `deadline`, an instant of that clock. It does not allocate.
    ///
    /// - `Ok`: the message. A message that is there is received, however late the call is.
    /// - `Err(Timeout)`: the clock is past `deadline`. When the call last checked, the sender was there and
    ///   had sent nothing. The receiver stays open.
    /// - `Err(Disconnected)`: the sender is gone without a message, or the message was received before.
    ///   Every later receive fails in the same way.
    ///
    /// A clock that reads `deadline` itself is not past it. A clock that fails counts as past every
    /// deadline: a rule of this port. Past the deadline the call waits only for a sender that has found this
    /// receiver waiting and is in its `send` or its drop, as in the Rust crate. No clause names `deadline`.
    ///
    /// With at least 100 ms left it spins before it sleeps, as `recv_ref` does, and with less it sleeps at once. Past
    /// the deadline it spins again before it sleeps.
    pub fn recv_deadline(&mut self, deadline: Instant) -> Result<T, RecvTimeoutError>
        ensures channel { self.new.channel ≡ self.old.channel }
        ensures run { ReceiverGrew T RecvDeadline self.old.log self.new.log (timed_reply result) }
        ensures leaves { Leaves (timed_reply result) (receiver_at self.new.log) }
        ensures closes { result ≢ Err Timed.Timeout → IsClosed self.new.log }
        ensures stays_open { result ≡ Err Timed.Timeout → IsOpen self.new.log }
        ensures stays_closed { IsClosed self.old.log → result ≡ Err Timed.Disconnected }
        ensures promise { IfOk result (λ message. P.keeps self.old.channel.about message) }
        ensures took { Takes result self.old.took self.new.took }
    {
        let patience = Patience::until(Deadline::At(deadline));
        let mut lent = Blocking::lend(&mut self.ground, &mut self.parker, &self.rt, patience);
        recv_deadline(&mut lent, &self.rt, &mut self.hand)
    }

    /// Blocks as `recv_deadline` does, until more than `timeout` has passed by the runtime's clock. It does
    /// not allocate.
    ///
    /// The results are those of `recv_deadline`. `timeout` may be zero: a message that is there is received. If no
    /// instant can hold the sum of now and `timeout`, the call blocks as `recv_ref` does and never returns `Timeout`,
    /// as in the Rust crate. If the clock fails, the deadline is over at once. No clause names `timeout`.
    pub fn recv_timeout(&mut self, timeout: Duration) -> Result<T, RecvTimeoutError>
        ensures channel { self.new.channel ≡ self.old.channel }
        ensures run { ReceiverGrew T (RecvTimeout true) self.old.log self.new.log (timed_reply result) }
        ensures leaves { Leaves (timed_reply result) (receiver_at self.new.log) }
        ensures closes { result ≢ Err Timed.Timeout → IsClosed self.new.log }
        ensures stays_open { result ≡ Err Timed.Timeout → IsOpen self.new.log }
        ensures stays_closed { IsClosed self.old.log → result ≡ Err Timed.Disconnected }
        ensures promise { IfOk result (λ message. P.keeps self.old.channel.about message) }
        ensures took { Takes result self.old.took self.new.took }
    {
        let reading = read(&self.rt);
        self.recv_after(reading, timeout)
    }

    // Waits until `timeout` after `reading`.
    fn recv_after(&mut self, reading: Reading, timeout: Duration) -> Result<T, RecvTimeoutError>
        requires { IfSome reading.instant (λ now. FitsClock (instant_nanos now)) }
        ensures channel { self.new.channel ≡ self.old.channel }
        ensures run { TimeoutRan T timeout reading.instant self.old.log self.new.log (timed_reply result) }
        ensures leaves { Leaves (timed_reply result) (receiver_at self.new.log) }
        ensures stays_closed { IsClosed self.old.log → result ≡ Err Timed.Disconnected }
        ensures promise { IfOk result (λ message. P.keeps self.old.channel.about message) }
        ensures took { Takes result self.old.took self.new.took }
    {
        let patience = Patience::after(reading, timeout);
        let has_end = patience.has_end();
        let mut lent = Blocking::lend(&mut self.ground, &mut self.parker, &self.rt, patience);
        recv_timeout(&mut lent, &self.rt, &mut self.hand, has_end)
    }
}

impl<T: Message, Rt: Wait + Clock + Drop, P: Promise<T>> Receiver<T, Rt, P> {
    /// Blocks until the message is there or will never come. It consumes the receiver, drops its `rt`, and does not
    /// allocate.
    ///
    /// - `Ok`: the message.
    /// - `Err`: the sender is gone without a message, or the message was received before.
    ///
    /// Before it sleeps, it yields once and spins some microseconds. It blocks forever if the sender is neither used
    /// nor dropped, for example because this thread still holds it.
    pub fn recv(self) -> Result<T, RecvError>
        ensures stays_closed { IsClosed self.log → IsErr result }
        ensures promise { IfOk result (λ message. P.keeps self.channel.about message) }
    {
        let Receiver {
            mut ground,
            mut hand,
            mut parker,
            source: _,
            rt,
        } = self;
        let patience = Patience::until(Deadline::Never);
        let mut lent = Blocking::lend(&mut ground, &mut parker, &rt, patience);
        let result = recv(&mut lent, &rt, &mut hand);
        parker.let_go(&ground);
        T::received(ground);
        result
    }
}

impl<T: Drop, Rt: Drop, P: Promise<T>> Drop for Receiver<T, Rt, P> {
    fn drop(self) {
        let Receiver {
            mut ground,
            hand: _,
            parker,
            source: _,
            rt,
        } = self;
        drop_receiver(&mut ground);
        parker.let_go(&ground);
        ground.dropped();
        // Last: this may be code of the caller, and may wait for the sender.
        drop(rt);
    }
}
