//! A watch: it waits until its guard is gone, or looks whether it is.

ghost use Rattle.std.specs.Prelude.{◌≡◌, true, false};
ghost use Rattle.oneshot_channel.specs.Counts.{receiver_bound, GrewWithin};
ghost use Rattle.oneshot_channel.specs.Ends.{IsClosed, IsOpen, ReceiverGrew};
ghost use Rattle.oneshot_channel.specs.ReceiverStart.TheVariants.{TryRecv, RecvRef, RecvDeadline, RecvTimeout};
ghost use Rattle.oneshot_channel.specs.Reply.TheVariants as R;
ghost use Rattle.oneshot_watch.specs.declared.never.Never.{Never};

use crate::future::AsyncWatch;
use crate::never::Never;
use oneshot_channel::{Receiver, RecvError, RecvTimeoutError, TryRecvError};
use std::marker::Model;
use std::sync::Wait;
use std::time::{Clock, Duration, Instant};

/// Learns that its guard is gone.
///
/// Once a call has found the guard gone, each later one finds the same. Dropping the watch drops `rt` too, and blocks
/// only if that drop does; the guard is not told.
///
/// A contract sees it as its receiver (`ReceiverView`): it is closed exactly if a call has found its guard gone.
///
/// It may go to another thread where `Rt` is `Send`. Two threads may not share it.
#[derive(Drop)]
pub struct Watch<Rt> {
    receiver: Receiver<Never, Rt>,
}

impl<Rt> Model for Watch<Rt> {
    ghost use Rattle.oneshot_channel.specs.Ends.{ReceiverView};
    ghost use Rattle.oneshot_watch.specs.declared.never.Never.{Never};

    ghost Value = { ReceiverView Never Unit };

    ghost view = { λ w. w.receiver };
}

impl<Rt> Watch<Rt> {
    pub(crate) fn new(receiver: Receiver<Never, Rt>) -> Watch<Rt>
        ensures { result ≡ receiver }
    {
        Watch { receiver }
    }
}

impl<Rt: Drop> Watch<Rt> {
    /// Whether the guard is gone. It never blocks and does not allocate.
    ///
    /// `true` stays true. `false` may be out of date at once, since the guard may be dropped.
    pub fn is_gone(&mut self) -> bool
        ensures channel { self.new.channel ≡ self.old.channel }
        ensures gone { result ≡ true → IsClosed self.new.log }
        ensures gone_run { result ≡ true
            → ReceiverGrew Never TryRecv self.old.log self.new.log R.Disconnected }
        ensures there { result ≡ false → IsOpen self.new.log }
        ensures there_run { result ≡ false → ReceiverGrew Never TryRecv self.old.log self.new.log R.Empty }
        ensures stays_gone { IsClosed self.old.log → result ≡ true }
        ensures bounded { GrewWithin (receiver_bound TryRecv) self.old.log self.new.log }
    {
        match self.receiver.try_recv() {
            Err(TryRecvError::Disconnected) => true,
            Err(TryRecvError::Empty) => false,
        }
    }

    /// Turns the watch into a future that is ready once the guard is gone. It never blocks and does not allocate.
    pub fn into_future(self) -> AsyncWatch<Rt>
        ensures channel { result.channel ≡ self.channel }
        ensures log { result.log ≡ self.log }
    {
        AsyncWatch::new(self.receiver.into_future())
    }
}

impl<Rt: Wait + Clock + Drop> Watch<Rt> {
    /// Blocks until the guard is gone. It does not allocate.
    ///
    /// It spins before it sleeps, as `Receiver::recv` does. It blocks forever if the guard is never dropped, for
    /// example because this thread still holds it.
    pub fn wait(&mut self)
        ensures channel { self.new.channel ≡ self.old.channel }
        ensures run { ReceiverGrew Never RecvRef self.old.log self.new.log R.Disconnected }
        ensures gone { IsClosed self.new.log }
    {
        let Err(RecvError) = self.receiver.recv_ref();
    }

    /// Blocks until the guard is gone, or until the runtime's clock is past `deadline`, an instant of that clock.
    /// It does not allocate.
    ///
    /// - `true`: the guard is gone, however late the call is.
    /// - `false`: the clock is past `deadline`, and the guard was there when the call last checked.
    ///
    /// A clock that fails counts as past every deadline. Past the deadline the call waits only for a guard that has
    /// found this watch waiting and is in its drop. No clause names `deadline`.
    pub fn wait_deadline(&mut self, deadline: Instant) -> bool
        ensures channel { self.new.channel ≡ self.old.channel }
        ensures gone { result ≡ true → IsClosed self.new.log }
        ensures gone_run { result ≡ true
            → ReceiverGrew Never RecvDeadline self.old.log self.new.log R.Disconnected }
        ensures there { result ≡ false → IsOpen self.new.log }
        ensures there_run { result ≡ false
            → ReceiverGrew Never RecvDeadline self.old.log self.new.log R.Timeout }
        ensures stays_gone { IsClosed self.old.log → result ≡ true }
    {
        match self.receiver.recv_deadline(deadline) {
            Err(RecvTimeoutError::Disconnected) => true,
            Err(RecvTimeoutError::Timeout) => false,
        }
    }

    /// Blocks as `wait_deadline` does, until more than `timeout` has passed by the runtime's clock. It does not
    /// allocate.
    ///
    /// The results are those of `wait_deadline`. If no instant can hold the sum of now and `timeout`, the call
    /// never returns `false`. If the clock fails, the deadline is over at once. No clause names `timeout`.
    pub fn wait_timeout(&mut self, timeout: Duration) -> bool
        ensures channel { self.new.channel ≡ self.old.channel }
        ensures gone { result ≡ true → IsClosed self.new.log }
        ensures gone_run { result ≡ true
            → ReceiverGrew Never (RecvTimeout true) self.old.log self.new.log R.Disconnected }
        ensures there { result ≡ false → IsOpen self.new.log }
        ensures there_run { result ≡ false
            → ReceiverGrew Never (RecvTimeout true) self.old.log self.new.log R.Timeout }
        ensures stays_gone { IsClosed self.old.log → result ≡ true }
    {
        match self.receiver.recv_timeout(timeout) {
            Err(RecvTimeoutError::Disconnected) => true,
            Err(RecvTimeoutError::Timeout) => false,
        }
    }
}
