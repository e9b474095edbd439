//! The watch as a future, which a task polls.

ghost use Rattle.std.specs.Prelude.{◌≡◌, ◌≢◌, ⊤, true, false};
ghost use Rattle.futures.specs.declared.task.Poll.TheVariants.{Pending, Ready};
ghost use Rattle.futures.specs.Poll.{IfReady, OnPending};
ghost use Rattle.futures.specs.Task.{Covers, Keeps};
ghost use Rattle.oneshot_channel.specs.Counts.{receiver_bound, GrewWithin};
ghost use Rattle.oneshot_channel.specs.Ends.{IsClosed, IsOpen, ReceiverGrew, WillBeWoken};
ghost use Rattle.oneshot_channel.specs.ReceiverStart.TheVariants as C;
ghost use Rattle.oneshot_channel.specs.Reply.TheVariants as R;
ghost use Rattle.oneshot_watch.specs.declared.never.Never.{Never};

use crate::never::Never;
use futures::Future;
use futures::task::{Context, Poll};
use oneshot_channel::{AsyncReceiver, RecvError, TryRecvError};
use std::marker::Model;

/// A future that is ready once its guard is gone.
///
/// `Watch::into_future` makes it. Dropping it drops `rt` too, and blocks only if that drop does; the guard is not told.
/// As that of an `AsyncReceiver`, the drop wakes the task of each copy of a waker that the future has.
///
/// A contract sees it as its receiver (`FutureView`): it is closed exactly if a call has found its guard gone.
///
/// It may go to another thread between two polls where `Rt` is `Send`. Two threads may not share it.
#[derive(Drop)]
pub struct AsyncWatch<Rt> {
    receiver: AsyncReceiver<Never, Rt>,
}

impl<Rt> Model for AsyncWatch<Rt> {
    ghost use Rattle.oneshot_channel.specs.Ends.{FutureView};
    ghost use Rattle.oneshot_watch.specs.declared.never.Never.{Never};

    ghost Value = { FutureView Never Unit };

    ghost view = { λ w. w.receiver };
}

impl<Rt> AsyncWatch<Rt> {
    pub(crate) fn new(receiver: AsyncReceiver<Never, Rt>) -> AsyncWatch<Rt>
        ensures { result ≡ receiver }
    {
        AsyncWatch { receiver }
    }
}

impl<Rt: Drop> AsyncWatch<Rt> {
    /// Whether the guard is gone. It never blocks and does not allocate. After `false` a registered task is still
    /// registered.
    ///
    /// `true` stays true. `false` may be out of date at once, and also comes while the guard's drop is about to finish.
    pub fn is_gone(&mut self) -> bool
        ensures channel { self.new.channel ≡ self.old.channel }
        ensures source { self.new.source ≡ self.old.source }
        ensures gone { result ≡ true → IsClosed self.new.log }
        ensures gone_run { result ≡ true
            → ReceiverGrew Never C.AsyncTryRecv self.old.log self.new.log R.Disconnected }
        ensures there { result ≡ false → IsOpen self.new.log }
        ensures there_run { result ≡ false
            → ReceiverGrew Never C.AsyncTryRecv self.old.log self.new.log R.Empty }
        ensures same_waker { result ≡ false → self.new.registered ≡ self.old.registered }
        ensures stays_gone { IsClosed self.old.log → result ≡ true }
        ensures bounded { GrewWithin (receiver_bound C.AsyncTryRecv) self.old.log self.new.log }
    {
        match self.receiver.try_recv() {
            Err(TryRecvError::Disconnected) => true,
            Err(TryRecvError::Empty) => false,
        }
    }
}

impl<Rt: Drop> Future for AsyncWatch<Rt> {
    type Output = ();

    ghost needs = { λ w s. s ≡ w.source };

    /// Polls once, for the task of `cx`, as `AsyncReceiver::poll` does. It does not wait and does not allocate.
    ///
    /// - `Ready`: the guard is gone. A future that was ready returns this from then on (clause `stays_gone`).
    /// - `Pending`: when the call checked, the guard was there, or its drop was about to finish. A registered waker
    ///   wakes the task, or the task has asked for another poll (clause `woken`). If the context could make no waker,
    ///   `woken` states nothing of the waker. The task asks for another poll if no copy of its waker could be made, or
    ///   if the drop was about to finish. The law `no_wakeup_is_lost` states that a drop which has ended has used the
    ///   registered waker.
    #[tactic(auto, using(crate::proofs::Gone::not_pending))]
    fn poll(&mut self, cx: &mut Context<'_>) -> Poll<()>
        ensures value { IfReady result (λ _. ⊤) }
        ensures again { OnPending result ⊤ }
        ensures same { OnPending result (Unit → ⊤ → ⊤) }
        ensures registered { OnPending result (Covers cx.new (λ s. s ≡ self.new.source)) }
        ensures woken { OnPending result (WillBeWoken cx.new self.new) }
        ensures kept { Keeps cx.old cx.new }
        ensures channel { self.new.channel ≡ self.old.channel }
        ensures source { self.new.source ≡ self.old.source }
        ensures gone { result ≢ Pending → IsClosed self.new.log }
        ensures gone_run { result ≢ Pending → ReceiverGrew Never C.Poll self.old.log self.new.log R.Disconnected }
        ensures there { result ≡ Pending → IsOpen self.new.log }
        ensures there_run { result ≡ Pending → ReceiverGrew Never C.Poll self.old.log self.new.log R.Pending }
        ensures stays_gone { IsClosed self.old.log → result ≡ Ready tt }
        ensures bounded { GrewWithin (receiver_bound C.Poll) self.old.log self.new.log }
    {
        match self.receiver.poll(cx) {
            Poll::Ready(Err(RecvError)) => Poll::Ready(()),
            Poll::Pending => Poll::Pending,
        }
    }
}
