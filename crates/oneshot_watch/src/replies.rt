//! A cancellable ticket as a future, which a task polls.

ghost use Rattle.std.specs.Prelude.{◌≡◌, ◌≢◌, ⊤, true, Result, Err, IfOk};
ghost use Rattle.futures.specs.declared.task.Poll.TheVariants.{Pending};
ghost use Rattle.futures.specs.Poll.{IfReady, OnPending};
ghost use Rattle.futures.specs.Task.{Covers, Keeps};
ghost use Rattle.oneshot_channel.specs.BetweenCalls.{try_recv_reply};
ghost use Rattle.oneshot_channel.specs.Counts.{receiver_bound, GrewWithin};
ghost use Rattle.oneshot_channel.specs.Ends.{IsClosed, IsOpen, ReceiverGrew, WillBeWoken};
ghost use Rattle.oneshot_channel.specs.Phases.{receiver_at};
ghost use Rattle.oneshot_channel.specs.Polls.{LeavesPolled, LeavesTried, StaysRegistered, IsDisconnected, poll_reply};
ghost use Rattle.oneshot_channel.specs.ReceiverStart.TheVariants as C;
ghost use Rattle.oneshot_channel.specs.RecvError.{RecvError};
ghost use Rattle.oneshot_channel.specs.Taken.{Takes, TakesReady};
ghost use Rattle.oneshot_channel.specs.TryRecvError.TheVariants as Tried;

use crate::guard::Guard;
use futures::Future;
use futures::task::{Context, Poll};
use oneshot_channel::reply::{Answer, Asked};
use oneshot_channel::{AsyncReceiver, RecvError, TryRecvError};
use std::marker::Model;

/// A future that receives a reply, with the guard that its server watches. `CancellableTicket::into_future` makes it.
///
/// Its calls have the contracts of those of an `AsyncReceiver` of a ticket. It keeps its guard, also after it was
/// ready.
///
/// Dropping it drops a reply that was sent and not received, and `rt`. A later `answer` is refused: its error owns the
/// reply. Then the drop tells the server's watch. It does not wait for the server: it blocks only if the drop of the
/// reply or of `rt` does. As that of an `AsyncReceiver`, it wakes the task of each copy of a waker that the future has.
///
/// It may go to another thread between two polls where `Q`, `A` and `Rt` are `Send`. Two threads may not share it.
///
/// A contract sees it as its receiver (`FutureView`), whose `channel.about` has the question.
pub struct CancellableReply<Q: Eq, A: Answer<Q>, Rt> {
    replies: AsyncReceiver<A, Rt, Asked<Q>>,
    guard: Guard,
}

impl<Q: Eq, A: Answer<Q>, Rt> Model for CancellableReply<Q, A, Rt> {
    ghost use Rattle.oneshot_channel.specs.Asked.{Asked};
    ghost use Rattle.oneshot_channel.specs.Ends.{FutureView};

    ghost Value = { FutureView A (Asked Q) };

    ghost view = { λ r. r.replies };
}

impl<Q: Eq, A: Answer<Q>, Rt> CancellableReply<Q, A, Rt> {
    pub(crate) fn new(
        replies: AsyncReceiver<A, Rt, Asked<Q>>,
        guard: Guard,
    ) -> CancellableReply<Q, A, Rt>
        ensures { result ≡ replies }
    {
        CancellableReply { replies, guard }
    }

    /// Whether the request was dropped unanswered, or the reply was received; if so, every later poll and `try_recv`
    /// returns an error. It performs one load and never blocks. No clause states what it returns.
    ///
    /// `true` stays true. `false` may be out of date at once, since the request may be dropped.
    pub fn is_closed(&self) -> bool {
        self.replies.is_closed()
    }

    /// Whether the reply is there; if so, the next poll or `try_recv` returns it. It performs one load and never
    /// blocks. No clause states what it returns.
    ///
    /// `true` stays true until a poll or a `try_recv` takes the reply. `false` may be out of date at once.
    pub fn has_message(&self) -> bool {
        self.replies.has_message()
    }
}

impl<Q: Eq, A: Answer<Q> + Drop, Rt: Drop> CancellableReply<Q, A, Rt> {
    /// Receives the reply if it is there, as `AsyncReceiver::try_recv` does. It never blocks and does not allocate.
    ///
    /// - `Ok`: the reply. The future is closed from then on.
    /// - `Err(Empty)`: when the call checked, no reply had come and the request was not dropped, or its `answer` or its
    ///   drop was about to finish. The future stays open, and a registered task is still registered.
    /// - `Err(Disconnected)`: the request was dropped unanswered, or the reply was received before. Every later
    ///   `try_recv` and poll fails in the same way.
    pub fn try_recv(&mut self) -> Result<A, TryRecvError>
        ensures channel { self.new.channel ≡ self.old.channel }
        ensures source { self.new.source ≡ self.old.source }
        ensures run { ReceiverGrew A C.AsyncTryRecv self.old.log self.new.log (try_recv_reply result) }
        ensures leaves { LeavesTried (try_recv_reply result) (receiver_at self.new.log) }
        ensures closes { result ≢ Err Tried.Empty → IsClosed self.new.log }
        ensures stays_open { result ≡ Err Tried.Empty → IsOpen self.new.log }
        ensures stays_closed { IsClosed self.old.log → result ≡ Err Tried.Disconnected }
        ensures stays_registered { StaysRegistered result (receiver_at self.old.log) (receiver_at self.new.log) }
        ensures same_waker { result ≡ Err Tried.Empty → self.new.registered ≡ self.old.registered }
        ensures bounded { GrewWithin (receiver_bound C.AsyncTryRecv) self.old.log self.new.log }
        ensures promise { IfOk result (λ reply. Q.eq (A.asked reply) self.old.channel.about.question ≡ true) }
        ensures took { Takes result self.old.took self.new.took }
    {
        self.replies.try_recv()
    }
}

impl<Q: Eq, A: Answer<Q> + Drop, Rt: Drop> Future for CancellableReply<Q, A, Rt> {
    type Output = Result<A, RecvError>;

    ghost needs = { λ r s. s ≡ r.source };

    // The reply names a question equal to the ticket's, also after an executor or a combinator has passed it on.
    ghost gives = { λ r answer. IfOk answer (λ reply. Q.eq (A.asked reply) r.channel.about.question ≡ true) };

    /// Polls once, for the task of `cx`, as `AsyncReceiver::poll` does. It does not wait and does not allocate.
    fn poll(&mut self, cx: &mut Context<'_>) -> Poll<Result<A, RecvError>>
        ensures value { IfReady result
            (λ answer. IfOk answer (λ reply. Q.eq (A.asked reply) self.old.channel.about.question ≡ true)) }
        ensures again { OnPending result ⊤ }
        ensures same { OnPending result ((answer : Result A RecvError)
            → IfOk answer (λ reply. Q.eq (A.asked reply) self.new.channel.about.question ≡ true)
            → IfOk answer (λ reply. Q.eq (A.asked reply) self.old.channel.about.question ≡ true)) }
        ensures registered { OnPending result (Covers cx.new (λ s. s ≡ self.new.source)) }
        ensures woken { OnPending result (WillBeWoken cx.new self.new) }
        ensures kept { Keeps cx.old cx.new }
        ensures channel { self.new.channel ≡ self.old.channel }
        ensures source { self.new.source ≡ self.old.source }
        ensures run { ReceiverGrew A C.Poll self.old.log self.new.log (poll_reply result) }
        ensures leaves { LeavesPolled (poll_reply result) (receiver_at self.new.log) }
        ensures closes { result ≢ Pending → IsClosed self.new.log }
        ensures stays_open { result ≡ Pending → IsOpen self.new.log }
        ensures stays_closed { IsClosed self.old.log → IsDisconnected result }
        ensures bounded { GrewWithin (receiver_bound C.Poll) self.old.log self.new.log }
        ensures took { TakesReady result self.old.took self.new.took }
    {
        self.replies.poll(cx)
    }
}

impl<Q: Eq, A: Answer<Q> + Drop, Rt: Drop> Drop for CancellableReply<Q, A, Rt> {
    // The receiver goes first, so that a server that is told finds the request cancelled.
    fn drop(self) {
        let CancellableReply { replies, guard } = self;
        drop(replies);
        drop(guard);
    }
}
