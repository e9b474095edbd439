//! A ticket whose drop tells the server that nobody waits for the reply.

ghost use Rattle.std.specs.Prelude.{◌≡◌, ◌≢◌, true, Err, IsErr, IfOk};
ghost use Rattle.oneshot_channel.specs.BetweenCalls.{Leaves, try_recv_reply, timed_reply};
ghost use Rattle.oneshot_channel.specs.Counts.{receiver_bound, GrewWithin};
ghost use Rattle.oneshot_channel.specs.Ends.{IsClosed, IsOpen, ReceiverGrew};
ghost use Rattle.oneshot_channel.specs.Phases.{receiver_at};
ghost use Rattle.oneshot_channel.specs.ReceiverStart.TheVariants.{RecvTimeout, TryRecv};
ghost use Rattle.oneshot_channel.specs.RecvTimeoutError.TheVariants as Timed;
ghost use Rattle.oneshot_channel.specs.Taken.{Takes};
ghost use Rattle.oneshot_channel.specs.TryRecvError.TheVariants as Tried;

use crate::guard::Guard;
use crate::replies::CancellableReply;
use oneshot_channel::reply::{Answer, Ticket};
use oneshot_channel::{Message, RecvError, RecvTimeoutError, TryRecvError};
use std::marker::Model;
use std::sync::Wait;
use std::time::{Clock, Duration};

/// A ticket with the guard that its server watches.
///
/// Its calls have the contracts of those of `Ticket`, except that `into_future` returns a `CancellableReply`.
///
/// It keeps its guard, also after `try_take` or `wait_for` has returned the reply. `wait`, and the drop of the ticket,
/// drop the guard.
///
/// Dropping it drops a reply that was sent and not received, and `rt`. A later `answer` is refused: its error owns the
/// reply. Then the drop tells the server's watch. It does not wait for the server: it blocks only if the drop of the
/// reply or of `rt` does. Waking a task takes locks, as the drop of a `Sender` does.
///
/// It may go to another thread where `Q`, `A` and `Rt` are `Send`. Two threads may not share it.
///
/// A contract sees it as its ticket (`ReceiverView`), whose `channel.about` has the question.
pub struct CancellableTicket<Q: Eq, A: Answer<Q>, Rt> {
    ticket: Ticket<Q, A, Rt>,
    guard: Guard,
}

impl<Q: Eq, A: Answer<Q>, Rt> Model for CancellableTicket<Q, A, Rt> {
    ghost use Rattle.oneshot_channel.specs.Asked.{Asked};
    ghost use Rattle.oneshot_channel.specs.Ends.{ReceiverView};

    ghost Value = { ReceiverView A (Asked Q) };

    ghost view = { λ t. t.ticket };
}

impl<Q: Eq, A: Answer<Q>, Rt> CancellableTicket<Q, A, Rt> {
    pub(crate) fn new(ticket: Ticket<Q, A, Rt>, guard: Guard) -> CancellableTicket<Q, A, Rt>
        ensures { result ≡ ticket }
    {
        CancellableTicket { ticket, guard }
    }

    /// Whether the request was dropped unanswered, or the reply was received; if so, every later receive returns an
    /// error. It performs one load and never blocks. No clause states what it returns.
    ///
    /// `true` stays true. `false` may be out of date at once, since the request may be dropped.
    pub fn is_closed(&self) -> bool {
        self.ticket.is_closed()
    }
}

impl<Q: Eq, A: Answer<Q> + Drop, Rt: Drop> CancellableTicket<Q, A, Rt> {
    /// Receives the reply if it is there. It never blocks and does not allocate.
    ///
    /// - `Ok`: the reply. The ticket is closed from then on.
    /// - `Err(Empty)`: when the call checked, no reply had come, and the request was not dropped. The ticket stays
    ///   open.
    /// - `Err(Disconnected)`: the request was dropped unanswered, or the reply was received before. Every later
    ///   receive fails in the same way.
    pub fn try_take(&mut self) -> Result<A, TryRecvError>
        ensures own { IfOk result (λ reply. Q.eq (A.asked reply) self.old.channel.about.question ≡ true) }
        ensures right { IfOk result (λ reply. A.answers (A.asked reply) reply) }
        ensures took { Takes result self.old.took self.new.took }
        ensures channel { self.new.channel ≡ self.old.channel }
        ensures run { ReceiverGrew A TryRecv self.old.log self.new.log (try_recv_reply result) }
        ensures leaves { Leaves (try_recv_reply result) (receiver_at self.new.log) }
        ensures closes { result ≢ Err Tried.Empty → IsClosed self.new.log }
        ensures stays_open { result ≡ Err Tried.Empty → IsOpen self.new.log }
        ensures stays_closed { IsClosed self.old.log → result ≡ Err Tried.Disconnected }
        ensures bounded { GrewWithin (receiver_bound TryRecv) self.old.log self.new.log }
    {
        self.ticket.try_take()
    }

    /// Turns the ticket into a future that a task can poll. Its replies have the guarantees of the ticket's, and
    /// its drop tells the server. It never blocks and does not allocate.
    pub fn into_future(self) -> CancellableReply<Q, A, Rt>
        ensures took { result.took ≡ self.took }
        ensures channel { result.channel ≡ self.channel }
        ensures log { result.log ≡ self.log }
    {
        let CancellableTicket { ticket, guard } = self;
        CancellableReply::new(ticket.into_future(), guard)
    }
}

impl<Q: Eq, A: Answer<Q> + Message, Rt: Wait + Clock + Drop> CancellableTicket<Q, A, Rt> {
    /// Blocks until the request is answered or dropped. It consumes the ticket, drops its `rt`, and does not allocate.
    /// When it returns, also with a reply, it drops the guard, so the server's watch is told.
    ///
    /// - `Ok`: the reply.
    /// - `Err`: the request was dropped unanswered, or the reply was received before.
    ///
    /// It blocks forever if the request is neither answered nor dropped, for example because this thread
    /// still holds it.
    pub fn wait(self) -> Result<A, RecvError>
        ensures own { IfOk result (λ reply. Q.eq (A.asked reply) self.channel.about.question ≡ true) }
        ensures right { IfOk result (λ reply. A.answers (A.asked reply) reply) }
        ensures stays_closed { IsClosed self.log → IsErr result }
    {
        let CancellableTicket {
            ticket,
            guard: _guard,
        } = self;
        ticket.wait()
    }
}

impl<Q: Eq, A: Answer<Q> + Drop, Rt: Wait + Clock + Drop> CancellableTicket<Q, A, Rt> {
    /// Blocks until the request is answered or dropped, or until more than `timeout` has passed by the runtime's
    /// clock, as `Receiver::recv_timeout` does. It does not allocate.
    ///
    /// - `Ok`: the reply. The ticket is closed from then on.
    /// - `Err(Timeout)`: more than `timeout` has passed, or the clock failed. When the call last checked, no reply had
    ///   come, and the request was not dropped. The ticket stays open.
    /// - `Err(Disconnected)`: the request was dropped unanswered, or the reply was received before. Every later
    ///   receive fails in the same way.
    ///
    /// A reply that is there is received, also if `timeout` is zero. If no instant can hold the sum of now and
    /// `timeout`, the call never returns `Timeout`. After the timeout the call waits only for a request that has found
    /// this ticket waiting and is in its `answer` or its drop. No clause names `timeout`.
    pub fn wait_for(&mut self, timeout: Duration) -> Result<A, RecvTimeoutError>
        ensures own { IfOk result (λ reply. Q.eq (A.asked reply) self.old.channel.about.question ≡ true) }
        ensures right { IfOk result (λ reply. A.answers (A.asked reply) reply) }
        ensures took { Takes result self.old.took self.new.took }
        ensures channel { self.new.channel ≡ self.old.channel }
        ensures run { ReceiverGrew A (RecvTimeout true) self.old.log self.new.log (timed_reply result) }
        ensures leaves { Leaves (timed_reply result) (receiver_at self.new.log) }
        ensures closes { result ≢ Err Timed.Timeout → IsClosed self.new.log }
        ensures stays_open { result ≡ Err Timed.Timeout → IsOpen self.new.log }
        ensures stays_closed { IsClosed self.old.log → result ≡ Err Timed.Disconnected }
    {
        self.ticket.wait_for(timeout)
    }
}

impl<Q: Eq, A: Answer<Q> + Drop, Rt: Drop> Drop for CancellableTicket<Q, A, Rt> {
    // The ticket goes first, so that a server that is told finds the request cancelled.
    fn drop(self) {
        let CancellableTicket { ticket, guard } = self;
        drop(ticket);
        drop(guard);
    }
}
