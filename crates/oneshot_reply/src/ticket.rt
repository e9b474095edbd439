//! A ticket: the receiver of the reply to a question.

ghost use Rattle.std.specs.Prelude.{◌≡◌, ◌≢◌, true, Err, IsErr, IfOk};
ghost use Rattle.oneshot_errors.specs.declared.recv_timeout.RecvTimeoutError.TheVariants as Timed;
ghost use Rattle.oneshot_errors.specs.declared.try_recv.TryRecvError.TheVariants as Tried;
ghost use Rattle.oneshot_ends.specs.ReceiverStart.TheVariants.{RecvTimeout, TryRecv};
ghost use Rattle.oneshot_ends.specs.Counts.{receiver_bound, GrewWithin};
ghost use Rattle.oneshot_ends.specs.Phases.{receiver_at};
ghost use Rattle.oneshot_ends.specs.BetweenCalls.{Leaves, try_recv_reply, timed_reply};
ghost use Rattle.oneshot_ends.specs.Ends.{IsClosed, IsOpen, ReceiverGrew};
ghost use Rattle.oneshot_ends.specs.Taken.{Takes};

use crate::answer::Answer;
use crate::asked::Asked;
use oneshot_ends::{AsyncReceiver, Message, Receiver};
use oneshot_errors::{RecvError, RecvTimeoutError, TryRecvError};
use std::marker::Model;
use std::sync::Wait;
use std::time::{Clock, Duration};

/// The receiver of the reply to a question.
///
/// The reply that it returns names a question equal to the ticket's, and is right for the question that it names.
///
/// Dropping it drops a reply that was sent and not received, and drops `rt` last. A later `answer` is refused: its
/// error owns the reply. The drop does not wait for the request: it blocks only if the drop of the reply or of `rt`
/// does.
///
/// It may go to another thread where `Q`, `A` and `Rt` are `Send`. Two threads may not share it.
///
/// A contract sees it as its receiver (`ReceiverView`), whose `channel.about` has the question.
#[derive(Drop)]
pub struct Ticket<Q: Eq, A: Answer<Q>, Rt> {
    pub(crate) replies: Receiver<A, Rt, Asked<Q>>,
}

impl<Q: Eq, A: Answer<Q>, Rt> Model for Ticket<Q, A, Rt> {
    ghost use Rattle.oneshot_ends.specs.Ends.{ReceiverView};
    ghost use Rattle.oneshot_reply.specs.declared.asked.Asked.{Asked};

    ghost Value = { ReceiverView A (Asked Q) };

    ghost view = { λ t. t.replies };
}

impl<Q: Eq, A: Answer<Q>, Rt> Ticket<Q, A, Rt> {
    pub(crate) fn new(replies: Receiver<A, Rt, Asked<Q>>) -> Ticket<Q, A, Rt>
        ensures { result ≡ replies }
    {
        Ticket { replies }
    }

    /// Whether the request was dropped unanswered, or the reply was received; if so, every later receive returns an
    /// error. It performs one load and never blocks. No clause states what it returns.
    ///
    /// `true` stays true. `false` may be out of date at once, since the request may be dropped.
    pub fn is_closed(&self) -> bool {
        self.replies.is_closed()
    }
}

impl<Q: Eq, A: Answer<Q> + Drop, Rt: Drop> Ticket<Q, A, Rt> {
    /// Receives the reply if it is there. It never blocks and does not allocate.
    ///
    /// - `Ok`: the reply. The ticket is closed from then on.
    /// - `Err(Empty)`: when the call checked, no reply had come, and the request was not dropped. The ticket stays
    ///   open.
    /// - `Err(Disconnected)`: the request was dropped unanswered, or the reply was received before. Every later
    ///   receive fails in the same way.
    pub fn try_take(&mut self) -> Result<A, TryRecvError>
        ensures own { IfOk result (λ reply. Q.eq (A.asked reply) self.old.channel.about.question ≡ true) }
        ensures right { IfOk result (λ reply. A.answers (A.asked reply) reply) }
        ensures took { Takes result self.old.took self.new.took }
        ensures channel { self.new.channel ≡ self.old.channel }
        ensures run { ReceiverGrew A TryRecv self.old.log self.new.log (try_recv_reply result) }
        ensures leaves { Leaves (try_recv_reply result) (receiver_at self.new.log) }
        ensures closes { result ≢ Err Tried.Empty → IsClosed self.new.log }
        ensures stays_open { result ≡ Err Tried.Empty → IsOpen self.new.log }
        ensures stays_closed { IsClosed self.old.log → result ≡ Err Tried.Disconnected }
        ensures bounded { GrewWithin (receiver_bound TryRecv) self.old.log self.new.log }
    {
        self.replies.try_recv()
    }

    /// Turns the ticket into a future that a task can poll. Its replies have the guarantees of the ticket's.
    /// It never blocks and does not allocate.
    pub fn into_future(self) -> AsyncReceiver<A, Rt, Asked<Q>>
        ensures took { result.took ≡ self.took }
        ensures channel { result.channel ≡ self.channel }
        ensures log { result.log ≡ self.log }
    {
        let Ticket { replies } = self;
        replies.into_future()
    }
}

impl<Q: Eq, A: Answer<Q> + Message, Rt: Wait + Clock + Drop> Ticket<Q, A, Rt> {
    /// Blocks until the request is answered or dropped. It consumes the ticket, drops its `rt`, and does not allocate.
    ///
    /// - `Ok`: the reply.
    /// - `Err`: the request was dropped unanswered, or the reply was received before.
    ///
    /// It blocks forever if the request is neither answered nor dropped, for example because this thread
    /// still holds it.
    pub fn wait(self) -> Result<A, RecvError>
        ensures own { IfOk result (λ reply. Q.eq (A.asked reply) self.channel.about.question ≡ true) }
        ensures right { IfOk result (λ reply. A.answers (A.asked reply) reply) }
        ensures stays_closed { IsClosed self.log → IsErr result }
    {
        let Ticket { replies } = self;
        replies.recv()
    }
}

impl<Q: Eq, A: Answer<Q> + Drop, Rt: Wait + Clock + Drop> Ticket<Q, A, Rt> {
    /// Blocks until the request is answered or dropped, or until more than `timeout` has passed by the runtime's
    /// clock, as `Receiver::recv_timeout` does. It does not allocate.
    ///
    /// - `Ok`: the reply. The ticket is closed from then on.
    /// - `Err(Timeout)`: more than `timeout` has passed, or the clock failed. When the call last checked, no reply had
    ///   come, and the request was not dropped. The ticket stays open.
    /// - `Err(Disconnected)`: the request was dropped unanswered, or the reply was received before. Every later
    ///   receive fails in the same way.
    ///
    /// A reply that is there is received, also if `timeout` is zero. If no instant can hold the sum of now and
    /// `timeout`, the call never returns `Timeout`. After the timeout the call waits only for a request that has found
    /// this ticket waiting and is in its `answer` or its drop. No clause names `timeout`.
    pub fn wait_for(&mut self, timeout: Duration) -> Result<A, RecvTimeoutError>
        ensures own { IfOk result (λ reply. Q.eq (A.asked reply) self.old.channel.about.question ≡ true) }
        ensures right { IfOk result (λ reply. A.answers (A.asked reply) reply) }
        ensures took { Takes result self.old.took self.new.took }
        ensures channel { self.new.channel ≡ self.old.channel }
        ensures run { ReceiverGrew A (RecvTimeout true) self.old.log self.new.log (timed_reply result) }
        ensures leaves { Leaves (timed_reply result) (receiver_at self.new.log) }
        ensures closes { result ≢ Err Timed.Timeout → IsClosed self.new.log }
        ensures stays_open { result ≡ Err Timed.Timeout → IsOpen self.new.log }
        ensures stays_closed { IsClosed self.old.log → result ≡ Err Timed.Disconnected }
    {
        self.replies.recv_timeout(timeout)
    }
}
