//! A request: a question, with the sender of its reply.

ghost use Rattle.std.specs.Prelude.{◌≡◌, true, IfErr};

use crate::answer::Answer;
use crate::asked::Asked;
use oneshot_ends::{Message, SendError, Sender};
use std::marker::Model;

/// A question, with the sender of its reply.
///
/// Dropping it unanswered drops that sender: a waiting ticket is woken, and returns an error. Then it drops the
/// question. The drop does not wait for the ticket: it blocks only if the drop of the question does. Waking a task
/// takes locks, as the drop of a `Sender` does.
///
/// It may go to another thread where `Q` and `A` are `Send`. Several threads may share a `&` to it where `Q` and `A`
/// are also `Sync`, and call `is_cancelled`.
///
/// A contract sees it as its sender (`SenderView`), whose `channel.about` has the question.
#[derive(Drop)]
pub struct Request<Q: Eq, A: Answer<Q>> {
    // First: the drop tells the ticket before it drops the question, which may be code of the caller.
    pub(crate) reply: Sender<A, Asked<Q>>,
    asked: Asked<Q>,
}

impl<Q: Eq, A: Answer<Q>> Model for Request<Q, A> {
    ghost use Rattle.std.specs.Prelude.{◌≡◌};
    ghost use Rattle.oneshot_ends.specs.Ends.{SenderView};
    ghost use Rattle.oneshot_reply.specs.declared.asked.Asked.{Asked};

    ghost Value = { SenderView (Asked Q) };

    ghost view = { λ r. r.reply };

    ghost invariant = { λ r. r.reply.channel.about ≡ r.asked };
}

impl<Q: Eq, A: Answer<Q>> Request<Q, A> {
    pub(crate) fn new(asked: Asked<Q>, reply: Sender<A, Asked<Q>>) -> Request<Q, A>
        requires { reply.channel.about ≡ asked }
        ensures { result ≡ reply }
    {
        Request { asked, reply }
    }

    /// Returns the question.
    pub fn question(&self) -> &Q
        ensures { result.now ≡ self.now.channel.about.question }
    {
        &self.asked.question
    }

    /// Returns whether `reply` names a question equal to the request's. It calls `question` of the reply and `==` of
    /// `Q`, and blocks only if one of these does.
    pub fn fits(&self, reply: &A) -> bool
        ensures { result ≡ Q.eq (A.asked reply.now) self.now.channel.about.question }
    {
        *reply.question() == self.asked.question
    }

    /// Whether the ticket, or the future that it became, is gone; if so, an `answer` is refused. It performs one load
    /// and never blocks. No clause states what it returns.
    ///
    /// `true` stays true. `false` may be out of date at once, since the ticket may be dropped.
    pub fn is_cancelled(&self) -> bool {
        self.reply.is_closed()
    }
}

impl<Q: Eq + Drop, A: Answer<Q> + Message> Request<Q, A> {
    /// Answers with a reply that fits, wakes a waiting ticket, and drops the question. It does not allocate, and
    /// blocks only if the drop of the question does. Waking a task takes locks, as the drop of a `Sender` does.
    ///
    /// - `Ok`: the ticket was there. If the ticket is dropped before it receives the reply, its drop drops the reply.
    /// - `Err`: the ticket was dropped, or the future that it became was dropped, perhaps while `answer` was about
    ///   to wake its task. The error owns the reply.
    pub fn answer(self, reply: A) -> Result<(), SendError<A, Asked<Q>>>
        requires fits { Q.eq (A.asked reply) self.channel.about.question ≡ true }
        ensures reply { IfErr result (λ error. error.message ≡ reply) }
        ensures channel { IfErr result (λ error. error.channel ≡ self.channel) }
    {
        let Request {
            asked: _,
            reply: sender,
        } = self;
        sender.send_kept(reply)
    }
}
