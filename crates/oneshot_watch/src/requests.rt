//! A request whose server is told when its ticket is gone.

ghost use Rattle.std.specs.Prelude.{◌≡◌, true, IfErr};

use crate::watching::Watch;
use oneshot_channel::reply::{Answer, Asked, Request};
use oneshot_channel::{Message, SendError};
use std::marker::Model;

/// A request with the watch of its ticket.
///
/// Its calls are those of `Request`, with the same contracts; `into_parts` also gives the watch.
///
/// Dropping it unanswered drops the sender of the reply: a waiting ticket is woken, and returns an error. Then it drops
/// the question and the watch. The drop does not wait for the ticket: it blocks only if the drop of the question or of
/// the watch's `rt` does. Waking a task takes locks, as the drop of a `Sender` does.
///
/// It may go to another thread where `Q`, `A` and `Rt` are `Send`.
///
/// A contract sees it as its request (`SenderView`), whose `channel.about` has the question.
#[derive(Drop)]
pub struct CancellableRequest<Q: Eq, A: Answer<Q>, Rt> {
    request: Request<Q, A>,
    watch: Watch<Rt>,
}

impl<Q: Eq, A: Answer<Q>, Rt> Model for CancellableRequest<Q, A, Rt> {
    ghost use Rattle.oneshot_channel.specs.Asked.{Asked};
    ghost use Rattle.oneshot_channel.specs.Ends.{SenderView};

    ghost Value = { SenderView (Asked Q) };

    ghost view = { λ r. r.request };
}

impl<Q: Eq, A: Answer<Q>, Rt> CancellableRequest<Q, A, Rt> {
    pub(crate) fn new(request: Request<Q, A>, watch: Watch<Rt>) -> CancellableRequest<Q, A, Rt>
        ensures { result ≡ request }
    {
        CancellableRequest { request, watch }
    }

    /// Returns the question.
    pub fn question(&self) -> &Q
        ensures { result.now ≡ self.now.channel.about.question }
    {
        self.request.question()
    }

    /// Returns whether `reply` names a question equal to the request's. It calls `question` of the reply and `==` of
    /// `Q`, and blocks only if one of these does.
    pub fn fits(&self, reply: &A) -> bool
        ensures { result ≡ Q.eq (A.asked reply.now) self.now.channel.about.question }
    {
        self.request.fits(reply)
    }

    /// Whether the ticket, or the future that it became, is gone; if so, an `answer` is refused. It performs one load
    /// and never blocks. No clause states what it returns.
    ///
    /// `true` stays true. `false` may be out of date at once, since the ticket may be dropped.
    pub fn is_cancelled(&self) -> bool {
        self.request.is_cancelled()
    }

    /// Returns the request and its watch. It never blocks. Once the watch finds its guard gone, the ticket is gone too,
    /// and an `answer` is refused.
    pub fn into_parts(self) -> (Request<Q, A>, Watch<Rt>)
        ensures { result.0 ≡ self }
    {
        let CancellableRequest { request, watch } = self;
        (request, watch)
    }
}

impl<Q: Eq + Drop, A: Answer<Q> + Message, Rt: Drop> CancellableRequest<Q, A, Rt> {
    /// Answers with a reply that fits, wakes a waiting ticket, and drops the question and the watch. It does not
    /// allocate, and blocks only if the drop of the question or of the watch's `rt` does. Waking a task takes locks, as
    /// the drop of a `Sender` does.
    ///
    /// - `Ok`: the ticket was there. If the ticket is dropped before it receives the reply, its drop drops the reply.
    /// - `Err`: the ticket was dropped, or the future that it became was dropped, perhaps while `answer` was about
    ///   to wake its task. The error owns the reply.
    pub fn answer(self, reply: A) -> Result<(), SendError<A, Asked<Q>>>
        requires fits { Q.eq (A.asked reply) self.channel.about.question ≡ true }
        ensures reply { IfErr result (λ error. error.message ≡ reply) }
        ensures channel { IfErr result (λ error. error.channel ≡ self.channel) }
    {
        let CancellableRequest { request, watch: _ } = self;
        request.answer(reply)
    }
}
