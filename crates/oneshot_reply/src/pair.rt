//! The function that makes a request and the ticket for its reply.

ghost use Rattle.std.specs.Prelude.{◌≡◌, [], IfOk, IfErr, None};
ghost use Rattle.oneshot_ends.specs.Ends.{IsOpen};

use crate::answer::Answer;
use crate::asked::Asked;
use crate::requests::Request;
use crate::ticket::Ticket;
use oneshot_ends::channel_for;
use std::alloc::Global;

/// Makes a request with `question`, and the ticket for its reply.
///
/// `rt` is the runtime with which the ticket waits; waits need `Rt: Wait + Clock`. The ticket keeps it. Pass
/// `()` for a ticket that never waits. `alloc` allocates the channel's memory; no later call allocates.
///
/// `Err`: out of memory. The error is the question; nothing stays allocated, and `rt` is dropped.
pub fn request<Q: Eq + Send, A: Answer<Q> + Send + Drop, Rt: Drop>(
    rt: Rt,
    alloc: Global,
    question: Q,
) -> Result<(Request<Q, A>, Ticket<Q, A, Rt>), Q>
    ensures request { IfOk result (λ made. made.0.channel.about.question ≡ question) }
    ensures ticket { IfOk result (λ made. made.1.channel.about.question ≡ question) }
    ensures one_channel { IfOk result (λ made. made.0.channel ≡ made.1.channel) }
    ensures new_ticket { IfOk result (λ made. made.1.log ≡ []) }
    ensures open { IfOk result (λ made. IsOpen made.1.log) }
    ensures none_taken { IfOk result (λ made. made.1.took ≡ None) }
    ensures back { IfErr result (λ back. back ≡ question) }
{
    let asked = Asked { question };
    match channel_for(rt, alloc, &asked) {
        Ok((reply, replies)) => Ok((Request::new(asked, reply), Ticket::new(replies))),
        Err(_) => {
            let Asked { question } = asked;
            Err(question)
        }
    }
}
