//! The function that makes a request whose server is told when its ticket is gone.

ghost use Rattle.std.specs.Prelude.{◌≡◌, [], IfOk, IfErr, None};
ghost use Rattle.oneshot_channel.specs.Ends.{IsOpen};

use crate::pair::watch;
use crate::requests::CancellableRequest;
use crate::ticket::CancellableTicket;
use oneshot_channel::reply::{Answer, request};
use std::alloc::Global;

/// Makes a request with `question`, as `request` does, whose server is told when the ticket is gone.
///
/// `rt` is the runtime of the ticket's waits, and `server_rt` that of the watch's waits. A wait needs `Wait + Clock` of
/// its own runtime. Pass `()` for an end that never waits. `alloc` is the allocator of two channels; no later call
/// allocates.
///
/// `Err`: out of memory. The error is the question; nothing stays allocated, and both runtimes are dropped.
pub fn cancellable_request<Q: Eq + Send + Drop, A: Answer<Q> + Send + Drop, Rt: Drop, W: Drop>(
    rt: Rt,
    server_rt: W,
    alloc: Global,
    question: Q,
) -> Result<(CancellableRequest<Q, A, W>, CancellableTicket<Q, A, Rt>), Q>
    ensures request { IfOk result (λ made. made.0.channel.about.question ≡ question) }
    ensures ticket { IfOk result (λ made. made.1.channel.about.question ≡ question) }
    ensures one_channel { IfOk result (λ made. made.0.channel ≡ made.1.channel) }
    ensures new_ticket { IfOk result (λ made. made.1.log ≡ []) }
    ensures open { IfOk result (λ made. IsOpen made.1.log) }
    ensures none_taken { IfOk result (λ made. made.1.took ≡ None) }
    ensures back { IfErr result (λ back. back ≡ question) }
{
    let Ok((guard, watch)) = watch(server_rt, alloc) else {
        return Err(question);
    };
    let (request, ticket) = request(rt, alloc, question)?;
    Ok((
        CancellableRequest::new(request, watch),
        CancellableTicket::new(ticket, guard),
    ))
}
