//! Guards, watches, and cancellable requests with their tickets, on threads other than their makers'.

use super::cancelled::{answer, ask};
use super::guarded;
use crate::ends::raw::there_and_back;
use crate::reply::bytes_of;
use oneshot_asserts::assert_same;
use oneshot_channel::reply::Answer;
use oneshot_watch::{
    AsyncWatch, CancellableReply, CancellableRequest, CancellableTicket, Guard, Watch,
};
use std::thread::Threads;

// Moves a guard, its watch and the watch's future to another thread and back, whatever the watch's runtime.
fn watch_there<Rt: Send + Drop>(
    rt: &impl Threads,
    guard: Guard,
    watch: Watch<Rt>,
) -> (Guard, AsyncWatch<Rt>) {
    let watch = there_and_back(rt, watch);
    (
        there_and_back(rt, guard),
        there_and_back(rt, watch.into_future()),
    )
}

// Moves a request, its ticket and the ticket's future to another thread and back, whatever is asked.
fn request_there<Q: Eq + Send + Drop, A: Answer<Q> + Send + Drop, Rt: Send + Drop, W: Send + Drop>(
    rt: &impl Threads,
    request: CancellableRequest<Q, A, W>,
    ticket: CancellableTicket<Q, A, Rt>,
) -> (CancellableRequest<Q, A, W>, CancellableReply<Q, A, Rt>) {
    let ticket = there_and_back(rt, ticket);
    (
        there_and_back(rt, request),
        there_and_back(rt, ticket.into_future()),
    )
}

#[test]
fn a_guard_and_its_watch_go_to_other_threads(rt: HostRuntime) {
    let (guard, watch) = guarded(&rt, ());
    let (guard, mut gone) = watch_there(&rt, guard, watch);
    let was_gone = gone.is_gone();
    drop(guard);
    assert_same!(rt; (was_gone, gone.is_gone()), (false, true));
}

#[test]
fn a_cancellable_request_and_its_ticket_go_to_other_threads(rt: HostRuntime) {
    let (request, ticket) = ask(&rt, ());
    let (request, mut reply) = request_there(&rt, request, ticket);
    let is_answered = answer(&rt, request).is_ok();
    assert_same!(rt;
        (is_answered, reply.try_recv().map(bytes_of)),
        (true, Ok(21))
    );
}
