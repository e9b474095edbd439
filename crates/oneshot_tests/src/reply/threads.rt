//! Requests, tickets and replies on threads other than their makers'.

use super::{ask, bytes_of, new_text};
use oneshot_asserts::assert_same;
use oneshot_channel::TryRecvError;
use oneshot_channel::reply::{Answer, Length, Request, Ticket};
use std::thread::{Threads, join};

// What a ticket takes on another thread.
fn taken_there<Q: Eq + Send + Drop, A: Answer<Q> + Send + Drop, Rt: Send + Drop>(
    rt: &impl Threads,
    mut ticket: Ticket<Q, A, Rt>,
) -> Result<A, TryRecvError> {
    let (taken, ()) = join(rt, move || ticket.try_take(), || ());
    taken
}

/// Answers a request. Returns whether the reply fits, and the ticket was there.
fn answers<Q: Eq + Send + Drop, A: Answer<Q> + Send + Drop>(
    request: Request<Q, A>,
    reply: A,
) -> bool {
    request.fits(&reply) && request.answer(reply).is_ok()
}

/// Whether another thread answered.
fn answered_there<Q: Eq + Send + Drop, A: Answer<Q> + Send + Drop>(
    rt: &impl Threads,
    request: Request<Q, A>,
    reply: A,
) -> bool {
    let (answered, ()) = join(rt, move || answers(request, reply), || ());
    answered
}

#[test]
fn a_request_and_its_ticket_go_to_other_threads(rt: HostRuntime) {
    let (request, ticket) = ask(&rt, ());
    let answered = answered_there(&rt, request, Length::of(new_text(&rt)));
    let taken = taken_there(&rt, ticket).map(bytes_of);
    assert_same!(rt; (answered, taken), (true, Ok(21)));
}

// What two threads see when they look at one request.
fn two_looks<Q: Eq + Send + Sync, A: Answer<Q> + Send + Sync>(
    rt: &impl Threads,
    request: &Request<Q, A>,
) -> (bool, bool) {
    join(rt, || request.is_cancelled(), || request.is_cancelled())
}

#[test]
fn two_threads_look_at_one_request(rt: HostRuntime) {
    let (request, ticket) = ask(&rt, ());
    let before = two_looks(&rt, &request);
    drop(ticket);
    let after = two_looks(&rt, &request);
    assert_same!(rt; (before, after), ((false, false), (true, true)));
}
