//! Waits for a reply: by a task that waits for something else too, and with a timeout by a written clock.

use super::{answer, ask, bytes_of};
use crate::ends::clocks::{TIMEOUTS, Written};
use crate::ends::wakes::{WAITS, Waits, waited_for};
use oneshot_asserts::{Asserts, assert_same};
use oneshot_calls::Receiving;
use oneshot_channel::RecvTimeoutError;
use oneshot_channel::reply::{Length, Request};
use std::random::RandomSource;
use std::sync::Wait;
use std::time::{Clock, Duration};

/// Answers the request, whose ticket is there.
fn answer_ticket(rt: &impl Asserts, request: Request<String, Length>) {
    assert!(rt; answer(rt, request).is_ok());
}

/// Fails unless the answer wakes the tasks as often as `waits` states, and is then found.
fn assert_an_answer_wakes(
    rt: &(impl Wait + Asserts + Clock + RandomSource + AllocGlobal),
    waits: &Waits,
) {
    let (request, ticket) = ask(rt, rt);
    let reply = Receiving::of_future(ticket.into_future());
    waited_for(rt, waits, reply, || answer_ticket(rt, request), "Ok(21)");
}

/// Fails unless the drop of the request wakes the tasks as often as `waits` states, and is then found.
fn assert_a_drop_wakes(
    rt: &(impl Wait + Asserts + Clock + RandomSource + AllocGlobal),
    waits: &Waits,
) {
    let (request, ticket) = ask(rt, rt);
    let reply = Receiving::of_future(ticket.into_future());
    waited_for(rt, waits, reply, || drop(request), "Err(Disconnected)");
}

#[test]
fn a_task_that_waits_for_a_reply_is_woken_by_the_request_alone(rt: HostRuntime) {
    for waits in WAITS {
        assert_an_answer_wakes(&rt, waits);
        assert_a_drop_wakes(&rt, waits);
    }
}

#[test]
fn a_ticket_waits_to_the_nanosecond(rt: HostRuntime) {
    for (timeout, written, made) in TIMEOUTS {
        let clock = Written::new(&rt, written);
        let (_request, mut ticket) = ask(&rt, &clock);
        let waited = ticket.wait_for(Duration::from_nanos(timeout)).map(bytes_of);
        assert_same!(rt;
            (timeout, written, waited, clock.made()),
            (timeout, written, Err(RecvTimeoutError::Timeout), made)
        );
    }
}

#[test]
fn a_reply_that_has_come_is_taken_even_if_the_clock_fails(rt: HostRuntime) {
    let clock = Written::new(&rt, &[]);
    let (request, mut ticket) = ask(&rt, &clock);
    let answered = answer(&rt, request).is_ok();
    let waited = ticket.wait_for(Duration::from_nanos(5)).map(bytes_of);
    assert_same!(rt; (answered, waited), (true, Ok(21)));
}
