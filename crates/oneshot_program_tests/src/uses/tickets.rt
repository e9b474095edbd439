//! Tests of tickets whose reply comes, comes too late or never comes.

use super::assert_answers;
use oneshot::reply::{Request, Ticket, request};
use oneshot_asserts::{Asserts, assert_same};
use oneshot_patterns::request::{Square, Unanswered};
use oneshot_patterns::tickets::{asked, serve, square_awaited, square_within};
use std::thread::{sleep, spawn};
use std::time::Duration;

fn minute() -> Duration {
    Duration::from_secs(60)
}

fn moment() -> Duration {
    Duration::from_millis(1)
}

type Ends<Rt> = (Request<u32, Square>, Ticket<u32, Square, Rt>);

fn ask<Rt: Drop>(rt: &(impl Asserts + AllocGlobal), waits: Rt, root: u32) -> Ends<Rt> {
    request(waits, rt.alloc(), root).expect(rt, "memory")
}

/// Numbers and their squares.
const SQUARES: &[(u32, Result<u64, Unanswered>); 5] = &[
    (2, Ok(4)),
    (4, Ok(16)),
    (6, Ok(36)),
    (8, Ok(64)),
    (10, Ok(100)),
];

#[test]
fn each_ticket_has_its_square(rt: HostRuntime) {
    let roots = [2, 4, 6, 8, 10];
    let answers = asked(&rt, rt.alloc(), 3, &roots, minute()).expect(&rt, "memory");
    assert_answers(&rt, answers.as_slice(), SQUARES);
}

#[test]
fn without_a_worker_each_square_is_late(rt: HostRuntime) {
    let answers = asked(&rt, rt.alloc(), 0, &[3, 5], moment()).expect(&rt, "memory");
    let late = Err(Unanswered::Late);
    assert_answers(&rt, answers.as_slice(), &[(3, late), (5, late)]);
}

#[test]
fn a_late_answer_is_refused(rt: HostRuntime) {
    let (request, mut ticket) = ask(&rt, &rt, 3);
    let late = square_within(&mut ticket, moment());
    drop(ticket);
    assert_same!(rt; (late, serve(request)), (Err(Unanswered::Late), false));
}

#[test]
fn a_dropped_request_loses_its_square(rt: HostRuntime) {
    let (request, mut ticket) = ask(&rt, &rt, 3);
    drop(request);
    assert_same!(rt; square_within(&mut ticket, minute()), Err(Unanswered::Lost));
}

#[test]
fn a_task_awaits_its_square(rt: HostRuntime) {
    let (request, ticket) = ask(&rt, (), 12);
    let serving = spawn(&rt, move || {
        sleep(&rt, Duration::from_millis(20));
        serve(request)
    });
    let serving = serving.expect(&rt, "a thread");
    let square = square_awaited(&rt, ticket).expect(&rt, "an executor");
    assert_same!(rt; (serving.join(&rt), square), (true, Some(144)));
}

#[test]
fn a_task_gets_no_square_of_a_dropped_request(rt: HostRuntime) {
    let (request, ticket) = ask(&rt, (), 12);
    drop(request);
    let square = square_awaited(&rt, ticket).expect(&rt, "an executor");
    assert_same!(rt; square, None);
}
