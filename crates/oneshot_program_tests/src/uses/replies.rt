//! Tests of two replies awaited at once, and of those that do not come.

use super::ask;
use oneshot::AsyncReceiver;
use oneshot_asserts::{Asserts, assert_same};
use oneshot_patterns::replies::{both_replies, both_squares, first_reply, first_square};
use oneshot_patterns::request::{Request, Square};
use std::thread::{sleep, spawn};
use std::time::Duration;

/// A request for the square of 13, and the future of its reply.
fn requested(rt: &(impl Asserts + AllocGlobal)) -> (Request, AsyncReceiver<Square, ()>) {
    let (request, asked) = ask(rt, (), 13);
    (request, asked.reply.into_future())
}

#[test]
fn both_numbers_have_their_squares(rt: HostRuntime) {
    let squares = both_squares(&rt, rt.alloc(), 7, 11).expect(&rt, "an executor");
    assert_same!(rt; squares, (Some(49), Some(121)));
}

#[test]
fn a_request_that_is_dropped_leaves_the_other_reply(rt: HostRuntime) {
    let (dropped, first) = ask(&rt, (), 7);
    let (served, second) = ask(&rt, (), 11);
    let serving = spawn(&rt, move || {
        sleep(&rt, Duration::from_millis(20));
        drop(dropped);
        served.serve()
    });
    let serving = serving.expect(&rt, "a thread");
    let replies = both_replies(&rt, first, second).expect(&rt, "an executor");
    assert_same!(rt; (replies, serving.join(&rt)), ((None, Some(121)), true));
}

#[test]
fn the_later_request_may_be_served_first(rt: HostRuntime) {
    let (first_request, first) = ask(&rt, (), 7);
    let (second_request, second) = ask(&rt, (), 11);
    let served = (second_request.serve(), first_request.serve());
    let replies = both_replies(&rt, first, second).expect(&rt, "an executor");
    assert_same!(rt; (served, replies), ((true, true), (Some(49), Some(121))));
}

#[test]
fn the_first_reply_is_the_square(rt: HostRuntime) {
    let square = first_square(&rt, rt.alloc(), 13).expect(&rt, "an executor");
    assert_same!(rt; square, Some(169));
}

#[test]
fn one_reply_is_awaited_where_nobody_serves_the_other_request(rt: HostRuntime) {
    let (served, first) = requested(&rt);
    let (unserved, second) = requested(&rt);
    assert!(rt; served.serve());
    let reply = first_reply(&rt, 13, first, second).expect(&rt, "an executor");
    assert_same!(rt; (reply, unserved.serve()), (Some(169), false));
}

#[test]
fn a_request_that_is_dropped_leaves_one_reply_to_await(rt: HostRuntime) {
    let (dropped, first) = requested(&rt);
    let (served, second) = requested(&rt);
    drop(dropped);
    let serving = spawn(&rt, move || {
        sleep(&rt, Duration::from_millis(20));
        served.serve()
    });
    let serving = serving.expect(&rt, "a thread");
    let reply = first_reply(&rt, 13, first, second).expect(&rt, "an executor");
    assert_same!(rt; (reply, serving.join(&rt)), (Some(169), true));
}

#[test]
fn no_reply_comes_where_both_requests_are_dropped(rt: HostRuntime) {
    let (_, first) = requested(&rt);
    let (_, second) = requested(&rt);
    let reply = first_reply(&rt, 13, first, second).expect(&rt, "an executor");
    assert_same!(rt; reply, None);
}
