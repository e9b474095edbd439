//! However a channel or a request ends on one thread, all the memory that it took is freed. `scripts/schedules` looks
//! for what two threads leave.

use super::lives::{DROPPED, OVER, RAW, READY, RECEIVED, TRIED, UNRECEIVED, live};
use super::steps::read;
use crate::pages::{grown_pages, reserved_pages, resident_pages};
use crate::reply::{answer, ask};
use crate::watches::cancelled;
use oneshot_asserts::{Asserts, assert_that};
use std::random::RandomSource;
use std::rt::Files;
use std::sync::{Arc, Wait};
use std::time::Clock;

/// How many rounds: even the smallest leak in each takes more than `MOST_PAGES`.
const ROUNDS: u64 = 200_000;

/// How many pages a test may grow by.
const MOST_PAGES: u64 = 128;

/// The most pages that a process reserves without a sanitizer: a terabyte, if a page has 4,096 bytes.
const MOST_RESERVED: u64 = 1 << 28;

/// How many pages the process grows by in `rounds` rounds, after a tenth as many.
fn growth<F: FnMut()>(rt: &(impl Files + AllocGlobal + Asserts), rounds: u64, mut round: F) -> u64
    requires { F.IsAlwaysCallable round }
{
    for _ in 0..rounds / 10 {
        round();
    }
    let before = resident_pages(rt);
    for _ in 0..rounds {
        round();
    }
    grown_pages(rt, before)
}

/// Takes some memory, and frees it.
fn take_and_free(rt: &(impl AllocGlobal + Asserts)) {
    drop(Arc::new(rt.alloc(), [0u64; 8]).expect(rt, "memory"));
}

/// Whether a leak would be seen in this process. A process under a sanitizer does not reuse freed memory, so a leak is
/// not seen there. Prints a line if no leak would be seen.
fn compares_memory(rt: &(impl Files + Print + AllocGlobal + Asserts)) -> bool {
    let compares = growth(rt, ROUNDS, || take_and_free(rt)) <= MOST_PAGES;
    if !compares {
        let told = println!(rt; "no leak is looked for, since this process keeps what was freed");
        told.expect(rt, "an output");
    }
    compares
}

/// Fails if each of many rounds leaks some memory. `about` names what a round does.
fn assert_leaves_nothing<F: FnMut()>(
    rt: &(impl Files + AllocGlobal + Asserts),
    about: &str,
    round: F,
)
    requires { F.IsAlwaysCallable round }
{
    let grown = growth(rt, ROUNDS, round);
    assert_that!(rt; grown <= MOST_PAGES, (about, grown));
}

/// Lives each of these lives many times, or once where no leak would be seen. Fails if a channel leaks some memory each
/// time, or if a call returns something else than its line states.
fn assert_none_leaks(
    rt: &(impl Files + Print + Wait + Clock + AllocGlobal + RandomSource + Asserts),
    lives: &[&str],
) {
    let compares = compares_memory(rt);
    for text in lives {
        let life = read(rt, text).expect(rt, "a life");
        if compares {
            assert_leaves_nothing(rt, text, || live(rt, &life));
        } else {
            live(rt, &life);
        }
    }
}

#[test]
#[should_panic(expected = "(\"S send = Err | gone full\", Ok)")]
fn a_life_that_goes_otherwise_ends_a_test(rt: HostRuntime) {
    let lives = [
        "channel\nS drop = dropped | gone closed",
        "channel\nS send = Err | gone full",
    ];
    assert_none_leaks(&rt, &lives);
}

#[test]
fn a_process_without_a_sanitizer_looks_for_leaks(rt: HostRuntime) {
    let compares = compares_memory(&rt);
    let reserved = reserved_pages(&rt);
    assert_that!(rt; compares || reserved > MOST_RESERVED, reserved);
}

#[test]
fn a_received_message_leaves_nothing(rt: HostRuntime) {
    assert_none_leaks(&rt, RECEIVED);
}

#[test]
fn a_receiver_without_its_message_leaves_nothing(rt: HostRuntime) {
    assert_none_leaks(&rt, UNRECEIVED);
}

#[test]
fn a_receiver_whose_time_was_over_leaves_nothing(rt: HostRuntime) {
    assert_none_leaks(&rt, OVER);
}

#[test]
fn a_future_that_was_ready_leaves_nothing(rt: HostRuntime) {
    assert_none_leaks(&rt, READY);
}

#[test]
fn a_future_that_is_tried_leaves_nothing(rt: HostRuntime) {
    assert_none_leaks(&rt, TRIED);
}

#[test]
fn a_future_that_is_dropped_leaves_nothing(rt: HostRuntime) {
    assert_none_leaks(&rt, DROPPED);
}

#[test]
fn raw_ends_leave_nothing(rt: HostRuntime) {
    assert_none_leaks(&rt, RAW);
}

/// Ends a request with its reply.
fn end_with_a_reply(rt: &(impl AllocGlobal + Asserts)) {
    let (request, mut ticket) = ask(rt, ());
    assert!(rt; answer(rt, request).is_ok() && ticket.try_take().is_ok());
}

/// Ends a request whose reply comes back.
fn end_without_a_ticket(rt: &(impl AllocGlobal + Asserts)) {
    let (request, ticket) = ask(rt, ());
    drop(ticket);
    assert!(rt; answer(rt, request).is_err());
}

/// Ends a request without a reply.
fn end_without_a_reply(rt: &(impl AllocGlobal + Asserts)) {
    let (request, ticket) = ask(rt, ());
    drop(request);
    drop(ticket);
}

/// Ends a request whose reply is not taken.
fn end_with_a_reply_in_a_ticket(rt: &(impl AllocGlobal + Asserts)) {
    let (request, ticket) = ask(rt, ());
    assert!(rt; answer(rt, request).is_ok());
    drop(ticket);
}

/// Ends a request whose ticket became a future, and whose reply is not taken.
fn end_with_a_reply_in_a_future(rt: &(impl AllocGlobal + Asserts)) {
    let (request, ticket) = ask(rt, ());
    let reply = ticket.into_future();
    assert!(rt; answer(rt, request).is_ok());
    drop(reply);
}

/// Ends a request in each of five ways.
fn end_requests(rt: &(impl AllocGlobal + Asserts)) {
    end_with_a_reply(rt);
    end_without_a_ticket(rt);
    end_without_a_reply(rt);
    end_with_a_reply_in_a_ticket(rt);
    end_with_a_reply_in_a_future(rt);
}

/// Ends, with its reply, a request that has a watch.
fn end_cancellable_with_a_reply(rt: &(impl AllocGlobal + Asserts)) {
    let (request, mut ticket) = cancelled::ask(rt, ());
    assert!(rt; cancelled::answer(rt, request).is_ok() && ticket.try_take().is_ok());
}

/// Ends a request that has a watch, and whose ticket goes first.
fn end_cancellable_without_a_ticket(rt: &(impl AllocGlobal + Asserts)) {
    let (request, ticket) = cancelled::ask(rt, ());
    let (request, watch) = request.into_parts();
    drop(ticket);
    assert!(rt; answer(rt, request).is_err());
    drop(watch);
}

/// Ends a request that has a watch, whose ticket became a future, and whose reply is not taken.
fn end_cancellable_with_a_reply_in_a_future(rt: &(impl AllocGlobal + Asserts)) {
    let (request, ticket) = cancelled::ask(rt, ());
    let reply = ticket.into_future();
    assert!(rt; cancelled::answer(rt, request).is_ok());
    drop(reply);
}

/// In each of three ways, ends a request that has a watch.
fn end_cancellable_requests(rt: &(impl AllocGlobal + Asserts)) {
    end_cancellable_with_a_reply(rt);
    end_cancellable_without_a_ticket(rt);
    end_cancellable_with_a_reply_in_a_future(rt);
}

#[test]
fn requests_leave_nothing(rt: HostRuntime) {
    if compares_memory(&rt) {
        assert_leaves_nothing(&rt, "requests", || end_requests(&rt));
        assert_leaves_nothing(
            &rt,
            "cancellable requests",
            || end_cancellable_requests(&rt),
        );
    } else {
        end_requests(&rt);
        end_cancellable_requests(&rt);
    }
}

/// Keeps what each round allocates.
fn keep_each_round(rt: &(impl Files + AllocGlobal + Asserts)) {
    let mut kept = Vec::new(rt.alloc());
    assert_leaves_nothing(rt, "kept", || kept.push([0u64; 8]).expect(rt, "memory"));
}

#[test]
#[should_panic(expected = "(\"kept\", ")]
fn a_round_that_leaves_something_ends_a_test(rt: HostRuntime) {
    keep_each_round(&rt);
}
