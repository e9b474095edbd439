//! Receives with a timeout: how long they take, and two threads that wait for each other.

use super::open;
use oneshot_asserts::{Asserts, assert_same, assert_that};
use oneshot_calls::{is_overdue, limit};
use oneshot_channel::{Receiver, RecvTimeoutError, Sender};
use std::sync::Wait;
use std::thread::{join, sleep};
use std::time::{Clock, Duration, Instant};

/// What a receive with this timeout returns, and how long it takes.
fn timed<R: Wait + Clock + Asserts>(
    rt: &R,
    mut receiver: Receiver<u8, &R>,
    timeout: Duration,
) -> (Result<u8, RecvTimeoutError>, Duration) {
    let start = Instant::now(rt).expect(rt, "a clock");
    let received = receiver.recv_timeout(timeout);
    (received, start.elapsed(rt).expect(rt, "a clock"))
}

#[test]
fn a_timeout_that_runs_out_takes_its_time(rt: HostRuntime) {
    let (_sender, receiver) = open(&rt, &rt);
    let short = Duration::from_millis(2);
    let (received, took) = timed(&rt, receiver, short);
    let takes_its_time = took > short;
    assert_same!(rt;
        (takes_its_time, received),
        (true, Err(RecvTimeoutError::Timeout))
    );
}

/// Fails if a receive took longer than any that is woken.
fn assert_woken(rt: &impl Asserts, took: Duration) {
    assert_that!(rt; !is_overdue(took), ("a receive took", took));
}

/// What a receive that may wait for ten seconds returns. Fails if nothing woke it.
fn received<R: Wait + Clock + Asserts>(
    rt: &R,
    receiver: Receiver<u8, &R>,
) -> Result<u8, RecvTimeoutError> {
    let (received, took) = timed(rt, receiver, limit());
    assert_woken(rt, took);
    received
}

/// Sends 1 after a while, and waits. Returns whether it is sent, and what is received.
fn send_and_wait<R: Wait + Clock + Asserts>(
    rt: &R,
    sender: Sender<u8>,
    receiver: Receiver<u8, &R>,
) -> (bool, Result<u8, RecvTimeoutError>) {
    sleep(rt, Duration::from_millis(100));
    (sender.send(1).is_ok(), received(rt, receiver))
}

/// Whether 2 is sent, and what was received before.
fn answer<R: Wait + Clock + Asserts>(
    rt: &R,
    sender: Sender<u8>,
    receiver: Receiver<u8, &R>,
) -> (bool, Result<u8, RecvTimeoutError>) {
    let received = received(rt, receiver);
    (sender.send(2).is_ok(), received)
}

// A message that nothing woke its receiver for is received too, but only once its limit is over.
#[test]
fn two_threads_answer_each_other(rt: HostRuntime) {
    let (to_right, at_right) = open(&rt, &rt);
    let (to_left, at_left) = open(&rt, &rt);
    let (left, right) = join(
        &rt,
        || send_and_wait(&rt, to_right, at_left),
        || answer(&rt, to_left, at_right),
    );
    assert_same!(rt; (left, right), ((true, Ok(2)), (true, Ok(1))));
}

#[test]
#[should_panic(expected = "(\"a receive took\", 5s)")]
fn a_receive_that_nothing_woke_ends_a_test(rt: HostRuntime) {
    assert_woken(&rt, Duration::from_secs(5));
}
