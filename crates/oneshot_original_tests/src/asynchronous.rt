//! The tests of `tests/async.rs`: the receiver as a future. (`async` is a keyword.)
//!
//! The original runs each of four tests under `tokio` and under `async-std`. Here both tests call one
//! function, which runs under `futures::executor::block_on`, with a second thread in place of a task that
//! sleeps.

use super::counted::{Counted, Drops};
use super::ends::{ends, future_ends, new_task};
use super::threads::{Act, By, Pace, assert_outcomes, outcome_of};
use futures::executor::block_on;
use futures::task::Poll;
use futures::test::MockTask;
use oneshot::{AsyncReceiver, Receiver, RecvError};
use oneshot_asserts::{Asserts, assert_same, assert_that};
use oneshot_calls::shows;
use std::random::RandomSource;
use std::sync::Wait;
use std::thread::{Threads, sleep};
use std::time::{Clock, Duration};

/// The sender acts once, after a while in which the receiver begins to wait.
const ONCE: Pace = Pace {
    rounds: 1,
    pause: 10,
};

const AWAITED: By = By::Receiver("future await");

// What a future's await returns.
fn awaited<R: Wait + RandomSource + AllocGlobal + Asserts, T: Drop>(
    rt: &R,
    receiver: Receiver<T, &R>,
) -> Result<T, RecvError> {
    block_on(rt, receiver.into_future()).expect(rt, "memory")
}

fn send_before_await<R: Wait + RandomSource + AllocGlobal + Asserts>(rt: &R) {
    let (sender, receiver) = ends(rt);
    assert!(rt; sender.send(19i128).is_ok());
    assert_same!(rt; awaited(rt, receiver), Ok(19));
}

#[test]
fn send_before_await_tokio(rt: HostRuntime) {
    send_before_await(&rt);
}

#[test]
fn send_before_await_async_std(rt: HostRuntime) {
    send_before_await(&rt);
}

fn await_with_dropped_sender<R: Wait + RandomSource + AllocGlobal + Asserts>(rt: &R) {
    let (sender, receiver) = ends::<u128, _>(rt);
    drop(sender);
    assert!(rt; receiver.is_closed());
    assert_same!(rt; awaited(rt, receiver), Err(RecvError));
}

#[test]
fn await_with_dropped_sender_tokio(rt: HostRuntime) {
    await_with_dropped_sender(&rt);
}

#[test]
fn await_with_dropped_sender_async_std(rt: HostRuntime) {
    await_with_dropped_sender(&rt);
}

// Returns the message that is sent after a while, in which the receiver awaits it.
fn message_after_await<'a, R: Threads + Wait + Clock + RandomSource + AllocGlobal + Asserts + Sync>(
    rt: &R,
    message: Counted<'a, u128>,
) -> Counted<'a, u128> {
    let act = Act("send into", message);
    let (sent, received) = outcome_of(rt, Duration::from_millis(10), act, AWAITED);
    let sent = sent.numbered();
    assert_that!(rt; shows(&sent, "Ok"), &sent);
    received.message().expect(rt, "the message that was sent")
}

fn await_before_send<R: Threads + Wait + Clock + RandomSource + AllocGlobal + Asserts + Sync>(
    rt: &R,
) {
    let drops = Drops::new();
    let returned = message_after_await(rt, drops.message(79));
    assert_same!(rt; (drops.count(), returned.value), (0, 79));
    drop(returned);
    assert_same!(rt; drops.count(), 1);
}

#[test]
fn await_before_send_tokio(rt: HostRuntime) {
    await_before_send(&rt);
}

#[test]
fn await_before_send_async_std(rt: HostRuntime) {
    await_before_send(&rt);
}

fn await_before_send_then_drop_sender<
    R: Threads + Wait + Clock + RandomSource + AllocGlobal + Asserts + Sync,
>(rt: &R) {
    let outcomes = [("dropped", "Err(RecvError)")];
    assert_outcomes(rt, ONCE, Act("drop", 79u128), AWAITED, &outcomes);
}

#[test]
fn await_before_send_then_drop_sender_tokio(rt: HostRuntime) {
    await_before_send_then_drop_sender(&rt);
}

#[test]
fn await_before_send_then_drop_sender_async_std(rt: HostRuntime) {
    await_before_send_then_drop_sender(&rt);
}

// Polls by hand as `tokio`'s timeout does: at once, and again when the time is over. Fails unless both polls are
// pending. Then drops the receiver.
fn poll_then_drop<R: Clock + Asserts>(
    rt: &R,
    task: &MockTask,
    mut receiver: AsyncReceiver<(), &R>,
) {
    assert_same!(rt; task.poll(&mut receiver), Poll::Pending);
    sleep(rt, Duration::from_millis(100));
    assert_same!(rt; task.poll(&mut receiver), Poll::Pending);
    drop(receiver);
}

#[test]
fn poll_receiver_then_drop_it(rt: HostRuntime) {
    let task = new_task(&rt);
    let (sender, receiver) = future_ends(&rt);
    poll_then_drop(&rt, &task, receiver);
    assert!(rt; sender.send(()).is_err());
}

#[test]
fn dropping_sender_disconnects_async_receiver(rt: HostRuntime) {
    let (sender, receiver) = future_ends::<(), _>(&rt);
    assert!(rt; !sender.is_closed());
    assert!(rt; !receiver.is_closed());
    drop(sender);
    assert!(rt; receiver.is_closed());
}

#[test]
fn async_receiver_has_message(rt: HostRuntime) {
    let (sender, receiver) = future_ends(&rt);
    assert!(rt; !receiver.has_message());
    assert!(rt; sender.send(19i128).is_ok());
    assert!(rt; receiver.has_message());
}
