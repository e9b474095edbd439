//! The tests of `tests/loom.rs`, with many rounds of two threads in place of loom.
//!
//! Tests that count what becomes of a waker count it over a ground in memory, after the same calls on a
//! channel.

use super::ends::{future_ends, new_task};
use super::future::{assert_counts, polled_by};
use super::threads::{Act, By, ROUNDS, assert_raced, outcome_by_future};
use futures::task::Poll;
use futures::test::MockTask;
use oneshot::{AsyncReceiver, RecvError, drive};
use oneshot_asserts::{Asserts, assert_same};
use oneshot_memory::{MemoryFuture, MemoryTask};
use std::random::RandomSource;
use std::sync::Wait;
use std::thread::Threads;
use std::time::{Clock, Duration};

#[test]
fn try_recv(rt: HostRuntime) {
    let send = Act("send into", 19u128);
    assert_raced(&rt, send, By::Receiver("tries"), &[("Ok", "Ok(19)")]);
}

#[test]
fn send_recv_different_threads(rt: HostRuntime) {
    let (send, by) = (Act("send into", 9u128), By::Receiver("longtimeout"));
    assert_raced(&rt, send, by, &[("Ok", "Ok(9)")]);
}

#[test]
fn recv_drop_sender_different_threads(rt: HostRuntime) {
    let (drop, by) = (Act("drop", 9u128), By::Receiver("zerotimeout"));
    let outcomes = [
        ("dropped", "Err(Disconnected)"),
        ("dropped", "Err(Timeout)"),
    ];
    assert_raced(&rt, drop, by, &outcomes);
}

#[test]
fn async_recv(rt: HostRuntime) {
    let (send, by) = (Act("send into", 987u128), By::Receiver("future await"));
    assert_raced(&rt, send, by, &[("Ok", "Ok(987)")]);
}

// What a poll by the task returns, and whether the task is woken then.
fn poll_by<R>(
    task: &MockTask,
    receiver: &mut AsyncReceiver<u128, &R>,
) -> (Poll<Result<u128, RecvError>>, bool) {
    (task.poll(receiver), task.is_woken())
}

#[test]
fn send_then_poll(rt: HostRuntime) {
    let task = new_task(&rt);
    let (sender, mut receiver) = future_ends(&rt);
    assert!(rt; sender.send(1234).is_ok());
    let received = Poll::Ready(Ok(1234));
    assert_same!(rt; poll_by(&task, &mut receiver), (received, false));
    send_then_poll_in_memory(&rt);
}

fn send_then_poll_in_memory<R: Wait + AllocGlobal + Asserts>(rt: &R) {
    let task = MemoryTask::new();
    let mut receiver = MemoryFuture::new(rt, rt.alloc(), &task);
    receiver.receiver.sender_sends(1234u128);
    assert_same!(rt; drive::poll(&mut receiver), Poll::Ready(Ok(1234)));
    assert_counts(rt, "the poll", &task, (0, 0, 0));
}

// As in the original, the test only asserts of the threads that both end.
#[test]
fn poll_then_drop_receiver_during_send(rt: HostRuntime) {
    let task = new_task(&rt);
    for _ in 0..ROUNDS {
        poll_then_drop(&rt, &task);
    }
}

fn poll_then_drop<R: Threads + Wait + Clock + RandomSource + AllocGlobal + Asserts + Sync>(
    rt: &R,
    task: &MockTask,
) {
    let (sender, mut receiver) = future_ends(rt);
    assert_same!(rt; task.poll(&mut receiver), Poll::Pending);
    let ends = (sender, receiver);
    let _ = outcome_by_future(rt, Duration::ZERO, Act("send", 1234u128), "drop", ends);
}

#[test]
fn poll_then_send(rt: HostRuntime) {
    let task = new_task(&rt);
    let (sender, mut receiver) = future_ends(&rt);
    assert_same!(rt; poll_by(&task, &mut receiver), (Poll::Pending, false));
    assert!(rt; sender.send(1234).is_ok());
    assert!(rt; task.is_woken());
    let received = Poll::Ready(Ok(1234));
    assert_same!(rt; poll_by(&task, &mut receiver), (received, false));
    poll_then_send_in_memory(&rt);
}

fn poll_then_send_in_memory<R: Wait + AllocGlobal + Asserts>(rt: &R) {
    let task = MemoryTask::new();
    let mut receiver = MemoryFuture::new(rt, rt.alloc(), &task);
    assert_same!(rt; drive::poll(&mut receiver), Poll::Pending);
    assert_counts(rt, "the first poll", &task, (1, 0, 0));
    receiver.receiver.sender_sends(1234u128);
    assert_counts(rt, "the send", &task, (1, 1, 1));
    assert_same!(rt; drive::poll(&mut receiver), Poll::Ready(Ok(1234)));
    assert_counts(rt, "the second poll", &task, (1, 1, 1));
}

// Whether each task is woken.
fn woken(tasks: &(MockTask, MockTask)) -> (bool, bool) {
    (tasks.0.is_woken(), tasks.1.is_woken())
}

// Polls by both tasks. Fails unless both polls are pending, and no task is woken.
fn poll_by_both<R>(
    rt: &impl Asserts,
    tasks: &(MockTask, MockTask),
    receiver: &mut AsyncReceiver<u128, &R>,
) {
    assert_same!(rt; tasks.0.poll(receiver), Poll::Pending);
    assert_same!(rt; tasks.1.poll(receiver), Poll::Pending);
    assert_same!(rt; woken(tasks), (false, false));
}

#[test]
fn poll_with_different_wakers(rt: HostRuntime) {
    let tasks = (new_task(&rt), new_task(&rt));
    let (sender, mut receiver) = future_ends(&rt);
    poll_by_both(&rt, &tasks, &mut receiver);
    assert!(rt; sender.send(1234).is_ok());
    assert_same!(rt; woken(&tasks), (false, true));
    poll_with_different_wakers_in_memory(&rt);
}

fn poll_with_different_wakers_in_memory<R: Wait + AllocGlobal + Asserts>(rt: &R) {
    let first = MemoryTask::new();
    let second = MemoryTask::new();
    let mut receiver = polled_by(rt, &first, &second);
    receiver.receiver.sender_sends(1234u128);
    assert_counts(rt, "the send", &first, (1, 1, 0));
    assert_counts(rt, "the send", &second, (1, 1, 1));
}
