//! A future without a runtime, because none of its calls blocks.

ghost use Rattle.futures.specs.Poll.{OnPending};
ghost use Rattle.oneshot_channel.specs.Ends.{WillBeWoken};

use futures::Future;
use futures::executor::block_on;
use futures::task::{Context, Poll};
use futures::test::MockTask;
use oneshot_asserts::{Asserts, assert_same};
use oneshot_channel::{AsyncReceiver, RecvError, TryRecvError, async_channel};
use std::alloc::Global;
use std::io;
use std::thread::{Threads, sleep, spawn};
use std::time::Duration;

/// Starts a thread that sends `number`. Only the caller that awaits it needs a runtime that waits.
fn start<R: Threads>(rt: &R, alloc: Global, number: u64) -> io::Result<AsyncReceiver<u64, ()>> {
    let (sender, receiver) = async_channel((), alloc)?;
    spawn(rt, move || sender.send(number).is_ok())?;
    Ok(receiver)
}

/// Polls once. After `Pending` the task of `cx` will be polled again: it has asked for that, or the waker by which the
/// sender wakes the future is its own.
fn poll_once<T: Drop>(
    receiver: &mut AsyncReceiver<T, ()>,
    cx: &mut Context<'_>,
) -> Poll<Result<T, RecvError>>
    ensures { OnPending result (WillBeWoken cx.new receiver.new) }
{
    receiver.poll(cx)
}

#[test]
fn a_thread_is_awaited(rt: HostRuntime) {
    let receiver = start(&rt, rt.alloc(), 21).expect(&rt, "a thread");
    let received = block_on(&rt, receiver).expect(&rt, "an executor");
    assert_same!(rt; received, Ok(21));
}

#[test]
fn a_message_is_awaited(rt: HostRuntime) {
    let (sender, receiver) = async_channel((), rt.alloc()).expect(&rt, "memory");
    let sending = spawn(&rt, move || {
        sleep(&rt, Duration::from_millis(20));
        sender.send(19u64).is_ok()
    });
    let sending = sending.expect(&rt, "a thread");
    let received = block_on(&rt, receiver).expect(&rt, "an executor");
    assert_same!(rt; (received, sending.join(&rt)), (Ok(19), true));
}

#[test]
fn a_message_is_polled_by_hand(rt: HostRuntime) {
    let task = MockTask::new(&rt).expect(&rt, "a task");
    let (sender, mut receiver) = async_channel((), rt.alloc()).expect(&rt, "memory");
    assert_pending(&rt, &task, &mut receiver);
    let sent = (sender.send(19u64).is_ok(), task.is_woken());
    assert_same!(rt; sent, (true, true));
    assert_ready(&rt, &task, &mut receiver);
}

/// Asserts that the message is not there yet, and that the task is not woken.
fn assert_pending(rt: &impl Asserts, task: &MockTask, receiver: &mut AsyncReceiver<u64, ()>) {
    let polled = (task.poll(receiver), task.poll(receiver));
    let tried = (receiver.try_recv(), task.is_woken());
    let empty = Err(TryRecvError::Empty);
    assert_same!(rt;
        (polled, tried),
        ((Poll::Pending, Poll::Pending), (empty, false))
    );
}

/// Asserts that a poll returns the message and the next one an error, and that neither wakes the task.
fn assert_ready(rt: &impl Asserts, task: &MockTask, receiver: &mut AsyncReceiver<u64, ()>) {
    let polled = (task.poll(receiver), task.is_woken());
    let again = (task.poll(receiver), task.is_woken());
    assert_same!(rt;
        (polled, again),
        (
            (Poll::Ready(Ok(19)), false),
            (Poll::Ready(Err(RecvError)), false)
        )
    );
}
