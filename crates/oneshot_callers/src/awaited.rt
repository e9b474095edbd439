//! A caller that awaits a message under an executor, and its tests.

use futures::executor::block_on;
use oneshot_asserts::assert_same;
use oneshot_channel::{AsyncReceiver, RecvError, async_channel};
use std::io;
use std::random::RandomSource;
use std::sync::Wait;
use std::thread::{sleep, spawn};
use std::time::Duration;

/// Blocks this thread until the sender sends or is dropped.
fn awaited<R: Wait + RandomSource + AllocGlobal, T: Drop, Rt: Drop>(
    rt: &R,
    receiver: AsyncReceiver<T, Rt>,
) -> io::Result<Result<T, RecvError>> {
    block_on(rt, receiver)
}

#[test]
fn a_message_is_awaited(rt: HostRuntime) {
    let (sender, receiver) = async_channel(&rt, rt.alloc()).expect(&rt, "memory");
    let sending = spawn(&rt, move || {
        sleep(&rt, Duration::from_millis(20));
        sender.send(19u64).is_ok()
    });
    let sending = sending.expect(&rt, "a thread");
    let received = awaited(&rt, receiver).expect(&rt, "an executor");
    assert_same!(rt; (received, sending.join(&rt)), (Ok(19), true));
}

#[test]
fn a_sender_that_goes_ends_the_wait(rt: HostRuntime) {
    let (sender, receiver) = async_channel::<u64, _>(&rt, rt.alloc()).expect(&rt, "memory");
    let leaving = spawn(&rt, move || {
        sleep(&rt, Duration::from_millis(20));
        drop(sender);
    });
    let leaving = leaving.expect(&rt, "a thread");
    let received = awaited(&rt, receiver).expect(&rt, "an executor");
    leaving.join(&rt);
    assert_same!(rt; received, Err(RecvError));
}
