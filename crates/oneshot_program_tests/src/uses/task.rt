//! Tests of results that are received, and of those that come back.

use oneshot::channel;
use oneshot_asserts::assert_same;
use oneshot_patterns::task::{awaited, perform, start, unclaimed};

/// A task whose result is 7.
fn seven() -> u8 {
    7
}

#[test]
fn a_result_is_waited_for(rt: HostRuntime) {
    let awaited = awaited(&rt, rt.alloc(), seven).expect(&rt, "a thread");
    assert_same!(rt; (awaited.received, awaited.unclaimed), (Ok(7), None));
}

#[test]
fn a_result_comes_back_from_a_receiver_that_is_gone(rt: HostRuntime) {
    let unclaimed = unclaimed(&rt, rt.alloc(), seven).expect(&rt, "memory");
    assert_same!(rt; unclaimed, Some(7));
}

#[test]
fn a_task_does_not_wait_for_its_waiter(rt: HostRuntime) {
    let (waiter, receiver) = channel(&rt, rt.alloc()).expect(&rt, "memory");
    let unclaimed = perform(seven, waiter);
    assert_same!(rt; (unclaimed, receiver.recv()), (None, Ok(7)));
}

#[test]
fn a_started_task_is_joined_after_its_result(rt: HostRuntime) {
    let (waiter, receiver) = channel(&rt, rt.alloc()).expect(&rt, "memory");
    let thread = start(&rt, seven, waiter).expect(&rt, "a thread");
    let received = receiver.recv();
    assert_same!(rt; (thread.join(&rt), received), (None, Ok(7)));
}

#[test]
fn a_started_task_gives_back_what_nobody_waits_for(rt: HostRuntime) {
    let (waiter, receiver) = channel::<u8, ()>((), rt.alloc()).expect(&rt, "memory");
    drop(receiver);
    let thread = start(&rt, seven, waiter).expect(&rt, "a thread");
    assert_same!(rt; thread.join(&rt), Some(7));
}
