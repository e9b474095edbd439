//! Guards and their watches, and requests whose server is told when nobody waits.

pub(crate) mod cancelled;
mod order;
mod threads;
mod waits;

use futures::executor::block_on;
use futures::future::{Either, ready, select};
use futures::task::Poll;
use futures::test::MockTask;
use oneshot_asserts::{Asserts, assert_same, assert_that};
use oneshot_watch::{Guard, Watch, watch};
use std::random::RandomSource;
use std::sync::Wait;
use std::sync::atomic::{AtomicU64, Ordering};
use std::thread::{join, sleep};
use std::time::{Clock, Duration};

/// How long a guard lives while its watch waits, in milliseconds.
const MOMENT: u64 = 20;

/// Makes a guard, and its watch with this runtime. Ends the test if there is no memory.
fn guarded<Rt: Drop>(rt: &(impl AllocGlobal + Asserts), runtime: Rt) -> (Guard, Watch<Rt>) {
    watch(runtime, rt.alloc()).expect(rt, "memory")
}

#[test]
fn a_look_sees_whether_the_guard_is_gone(rt: HostRuntime) {
    let (guard, mut watch) = guarded(&rt, ());
    assert_same!(rt; (watch.is_gone(), watch.is_gone()), (false, false));
    drop(guard);
    assert_same!(rt; (watch.is_gone(), watch.is_gone()), (true, true));
}

#[test]
fn a_guard_goes_with_what_holds_it(rt: HostRuntime) {
    let (guard, mut watch) = guarded(&rt, ());
    let held = Some((guard, 7u8));
    assert!(rt; !watch.is_gone());
    drop(held);
    assert!(rt; watch.is_gone());
}

#[test]
fn a_polled_watch_is_woken_by_the_guards_drop_alone(rt: HostRuntime) {
    let task = MockTask::new(&rt).expect(&rt, "a task");
    let (guard, watch) = guarded(&rt, ());
    let mut gone = watch.into_future();
    let polled = task.poll(&mut gone);
    assert_same!(rt;
        (polled, gone.is_gone(), task.is_woken()),
        (Poll::Pending, false, false)
    );
    drop(guard);
    let is_woken = task.is_woken();
    let (polled, again) = (task.poll(&mut gone), task.poll(&mut gone));
    assert_same!(rt;
        (is_woken, polled, again, gone.is_gone(), task.is_woken()),
        (true, Poll::Ready(()), Poll::Ready(()), true, false)
    );
}

/// Waits until the guard of this watch is gone. Returns what is then stored in `goes`.
fn await_it(
    rt: &(impl Wait + RandomSource + AllocGlobal + Asserts),
    watch: Watch<()>,
    goes: &AtomicU64,
) -> u64 {
    block_on(rt, watch.into_future()).expect(rt, "an executor");
    goes.load(Ordering::SeqCst)
}

/// Stores 1 in `goes` after a moment, and then drops the guard.
fn drop_later(rt: &impl Clock, guard: Guard, goes: &AtomicU64) {
    sleep(rt, Duration::from_millis(MOMENT));
    goes.store(1, Ordering::SeqCst);
    drop(guard);
}

#[test]
fn a_watch_is_awaited(rt: HostRuntime) {
    let (guard, watch) = guarded(&rt, ());
    let goes = AtomicU64::new(0);
    let (went, ()) = join(
        &rt,
        || await_it(&rt, watch, &goes),
        || drop_later(&rt, guard, &goes),
    );
    assert_that!(rt; went == 1, "the watch is ready before its guard goes");
}

#[test]
fn what_is_selected_beside_a_watch_comes_back(rt: HostRuntime) {
    let (guard, watch) = guarded(&rt, ());
    let selected = block_on(&rt, select(watch.into_future(), ready(7u8)));
    let Either::Right((number, mut gone)) = selected.expect(&rt, "an executor") else {
        panic!(rt; "the watch reports a guard as gone that is there")
    };
    assert_same!(rt; (number, gone.is_gone()), (7, false));
    drop(guard);
    let selected = block_on(&rt, select(gone, ready(7u8)));
    let Either::Left(((), _)) = selected.expect(&rt, "an executor") else {
        panic!(rt; "the watch reports a guard as there that is gone")
    };
}
