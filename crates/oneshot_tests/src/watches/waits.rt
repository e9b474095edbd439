//! Waits of a watch: by another thread, and to the nanosecond by a written clock.

use super::{MOMENT, guarded};
use crate::ends::clocks::{DEADLINES, TIMEOUTS, Written, instant_at};
use oneshot_asserts::{Asserts, assert_same, assert_that};
use oneshot_calls::{is_overdue, limit};
use oneshot_watch::{Guard, Watch};
use std::sync::Wait;
use std::thread::{Threads, join, sleep};
use std::time::{Clock, Duration, Instant};

/// A wait for a guard that another thread drops meanwhile.
#[derive(Clone, Copy, Debug)]
enum Call {
    /// `wait`.
    Wait,
    /// `wait_timeout`.
    Timeout,
    /// `wait_deadline`.
    Deadline,
}

fn now(rt: &(impl Clock + Asserts)) -> Instant {
    Instant::now(rt).expect(rt, "a clock")
}

/// The instant ten seconds after now.
fn late(rt: &(impl Clock + Asserts)) -> Instant {
    now(rt)
        .checked_add(limit())
        .expect(rt, "an instant in ten seconds")
}

/// Makes this wait, a timed one for at most ten seconds. Returns whether the guard is then gone.
fn wait_by<R: Wait + Clock + Asserts>(rt: &R, call: Call, mut watch: Watch<&R>) -> bool {
    match call {
        Call::Wait => {
            watch.wait();
            watch.is_gone()
        }
        Call::Timeout => watch.wait_timeout(limit()),
        Call::Deadline => watch.wait_deadline(late(rt)),
    }
}

fn drop_later(rt: &impl Clock, guard: Guard) {
    sleep(rt, Duration::from_millis(MOMENT));
    drop(guard);
}

/// Whether a wait finds the guard gone that another thread drops meanwhile. Fails if it lasts too long.
fn sees_it_go<R: Threads + Wait + Clock + AllocGlobal + Asserts + Sync>(
    rt: &R,
    call: Call,
) -> bool {
    let (guard, watch) = guarded(rt, rt);
    let start = now(rt);
    let (gone, ()) = join(rt, || wait_by(rt, call, watch), || drop_later(rt, guard));
    let took = start.elapsed(rt).expect(rt, "a clock");
    assert_that!(rt; !is_overdue(took), (call, took));
    gone
}

#[test]
fn a_wait_ends_once_the_guard_is_gone(rt: HostRuntime) {
    for call in [Call::Wait, Call::Timeout, Call::Deadline] {
        assert_that!(rt; sees_it_go(&rt, call), call);
    }
}

#[test]
fn a_wait_for_a_guard_that_is_gone_ends_at_once(rt: HostRuntime) {
    // A clock that fails is past every deadline.
    let clock = Written::new(&rt, &[]);
    let (guard, mut watch) = guarded(&rt, &clock);
    drop(guard);
    let until = watch.wait_deadline(instant_at(&rt, 5));
    assert_same!(rt; (until, watch.wait_timeout(Duration::ZERO)), (true, true));
    watch.wait();
    assert!(rt; watch.is_gone());
}

#[test]
fn a_deadline_ends_a_wait_once_the_clock_is_past_it(rt: HostRuntime) {
    for (deadline, written, made) in DEADLINES {
        let clock = Written::new(&rt, written);
        let (_guard, mut watch) = guarded(&rt, &clock);
        let gone = watch.wait_deadline(instant_at(&rt, deadline));
        assert_same!(rt;
            (deadline, written, gone, clock.made()),
            (deadline, written, false, made)
        );
    }
}

#[test]
fn a_timeout_of_a_wait_counts_from_one_reading(rt: HostRuntime) {
    for (timeout, written, made) in TIMEOUTS {
        let clock = Written::new(&rt, written);
        let (_guard, mut watch) = guarded(&rt, &clock);
        let gone = watch.wait_timeout(Duration::from_nanos(timeout));
        assert_same!(rt;
            (timeout, written, gone, clock.made()),
            (timeout, written, false, made)
        );
    }
}
