//! How a thread waits for what another is about to do.

use oneshot_asserts::{Asserts, assert_that};
use oneshot_calls::is_overdue;
use std::hint::spin_loop;
use std::thread::sleep;
use std::time::{Clock, Duration, Instant};

/// The time that has passed since the clock's start. Fails if there is no clock.
pub(super) fn now(rt: &(impl Asserts + Clock)) -> Instant {
    Instant::now(rt).ok().expect(rt, "a clock")
}

/// Fails if the call of a round took longer than any that is woken.
pub(super) fn assert_woken(rt: &impl Asserts, round: u64, took: Duration) {
    assert_that!(rt; !is_overdue(took), ("round", round, took));
}

/// How often a thread looks for the other at a line: at first it spins, then it sleeps in between. The sleeps take
/// longer than any test.
pub(super) const LINE_LOOKS: u64 = 72_000_000;

/// Passes the time between two looks for the other thread at a line.
pub(super) fn pass_time_at_line(rt: &impl Clock, looks: u64) {
    // A thread that yields beside a busy program waits for milliseconds; one that has slept goes on at once.
    match looks {
        0..10_000 => spin_loop(),
        _ => sleep(rt, Duration::from_micros(50)),
    }
}

#[test]
#[should_panic(expected = "(\"round\", 7, 5s)")]
fn a_call_that_nothing_woke_ends_a_test(rt: HostRuntime) {
    assert_woken(&rt, 7, Duration::from_secs(5));
}
