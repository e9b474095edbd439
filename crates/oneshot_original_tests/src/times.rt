//! How long the tests wait, how late a receive may return, and what the tests do on a busy machine.

use oneshot_asserts::{Asserts, assert_that};
use oneshot_calls::is_overdue;
use std::thread::sleep;
use std::time::{Clock, Duration, Instant};

/// How long a receive waits that is to time out.
pub(super) fn tenth() -> Duration {
    Duration::from_millis(100)
}

/// How long a receive may wait that finds at once how its channel ended.
pub(super) fn second() -> Duration {
    Duration::from_secs(1)
}

/// The time that has passed since the clock's start. Fails if there is no clock.
pub(super) fn now(rt: &(impl Asserts + Clock)) -> Instant {
    Instant::now(rt).ok().expect(rt, "a clock")
}

/// The time that has passed since `start`. Fails if there is no clock.
pub(super) fn time_since(rt: &(impl Asserts + Clock), start: Instant) -> Duration {
    now(rt).saturating_duration_since(start)
}

/// Fails if a receive took longer than any that is woken.
pub(super) fn assert_woken(rt: &impl Asserts, took: Duration) {
    assert_that!(rt; !is_overdue(took), ("a receive took", took));
}

/// Fails if a receive that began at `start` took longer than any that is woken.
pub(super) fn assert_woken_since(rt: &(impl Asserts + Clock), start: Instant) {
    assert_woken(rt, time_since(rt, start));
}

/// How often a test is tried that may be late on a busy machine.
const TRIES: u64 = 3;

/// How long a sleep for a tenth of a second takes.
fn time_of_sleep(rt: &(impl Asserts + Clock)) -> Duration {
    let start = now(rt);
    sleep(rt, tenth());
    time_since(rt, start)
}

/// Repeats `attempt`, which returns how long its receive took, until one is in time: its receive takes less than
/// `sleeps` times a sleep for a tenth of a second. That sleep is made and measured just before, since it takes longer
/// on a busy machine. Fails if no attempt of `TRIES` is in time.
pub(super) fn in_time<F: FnMut() -> Duration>(
    rt: &(impl Asserts + Clock),
    sleeps: u32,
    mut attempt: F,
)
    requires { F.IsAlwaysCallable attempt }
{
    for _ in 0..TRIES {
        let limit = time_of_sleep(rt).saturating_mul(sleeps);
        if attempt() < limit {
            return;
        }
    }
    panic!(rt; "late in each of {TRIES} tries")
}

#[test]
#[should_panic(expected = "(\"a receive took\", 5s)")]
fn a_receive_that_nothing_woke_ends_a_test(rt: HostRuntime) {
    assert_woken(&rt, Duration::from_secs(5));
}
