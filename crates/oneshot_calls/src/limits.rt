//! How long the calls that wait may last.

use std::hint::spin_loop;
use std::thread::yield_now;
use std::time::Duration;

/// How long a receive may wait for another thread.
pub fn limit() -> Duration {
    Duration::from_secs(10)
}

/// Whether a receive took so long that nothing can have woken it: a wake takes microseconds, and on a busy machine not
/// seconds. A receive that nothing wakes takes all of its limit.
pub fn is_overdue(took: Duration) -> bool {
    took >= Duration::from_secs(5)
}

/// So short that a receive does not spin.
pub(crate) fn short() -> Duration {
    Duration::from_millis(50)
}

/// Longer than any test.
pub(crate) fn far() -> Duration {
    Duration::from_secs(3_600)
}

/// More tries or polls than are made before the sender acts. They take some ten seconds.
pub(crate) const TRIES: u64 = 20_000_000;

/// After how many tries a thread spins. After each later one it yields.
const QUICK_TRIES: u64 = 100;

/// Spins or yields after the try or poll with this number, counted from 0.
pub(crate) fn pass_time(number: u64) {
    if number < QUICK_TRIES {
        spin_loop();
    } else {
        yield_now();
    }
}
