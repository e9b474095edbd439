//! How a waiting receive spins before it sleeps.

use std::hint::spin_loop;
use std::thread::yield_now;

/// How often a receive spins before it sleeps: it yields once and pauses sixteen times. A message often comes
/// within that time, which is shorter than sleeping and being woken.
pub(crate) const SPINS: u32 = 17;

/// How many hints to the processor make a pause. A pause is short, since a message that comes waits until its
/// end. Sixteen pauses take some 3 microseconds, or some ten times that on a processor with a slower hint.
const HINTS: u32 = 32;

/// Spins once: yields for the first of each `SPINS` spins, else pauses. `number` counts spins from 1.
pub(crate) fn spin(number: u32) {
    // The yield comes first: if both ends share a processor, a pause would only keep the sender from acting.
    if number % SPINS == 1 {
        return yield_now();
    }
    for _ in 0..HINTS {
        spin_loop();
    }
}
