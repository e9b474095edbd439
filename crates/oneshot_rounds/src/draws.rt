//! Pseudorandom delays, so that either side of a round may be first.

use std::hint::spin_loop;
use std::thread::yield_now;

/// Draws by xorshift, which are the same in each run.
#[derive(Drop)]
pub(super) struct Draws(u64);

impl Draws {
    /// Returns the draws of `seed`, which is not 0.
    pub(super) fn new(seed: u64) -> Draws {
        Draws(seed)
    }

    /// The next draw.
    pub(super) fn next(&mut self) -> u64 {
        self.0 ^= self.0 << 13;
        self.0 ^= self.0 >> 7;
        self.0 ^= self.0 << 17;
        self.0
    }

    /// Spins up to 4,095 times. Each power of two from 2 to 4,096 is an equally likely bound, so short delays
    /// are as frequent as long ones. About one pause in sixty-four yields first, which helps two threads that share
    /// a processor. If another program has a share too, a yield lasts milliseconds.
    pub(super) fn pause(&mut self) {
        if self.next() % 64 == 0 {
            yield_now();
        }
        let draw = self.next();
        let spins = draw >> (52 + draw % 12);
        for _ in 0..spins {
            spin_loop();
        }
    }
}
