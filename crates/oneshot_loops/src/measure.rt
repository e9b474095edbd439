//! Measures how long a loop takes.

use crate::channels::Channel;
use crate::fault::Fault;
use crate::loops::Loop;
use crate::run::run_loop;
use crate::tally::Tally;
use std::alloc::AllocGlobal;
use std::random::RandomSource;
use std::sync::Wait;
use std::thread::Threads;
use std::time::{Clock, Duration, Instant};

/// What a loop did, and how long it took.
#[derive(Clone, Copy)]
pub struct Measured {
    /// What the rounds did.
    pub tally: Tally,
    /// The time between the clock's readings before and after them.
    pub time: Duration,
}

/// Runs `count` rounds of the loop `kind` over `channel`, between two readings of the clock.
///
/// `Err`: the clock failed, the channel cannot run the loop, or a round's fault.
pub fn measure<R: AllocGlobal + RandomSource + Threads + Wait + Clock + Sync>(
    rt: &R,
    channel: Channel,
    kind: Loop,
    count: u64,
) -> Result<Measured, Fault> {
    let mut tally = Tally::new();
    let time = timed(rt, || run_loop(rt, channel, kind, count, &mut tally))?;
    Ok(Measured { tally, time })
}

/// Returns how long `work` takes by `clock`. `Err`: the clock failed, or the fault of `work`.
pub fn timed<C: Clock, F: FnOnce() -> Result<(), Fault>>(
    clock: &C,
    work: F,
) -> Result<Duration, Fault>
    requires { F.pre work }
{
    let Ok(start) = Instant::now(clock) else {
        return Err(Fault::ClockFailed);
    };
    work()?;
    match start.elapsed(clock) {
        Ok(time) => Ok(time),
        Err(_) => Err(Fault::ClockFailed),
    }
}
