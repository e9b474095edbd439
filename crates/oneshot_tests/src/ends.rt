//! The ends of a channel, on one thread and on two.

mod asleep;
mod beside;
pub(super) mod clocks;
mod deadlines;
mod leaks;
mod lives;
mod nested;
mod overdue;
mod polls;
mod promised;
pub(super) mod raw;
mod refused;
mod steps;
mod threads;
pub(super) mod wakes;

use oneshot_asserts::Asserts;
use oneshot_channel::{AsyncReceiver, Receiver, Sender, async_channel, channel};

/// Makes a channel whose receiver has this runtime. Ends the test if there is no memory.
fn open<T: Send + Drop, Rt: Drop>(
    rt: &(impl AllocGlobal + Asserts),
    runtime: Rt,
) -> (Sender<T>, Receiver<T, Rt>) {
    channel(runtime, rt.alloc()).expect(rt, "memory")
}

/// Makes a channel whose receiver is a future. Ends the test if there is no memory.
pub(crate) fn open_async<T: Send + Drop, Rt: Drop>(
    rt: &(impl AllocGlobal + Asserts),
    runtime: Rt,
) -> (Sender<T>, AsyncReceiver<T, Rt>) {
    async_channel(runtime, rt.alloc()).expect(rt, "memory")
}
