//! Channels and tasks for the tests. A test ends if there is no memory for one.

use futures::test::MockTask;
use oneshot::{AsyncReceiver, Receiver, Sender, async_channel, channel};
use oneshot_asserts::Asserts;
use std::random::RandomSource;

/// Makes a channel.
pub(super) fn ends<T: Send + Drop, R: AllocGlobal + Asserts>(
    rt: &R,
) -> (Sender<T>, Receiver<T, &R>) {
    channel(rt, rt.alloc()).expect(rt, "memory")
}

/// Makes a channel whose receiver never blocks.
pub(super) fn idle_ends<T: Send + Drop, R: AllocGlobal + Asserts>(
    rt: &R,
) -> (Sender<T>, Receiver<T, ()>) {
    channel((), rt.alloc()).expect(rt, "memory")
}

/// Makes a channel whose receiver is a future.
pub(super) fn future_ends<T: Send + Drop, R: AllocGlobal + Asserts>(
    rt: &R,
) -> (Sender<T>, AsyncReceiver<T, &R>) {
    async_channel(rt, rt.alloc()).expect(rt, "memory")
}

/// Makes a task that polls by hand.
pub(super) fn new_task<R: RandomSource + AllocGlobal + Asserts>(rt: &R) -> MockTask {
    MockTask::new(rt).expect(rt, "memory")
}
