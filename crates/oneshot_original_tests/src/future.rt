//! The test of `tests/future.rs`, over a ground in memory whose tasks count the copies of their wakers.

use futures::task::Poll;
use oneshot::drive::poll;
use oneshot_asserts::{Asserts, assert_same};
use oneshot_memory::{MemoryFuture, MemoryTask};
use std::fmt::Debug;
use std::sync::Wait;

/// Fails unless the task counts so many copies of its waker, so many that were used or dropped, and so many wakes.
/// `when` says after which call.
pub(super) fn assert_counts(
    rt: &impl Asserts,
    when: &str,
    task: &MemoryTask,
    wanted: (u64, u64, u64),
) {
    let counts = (task.copies(), task.ended(), task.wakes());
    assert_same!(rt; (when, counts), (when, wanted));
}

/// Polls a new future by the first task and then by the second. Fails unless it then has the second's waker alone.
pub(super) fn polled_by<'a, 't, T: PartialEq + Debug + Drop, R: Wait + AllocGlobal + Asserts>(
    rt: &'a R,
    first: &'t MemoryTask,
    second: &'t MemoryTask,
) -> MemoryFuture<'a, 't, T, R> {
    let mut receiver = MemoryFuture::new(rt, rt.alloc(), first);
    assert_same!(rt; poll(&mut receiver), Poll::Pending);
    assert_counts(rt, "the first poll", first, (1, 0, 0));
    receiver.task = second;
    assert_same!(rt; poll(&mut receiver), Poll::Pending);
    assert_counts(rt, "the second poll", first, (1, 1, 0));
    assert_counts(rt, "the second poll", second, (1, 0, 0));
    receiver
}

#[test]
fn multiple_receiver_polls_keeps_only_latest_waker(rt: HostRuntime) {
    let first = MemoryTask::new();
    let second = MemoryTask::new();
    let _receiver = polled_by::<(), _>(&rt, &first, &second);
}
