//! The calls of a future over a ground in memory: what becomes of the copies of a waker, and how often the
//! task is woken.

use crate::drive::deeds::{Life, assert_lives};

const WAITS: &[Life; 5] = &[
    (
        "async_channel
        R poll1 = Pending | (1, 0, 0) (0, 0, 0)
        S send | (1, 1, 1) (0, 0, 0)
        R poll1 = Ready(Ok(7)) | (1, 1, 1) (0, 0, 0)",
        "load:3, copy, write-waker, exchange 3 0:3, load:4, store 2, take-message",
    ),
    (
        "async_channel
        R poll1 = Pending | (1, 0, 0) (0, 0, 0)
        R poll2 = Pending | (1, 1, 0) (1, 0, 0)
        S send | (1, 1, 0) (1, 1, 1)",
        "load:3, copy, write-waker, exchange 3 0:3, load:0, copy, exchange 0 3:0, \
        withdraw, write-waker, exchange 3 0:3",
    ),
    // The exchange finds that the sender has acted. At a second poll the sender uses the copy of the first.
    (
        "async_channel
        S send in 0 | (0, 0, 0) (0, 0, 0)
        R poll1 = Ready(Ok(7)) | (1, 1, 0) (0, 0, 0)",
        "load:3, copy, write-waker, exchange 3 0:4, withdraw, store 2, take-message",
    ),
    (
        "async_channel
        R poll1 = Pending | (1, 0, 0) (0, 0, 0)
        S send in 0 | (1, 0, 0) (0, 0, 0)
        R poll1 = Ready(Ok(7)) | (2, 2, 1) (0, 0, 0)",
        "load:3, copy, write-waker, exchange 3 0:3, load:0, copy, exchange 0 3:4, \
        store 2, take-message",
    ),
    (
        "async_channel
        R poll1 = Pending | (1, 0, 0) (0, 0, 0)
        S drop in 0 | (1, 0, 0) (0, 0, 0)
        R poll1 = Ready(Err(RecvError)) | (2, 2, 1) (0, 0, 0)",
        "load:3, copy, write-waker, exchange 3 0:3, load:0, copy, exchange 0 3:2",
    ),
];

#[test]
fn a_poll_leaves_one_copy_to_the_sender(rt: HostRuntime) {
    assert_lives(&rt, WAITS);
}

const REFUSED_COPIES: &[Life; 3] = &[
    // The task is woken at once.
    (
        "async_channel
        refuse | (0, 0, 0) (0, 0, 0)
        R poll1 = Pending | (0, 0, 1) (0, 0, 0)
        S send | (0, 0, 1) (0, 0, 0)
        R poll1 = Ready(Ok(7)) | (0, 0, 1) (0, 0, 0)",
        "load:3, copy refused, wake own, load:4, store 2, take-message",
    ),
    // The stored copy stays, and the sender uses it.
    (
        "async_channel
        R poll1 = Pending | (1, 0, 0) (0, 0, 0)
        refuse | (1, 0, 0) (0, 0, 0)
        R poll2 = Pending | (1, 0, 0) (0, 0, 1)
        S drop | (1, 1, 1) (0, 0, 1)
        R poll2 = Ready(Err(RecvError)) | (1, 1, 1) (0, 0, 1)",
        "load:3, copy, write-waker, exchange 3 0:3, load:0, copy refused, wake own, load:2",
    ),
    // By the third poll, the second has taken the first task's copy back.
    (
        "async_channel
        R poll1 = Pending | (1, 0, 0) (0, 0, 0)
        R poll2 = Pending | (1, 1, 0) (1, 0, 0)
        refuse | (1, 1, 0) (1, 0, 0)
        R poll1 = Pending | (1, 1, 1) (1, 0, 0)
        S send | (1, 1, 1) (1, 1, 1)",
        "load:3, copy, write-waker, exchange 3 0:3, load:0, copy, exchange 0 3:0, \
        withdraw, write-waker, exchange 3 0:3, load:0, copy refused, wake own",
    ),
];

#[test]
fn a_refused_copy_wakes_its_task_and_leaves_the_stored_one(rt: HostRuntime) {
    assert_lives(&rt, REFUSED_COPIES);
}

const TRIES: &[Life; 3] = &[
    (
        "async_channel
        R try = Err(Empty) | (0, 0, 0) (0, 0, 0)
        S send | (0, 0, 0) (0, 0, 0)
        R try = Ok(7) | (0, 0, 0) (0, 0, 0)
        R try = Err(Disconnected) | (0, 0, 0) (0, 0, 0)",
        "load:3, load:4, store 2, take-message, load:2",
    ),
    // The copy stays in its slot while the word is 0, or the sender would wake nobody.
    (
        "async_channel
        R poll1 = Pending | (1, 0, 0) (0, 0, 0)
        R try = Err(Empty) | (1, 0, 0) (0, 0, 0)
        R try = Err(Empty) | (1, 0, 0) (0, 0, 0)
        S drop | (1, 1, 1) (0, 0, 0)
        R try = Err(Disconnected) | (1, 1, 1) (0, 0, 0)",
        "load:3, copy, write-waker, exchange 3 0:3, load:0, load:0, load:2",
    ),
    // The sender lingers for three pauses: the second poll's exchange and the first two `try_recv` find it.
    (
        "async_channel
        R poll1 = Pending | (1, 0, 0) (0, 0, 0)
        S send in 0 for 3 | (1, 0, 0) (0, 0, 0)
        R poll1 = Pending | (2, 1, 1) (0, 0, 0)
        R try = Err(Empty) | (2, 1, 1) (0, 0, 0)
        R try = Err(Empty) | (2, 2, 2) (0, 0, 0)
        R try = Ok(7) | (2, 2, 2) (0, 0, 0)",
        "load:3, copy, write-waker, exchange 3 0:3, load:0, copy, exchange 0 3:1, \
        wake own, load:1, load:1, load:4, store 2, take-message",
    ),
];

#[test]
fn a_try_waits_for_nothing_and_leaves_the_copy_in_its_slot(rt: HostRuntime) {
    assert_lives(&rt, TRIES);
}

const ABOUT_TO_FINISH: &[Life; 2] = &[
    // Each of the last three polls performs one load, and wakes its task.
    (
        "async_channel
        R poll1 = Pending | (1, 0, 0) (0, 0, 0)
        S send in 0 for 99 | (1, 0, 0) (0, 0, 0)
        R try = Err(Empty) | (1, 0, 0) (0, 0, 0)
        R poll1 = Pending | (1, 0, 1) (0, 0, 0)
        R poll1 = Pending | (1, 0, 2) (0, 0, 0)
        R poll1 = Pending | (1, 0, 3) (0, 0, 0)",
        "load:3, copy, write-waker, exchange 3 0:3, load:0, load:1, wake own, load:1, \
        wake own, load:1, wake own",
    ),
    // The sender finishes after the third poll's load.
    (
        "async_channel
        R poll1 = Pending | (1, 0, 0) (0, 0, 0)
        S send in 0 for 2 | (1, 0, 0) (0, 0, 0)
        R try = Err(Empty) | (1, 0, 0) (0, 0, 0)
        R poll1 = Pending | (1, 0, 1) (0, 0, 0)
        R poll1 = Pending | (1, 1, 3) (0, 0, 0)
        R poll1 = Ready(Ok(7)) | (1, 1, 3) (0, 0, 0)",
        "load:3, copy, write-waker, exchange 3 0:3, load:0, load:1, wake own, load:1, \
        wake own, load:4, store 2, take-message",
    ),
];

#[test]
fn no_poll_waits_for_a_sender_that_is_about_to_finish(rt: HostRuntime) {
    assert_lives(&rt, ABOUT_TO_FINISH);
}

const DROPS: &[Life; 4] = &[
    (
        "async_channel
        R poll1 = Pending | (1, 0, 0) (0, 0, 0)
        R drop = dropped | (1, 1, 0) (0, 0, 0)",
        "load:3, copy, write-waker, exchange 3 0:3, load:0, exchange 0 3:0, withdraw, swap 2:3",
    ),
    // A sender about to finish has the copy, and uses it once. The sender frees the block, not the future.
    (
        "async_channel
        R poll1 = Pending | (1, 0, 0) (0, 0, 0)
        S send in 0 for 9 | (1, 0, 0) (0, 0, 0)
        R try = Err(Empty) | (1, 0, 0) (0, 0, 0)
        R drop = dropped | (1, 1, 1) (0, 0, 0)",
        "load:3, copy, write-waker, exchange 3 0:3, load:0, load:1, swap 2:1",
    ),
    // The sender begins between the drop's load and its exchange.
    (
        "async_channel
        R poll1 = Pending | (1, 0, 0) (0, 0, 0)
        S send in 0 for 9 | (1, 0, 0) (0, 0, 0)
        R drop = dropped | (1, 1, 1) (0, 0, 0)",
        "load:3, copy, write-waker, exchange 3 0:3, load:0, exchange 0 3:1, swap 2:1",
    ),
    // The sender finishes between the drop's load and its exchange, and wakes the task.
    (
        "async_channel
        R poll1 = Pending | (1, 0, 0) (0, 0, 0)
        S send in 0 | (1, 0, 0) (0, 0, 0)
        R drop = dropped | (1, 1, 1) (0, 0, 0)",
        "load:3, copy, write-waker, exchange 3 0:3, load:0, exchange 0 3:4, swap 2:4, \
        drop-message, free",
    ),
];

#[test]
fn a_dropped_future_ends_its_copy(rt: HostRuntime) {
    assert_lives(&rt, DROPS);
}

#[test]
#[should_panic(expected = "(1, 0, 0)")]
fn other_counts_end_a_test(rt: HostRuntime) {
    let life = ("async_channel\nR poll1 = Pending | (2, 0, 0) (0, 0, 0)", "");
    assert_lives(&rt, &[life]);
}

#[test]
#[should_panic(expected = "load:3")]
fn other_steps_of_a_future_end_a_test(rt: HostRuntime) {
    let life = (
        "async_channel\nR try = Err(Empty) | (0, 0, 0) (0, 0, 0)",
        "",
    );
    assert_lives(&rt, &[life]);
}
