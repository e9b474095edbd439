//! The receiver's drivers, with what the sender does meanwhile.

use crate::drive::deeds::{Life, assert_lives};

const TRIES: &[Life; 2] = &[
    (
        "channel
        R try = Err(Empty) | Some(9)
        S send | Some(9)
        R try = Ok(7) | Some(9)
        R try = Err(Disconnected) | Some(9)",
        "load:3, load:4, store 2, take-message, load:2",
    ),
    (
        "channel
        S drop | Some(9)
        R try = Err(Disconnected) | Some(9)
        R drop = dropped | Some(9)",
        "load:2, swap 2:2, free",
    ),
];

#[test]
fn try_recv_waits_for_nothing(rt: HostRuntime) {
    assert_lives(&rt, TRIES);
}

const DROPS: &[Life; 3] = &[
    (
        "channel
        R drop = dropped | Some(9)",
        "swap 2:3",
    ),
    (
        "channel
        S send | Some(9)
        R drop = dropped | Some(9)",
        "swap 2:4, drop-message, free",
    ),
    (
        "channel
        S drop | Some(9)
        R drop = dropped | Some(9)",
        "swap 2:2, free",
    ),
];

#[test]
fn the_receivers_drop_frees_unless_the_sender_is_here(rt: HostRuntime) {
    assert_lives(&rt, DROPS);
}

const WAITS_BY_REFERENCE: &[Life; 7] = &[
    (
        "channel
        S send | Some(9)
        R ref = Ok(7) | Some(9)
        R ref = Err(RecvError) | Some(9)",
        "load:4, store 2, take-message, load:2",
    ),
    (
        "channel
        S drop | Some(9)
        R ref = Err(RecvError) | Some(9)",
        "load:2",
    ),
    (
        "channel
        S send in 3 | Some(9)
        R ref = Ok(7) | None
        R ref = Err(RecvError) | None",
        "load:3, write-waker, swap 0:3, park spurious, load:0, park spurious, load:0, \
        park token-, load:4, store 2, take-message, load:2",
    ),
    (
        "channel
        S send in 1 for 1 | Some(9)
        R ref = Ok(7) | None",
        "load:3, write-waker, swap 0:3, park spurious, load:1, park token-, load:4, \
        store 2, take-message",
    ),
    (
        "channel
        S drop in 1 | Some(9)
        R ref = Err(RecvError) | None",
        "load:3, write-waker, swap 0:3, park token-, load:2",
    ),
    // The swap finds that the sender has acted, and the receiver withdraws its waker.
    (
        "channel
        S send in 0 | Some(9)
        R ref = Ok(7) | Some(9)",
        "load:3, write-waker, swap 0:4, withdraw, store 2, take-message",
    ),
    (
        "channel
        S drop in 0 | Some(9)
        R ref = Err(RecvError) | Some(9)
        R try = Err(Disconnected) | Some(9)",
        "load:3, write-waker, swap 0:2, withdraw, store 2, load:2",
    ),
];

#[test]
fn recv_ref_waits_for_the_sender(rt: HostRuntime) {
    assert_lives(&rt, WAITS_BY_REFERENCE);
}

const WAITS_BY_VALUE: &[Life; 6] = &[
    (
        "channel
        S send | Some(9)
        R recv = Ok(7) | Some(9)",
        "load:4, take-message, free",
    ),
    (
        "channel
        S drop | Some(9)
        R recv = Err(RecvError) | Some(9)",
        "load:2, free",
    ),
    (
        "channel
        S send in 2 | Some(9)
        R recv = Ok(7) | None",
        "load:3, write-waker, swap 0:3, park spurious, load:0, park token-, load:4, \
        take-message, free",
    ),
    (
        "channel
        S drop in 1 | Some(9)
        R recv = Err(RecvError) | None",
        "load:3, write-waker, swap 0:3, park token-, load:2, free",
    ),
    (
        "channel
        S send in 0 | Some(9)
        R recv = Ok(7) | Some(9)",
        "load:3, write-waker, swap 0:4, withdraw, take-message, free",
    ),
    (
        "channel
        S drop in 0 | Some(9)
        R recv = Err(RecvError) | Some(9)",
        "load:3, write-waker, swap 0:2, withdraw, free",
    ),
];

#[test]
fn recv_waits_for_the_sender_and_frees(rt: HostRuntime) {
    assert_lives(&rt, WAITS_BY_VALUE);
}

const WAITS_UNTIL_A_DEADLINE: &[Life; 9] = &[
    (
        "channel
        S send | Some(9)
        R deadline = Ok(7) | Some(9)
        R deadline = Err(Disconnected) | Some(9)",
        "load:4, store 2, take-message, load:2",
    ),
    (
        "channel
        S drop | Some(9)
        R deadline = Err(Disconnected) | Some(9)",
        "load:2",
    ),
    (
        "channel
        R deadline = Err(Timeout) | Some(9)",
        "load:3, write-waker, swap 0:3, clock over, swap 3:0, withdraw",
    ),
    (
        "channel
        over in 1 | Some(9)
        R deadline = Err(Timeout) | Some(9)",
        "load:3, write-waker, swap 0:3, clock left, park spurious, load:0, clock over, \
        swap 3:0, withdraw",
    ),
    (
        "channel
        over in 9 | Some(9)
        S send in 2 | Some(9)
        R deadline = Ok(7) | None",
        "load:3, write-waker, swap 0:3, clock left, park token-, load:4, store 2, \
        take-message",
    ),
    (
        "channel
        over in 9 | Some(9)
        S drop in 4 | Some(9)
        R deadline = Err(Disconnected) | None",
        "load:3, write-waker, swap 0:3, clock left, park spurious, load:0, clock left, \
        park token-, load:2",
    ),
    (
        "channel
        over in 9 | Some(9)
        S send in 2 for 2 | Some(9)
        R deadline = Ok(7) | None",
        "load:3, write-waker, swap 0:3, clock left, park spurious, load:1, clock left, \
        park token-, load:4, store 2, take-message",
    ),
    (
        "channel
        S send in 0 | Some(9)
        R deadline = Ok(7) | Some(9)",
        "load:3, write-waker, swap 0:4, withdraw, store 2, take-message",
    ),
    (
        "channel
        S drop in 0 | Some(9)
        R deadline = Err(Disconnected) | Some(9)",
        "load:3, write-waker, swap 0:2, withdraw, store 2",
    ),
];

#[test]
fn recv_deadline_waits_until_its_deadline(rt: HostRuntime) {
    assert_lives(&rt, WAITS_UNTIL_A_DEADLINE);
}

const DEADLINES_THAT_COME_TOO_LATE: &[Life; 4] = &[
    (
        "channel
        S send in 1 | Some(9)
        R deadline = Ok(7) | None",
        "load:3, write-waker, swap 0:3, clock over, swap 3:4, store 2, take-message",
    ),
    (
        "channel
        S drop in 1 | Some(9)
        R deadline = Err(Disconnected) | None
        R try = Err(Disconnected) | None",
        "load:3, write-waker, swap 0:3, clock over, swap 3:2, store 2, load:2",
    ),
    // The sender is about to finish, and the receiver waits for it.
    (
        "channel
        S send in 1 for 2 | Some(9)
        R deadline = Ok(7) | None",
        "load:3, write-waker, swap 0:3, clock over, swap 3:1, park spurious, load:3, \
        park token-, load:4, store 2, take-message",
    ),
    (
        "channel
        S drop in 1 for 1 | Some(9)
        R deadline = Err(Disconnected) | None",
        "load:3, write-waker, swap 0:3, clock over, swap 3:1, park token-, load:2",
    ),
];

#[test]
fn a_deadline_runs_out_over_what_the_sender_did(rt: HostRuntime) {
    assert_lives(&rt, DEADLINES_THAT_COME_TOO_LATE);
}

const AFTER_A_DEADLINE: &[Life; 3] = &[
    (
        "channel
        R deadline = Err(Timeout) | Some(9)
        R try = Err(Empty) | Some(9)
        S send | Some(9)
        R try = Ok(7) | Some(9)",
        "load:3, write-waker, swap 0:3, clock over, swap 3:0, withdraw, load:3, load:4, \
        store 2, take-message",
    ),
    (
        "channel
        S drop in 3 | Some(9)
        R deadline = Err(Timeout) | Some(9)
        R ref = Err(RecvError) | None",
        "load:3, write-waker, swap 0:3, clock over, swap 3:0, withdraw, load:3, \
        write-waker, swap 0:3, park token-, load:2",
    ),
    (
        "channel
        R deadline = Err(Timeout) | Some(9)
        S send | Some(9)
        R drop = dropped | Some(9)",
        "load:3, write-waker, swap 0:3, clock over, swap 3:0, withdraw, swap 2:4, \
        drop-message, free",
    ),
];

#[test]
fn a_receiver_goes_on_after_its_deadline(rt: HostRuntime) {
    assert_lives(&rt, AFTER_A_DEADLINE);
}

const TIMEOUTS: &[Life; 4] = &[
    (
        "channel
        S send | Some(9)
        R timeout = Ok(7) | Some(9)",
        "clock over, load:4, store 2, take-message",
    ),
    (
        "channel
        S drop | Some(9)
        R forever = Err(Disconnected) | Some(9)",
        "clock over, load:2",
    ),
    (
        "channel
        over in 1 | Some(9)
        R timeout = Err(Timeout) | Some(9)",
        "clock left, load:3, write-waker, swap 0:3, clock over, swap 3:0, withdraw",
    ),
    // No instant can hold the sum, so the receiver waits without a deadline.
    (
        "channel
        S send in 3 | Some(9)
        R forever = Ok(7) | None",
        "clock over, load:3, write-waker, swap 0:3, park spurious, load:0, park token-, \
        load:4, store 2, take-message",
    ),
];

#[test]
fn recv_timeout_reads_its_clock_for_the_sum(rt: HostRuntime) {
    assert_lives(&rt, TIMEOUTS);
}

#[test]
#[should_panic(expected = "swap 2:3")]
fn other_steps_end_a_test(rt: HostRuntime) {
    let life = ("channel\nR drop = dropped | Some(9)", "swap 2:2");
    assert_lives(&rt, &[life]);
}

#[test]
#[should_panic(expected = "Some(9)")]
fn another_hand_ends_a_test(rt: HostRuntime) {
    let life = ("channel\nR drop = dropped | None", "swap 2:3");
    assert_lives(&rt, &[life]);
}

#[test]
#[should_panic(expected = "Err(Empty)")]
fn another_reply_ends_a_test(rt: HostRuntime) {
    let life = ("channel\nR try = Ok(7) | Some(9)", "load:3");
    assert_lives(&rt, &[life]);
}
