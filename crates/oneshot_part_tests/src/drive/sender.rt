//! The sender's drivers, with a receiver that is here, waits or is gone.

ghost use Rattle.oneshot_drive.specs.BetweenCalls.{IsFresh};

use crate::drive::steps::steps_of;
use oneshot_asserts::{Asserts, assert_same};
use oneshot_drive::{drop_error, drop_sender, into_inner, send};
use oneshot_memory::MemorySender;
use std::alloc::{AllocGlobal, Global};
use std::sync::Wait;

/// Where the receiver is.
#[derive(Clone, Copy)]
enum Receiver {
    Here,
    Gone,
    Waits,
    /// It waits, and its deadline passes before the sender finishes.
    Stops,
    /// It is a future that waits, and is dropped before the sender finishes.
    Leaves,
}

type Ground<'a, R> = MemorySender<'a, u64, u8, R>;

fn ground<R: Wait>(rt: &R, alloc: Global, receiver: Receiver) -> Ground<'_, R>
    ensures { IsFresh result.state }
{
    match receiver {
        Receiver::Here => Ground::new(rt, alloc, true),
        Receiver::Gone => Ground::new(rt, alloc, false),
        Receiver::Waits => Ground::with_waiting_receiver(rt, alloc, 9),
        Receiver::Stops => {
            let mut g = Ground::with_waiting_receiver(rt, alloc, 9);
            g.receiver_will_stop();
            g
        }
        Receiver::Leaves => {
            let mut g = Ground::with_waiting_receiver(rt, alloc, 9);
            g.receiver_will_leave();
            g
        }
    }
}

/// The steps that a sender has made.
fn steps_made<R: Wait + Asserts + AllocGlobal>(rt: &R, g: &Ground<'_, R>) -> String {
    steps_of(rt.alloc(), g.events()).expect(rt, "memory")
}

/// Where the receiver is, the message that comes back, and the steps.
const SENDS: &[(Receiver, Option<u64>, &str); 5] = &[
    (Receiver::Here, None, "write-message, add:3"),
    (
        Receiver::Waits,
        None,
        "write-message, add:0, take-waker, swap 4:1, wake",
    ),
    (
        Receiver::Stops,
        None,
        "write-message, add:0, take-waker, swap 4:3, wake",
    ),
    (
        Receiver::Gone,
        Some(7),
        "write-message, add:2, take-message, free",
    ),
    (
        Receiver::Leaves,
        Some(7),
        "write-message, add:0, take-waker, swap 4:2, wake, take-message, free",
    ),
];

#[test]
fn send_makes_its_steps(rt: HostRuntime) {
    for &(receiver, refused, steps) in SENDS {
        let mut g = ground(&rt, rt.alloc(), receiver);
        let returned = if send(&mut g, 7) {
            None
        } else {
            Some(into_inner(&mut g))
        };
        let made = steps_made(&rt, &g);
        assert_same!(rt; (returned, made.as_str()), (refused, steps));
    }
}

#[test]
fn the_error_of_a_receiver_that_left_meanwhile_frees_once(rt: HostRuntime) {
    let mut g = ground(&rt, rt.alloc(), Receiver::Leaves);
    if send(&mut g, 7) {
        panic!(rt; "the receiver left")
    }
    let before = steps_made(&rt, &g);
    drop_error(&mut g);
    let after = steps_made(&rt, &g);
    assert_same!(rt;
        (before.as_str(), after.as_str()),
        (
            "write-message, add:0, take-waker, swap 4:2, wake",
            "write-message, add:0, take-waker, swap 4:2, wake, drop-message, free"
        )
    );
}

const DROPS: &[(Receiver, &str); 5] = &[
    (Receiver::Here, "xor:3"),
    (Receiver::Waits, "xor:0, take-waker, swap 2:1, wake"),
    (Receiver::Stops, "xor:0, take-waker, swap 2:3, wake"),
    (Receiver::Gone, "xor:2, free"),
    (Receiver::Leaves, "xor:0, take-waker, swap 2:2, wake, free"),
];

#[test]
fn the_senders_drop_makes_its_steps(rt: HostRuntime) {
    for &(receiver, steps) in DROPS {
        let mut g = ground(&rt, rt.alloc(), receiver);
        drop_sender(&mut g);
        assert_same!(rt; steps_made(&rt, &g).as_str(), steps);
    }
}
