//! A receive that waits sleeps: it uses little processor time, however long it waits.

use super::beside::{Before, Calls, Pace, WAITS, beside, used_time};
use super::clocks::assert_spins;
use oneshot_asserts::{Asserts, assert_that};
use oneshot_calls::{ReceiverCall, SenderCall, script, shows};
use std::alloc::AllocGlobal;
use std::hint::spin_loop;
use std::random::RandomSource;
use std::sync::{Arc, Wait};
use std::thread::Threads;
use std::time::{Clock, CpuClock, Duration};

/// How many milliseconds the sender lets the receiver wait.
const LONG: u64 = 200;

/// How often a long wait is tried, since other programs may disturb it.
const TRIES: u32 = 10;

/// How many milliseconds a short wait lasts.
const SHORT: u64 = 10;

/// How many short waits are measured.
const SHORT_WAITS: u32 = 10;

/// How many hints to the processor are measured. A wait uses less processor time than they do: it gives 512 before it
/// sleeps.
const HINTS: u32 = 50_000;

/// The processor time of a receive from a sender that sleeps for `lingers` milliseconds and sends 19. Fails unless the
/// receive gets the message.
fn time_of<R: Threads + Wait + Clock + CpuClock + RandomSource + AllocGlobal + Asserts + Sync>(
    rt: &R,
    receives: &[ReceiverCall],
    lingers: u64,
) -> Duration {
    let message = Arc::new(rt.alloc(), 19).expect(rt, "memory");
    let calls = Calls {
        sends: &[SenderCall::Closed, SenderCall::Send],
        receives,
    };
    let pace = Pace::new(Before::Sleep(Duration::from_millis(lingers)));
    let (received, _) = beside(rt, message, calls, &pace);
    let used = received.used;
    let reply = received.reply.numbered();
    assert_that!(rt; shows(&reply, "Ok(19)"), (receives, &reply));
    used
}

/// The processor time of `HINTS` hints.
fn time_of_hints(rt: &(impl CpuClock + Asserts)) -> Duration {
    let before = used_time(rt);
    for _ in 0..HINTS {
        spin_loop();
    }
    used_time(rt).saturating_sub(before)
}

/// Whether a receive from a sender that sleeps for `lingers` milliseconds uses at least the processor time of `HINTS`
/// hints. The hints are timed just before the receive, since other programs slow both. If the clock stood still, both
/// times would be zero, and the receive would count as one that spins. Fails unless the receive gets the message.
fn spins<R: Threads + Wait + Clock + CpuClock + RandomSource + AllocGlobal + Asserts + Sync>(
    rt: &R,
    receives: &[ReceiverCall],
    lingers: u64,
) -> bool {
    let much = time_of_hints(rt);
    time_of(rt, receives, lingers) >= much
}

/// Whether a receive that waits long sleeps in one of `TRIES` tries. Fails unless it gets the message in each.
fn sleeps<R: Threads + Wait + Clock + CpuClock + RandomSource + AllocGlobal + Asserts + Sync>(
    rt: &R,
    receives: &str,
) -> bool {
    let calls = script::<ReceiverCall>(rt.alloc(), receives).expect(rt, "a script");
    for _ in 0..TRIES {
        if !spins(rt, &calls, LONG) {
            return true;
        }
    }
    false
}

#[test]
fn a_receive_that_waits_uses_little_processor_time(rt: HostRuntime) {
    for receives in WAITS {
        assert_that!(rt; sleeps(&rt, receives), receives);
    }
}

/// In how many of `SHORT_WAITS` short waits a receive spins. Fails unless it gets the message in each.
fn spinning_waits<
    R: Threads + Wait + Clock + CpuClock + RandomSource + AllocGlobal + Asserts + Sync,
>(rt: &R, receives: &str) -> u32 {
    let calls = script::<ReceiverCall>(rt.alloc(), receives).expect(rt, "a script");
    let mut spinning = 0u32;
    for _ in 0..SHORT_WAITS {
        if spins(rt, &calls, SHORT) {
            spinning = spinning.saturating_add(1);
        }
    }
    spinning
}

#[test]
fn a_receive_spins_little_before_it_sleeps(rt: HostRuntime) {
    assert_spins(&rt);
    // `recv` and `recv_ref` read no clock, so `assert_spins` cannot count their spins.
    for receives in ["recv", "ref try ref"] {
        let spinning = spinning_waits(&rt, receives);
        // Other programs may have disturbed a few of the waits.
        assert_that!(rt; spinning < SHORT_WAITS / 2, (receives, spinning));
    }
}
