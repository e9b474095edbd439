//! Deadlines that pass during the sender's send or drop. If a wakeup were lost, or the receive parked once more than it
//! is woken, this test would not end.

use super::beside::{Before, Calls, assert_receives};
use oneshot_asserts::Asserts;
use oneshot_calls::{Ask, ReceiverCall, SenderCall};
use std::random::RandomSource;
use std::sync::Wait;
use std::thread::Threads;
use std::time::{Clock, CpuClock, Duration, Instant};

const ROUNDS: u64 = 20_000;

/// The fewest rounds of each act. If a busy machine is too slow for them, the test exceeds its time limit.
const FEWEST_ROUNDS: u64 = 1_000;

/// For how many seconds each act is made in more than the fewest rounds.
const SECONDS: u64 = 10;

const SENDS: &[SenderCall] = &[SenderCall::Closed, SenderCall::Send];

const DROPS: &[SenderCall] = &[SenderCall::Drop];

/// Whether an act's time is over, and the fewest rounds are made.
fn is_enough(rt: &(impl Clock + Asserts), first: Instant, round: u64) -> bool {
    let passed = first.elapsed(rt).expect(rt, "a clock");
    passed > Duration::from_secs(SECONDS) && round >= FEWEST_ROUNDS
}

/// The receive of a round, with a limit of up to six microseconds.
fn timed(round: u64) -> ReceiverCall {
    let limit = Duration::from_micros(round % 7);
    ReceiverCall::Ask(if round % 2 == 0 {
        Ask::Deadline(limit)
    } else {
        Ask::Timeout(limit)
    })
}

/// Makes an act, after up to 399 loads, beside a timed receive.
fn assert_round<R: Threads + Wait + Clock + CpuClock + RandomSource + AllocGlobal + Asserts + Sync>(
    rt: &R,
    sends: &[SenderCall],
    round: u64,
) {
    let calls = Calls {
        sends,
        receives: &[timed(round), ReceiverCall::Recv],
    };
    assert_receives(rt, calls, Before::Load(round % 400));
}

#[test]
#[should_panic(expected = "sends: [], receives: [Ask(")]
fn a_round_without_an_act_ends_a_test(rt: HostRuntime) {
    assert_round(&rt, &[], 0);
}

#[test]
fn an_act_at_the_deadline_ends_the_receive(rt: HostRuntime) {
    for sends in [SENDS, DROPS] {
        let first = Instant::now(&rt).expect(&rt, "a clock");
        for round in 0..ROUNDS {
            if is_enough(&rt, first, round) {
                break;
            }
            assert_round(&rt, sends, round);
        }
    }
}
