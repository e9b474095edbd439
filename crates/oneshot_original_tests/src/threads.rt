//! Both ends of a channel, each on a thread of its own.

use super::ends::{ends, future_ends};
use super::times::{assert_woken_since, now};
use oneshot::{AsyncReceiver, Receiver, Sender};
use oneshot_asserts::{Asserts, assert_that};
use oneshot_calls::{
    Numbered, ReceiverCall, Receiving, Reply, SenderCall, Sending, Tasks, Word, script, shows,
};
use std::hint::spin_loop;
use std::random::RandomSource;
use std::sync::Wait;
use std::sync::atomic::{AtomicU64, Ordering};
use std::thread::{Threads, join, sleep, yield_now};
use std::time::{Clock, Duration};

/// The sender's script, and its message.
#[derive(Drop)]
pub(super) struct Act<T>(pub(super) &'static str, pub(super) T);

/// The receiver's script.
#[derive(Clone, Copy)]
pub(super) enum By {
    /// Of the receiver of `channel`.
    Receiver(&'static str),
    /// Of the future of `async_channel`.
    Future(&'static str),
}

/// How many pairs of threads a test runs, one after the other, and when the sender acts.
#[derive(Clone, Copy)]
pub(super) struct Pace {
    pub(super) rounds: u64,
    /// For how many milliseconds the sender sleeps in each fiftieth round, so that the receiver can go first.
    pub(super) pause: u64,
}

/// How many rounds most tests have. The original's `tests/loom.rs` tries each interleaving.
pub(super) const ROUNDS: u64 = 500;

/// As many rounds, in which the sender never sleeps.
const AT_ONCE: Pace = Pace {
    rounds: ROUNDS,
    pause: 0,
};

/// What the last call of each script returns.
pub(super) type Outcome<T> = (Reply<T>, Reply<T>);

impl Pace {
    /// How long the sender sleeps in this round, counted from 0.
    fn pause_of(self, round: u64) -> Duration {
        if round % 50 == 0 {
            Duration::from_millis(self.pause)
        } else {
            Duration::ZERO
        }
    }
}

// More loads than a thread makes while another starts. They take some ten seconds, since most come after a yield.
const SPINS: u64 = 20_000_000;

// After so many loads a thread yields between two.
const QUICK: u64 = 20_000;

// Returns once both threads are here. Fails after `SPINS` loads.
fn meet(rt: &impl Asserts, here: &AtomicU64) {
    here.fetch_add(1, Ordering::SeqCst);
    for spin in 0..SPINS {
        if here.load(Ordering::SeqCst) == 2 {
            return;
        }
        if spin < QUICK {
            spin_loop();
        } else {
            yield_now();
        }
    }
    panic!(rt; "the other thread does not come");
}

/// Reads a script. Fails if it has a word that is no call.
fn calls_of<C: Word + Drop>(rt: &(impl AllocGlobal + Asserts), text: &str) -> Vec<C> {
    script(rt.alloc(), text).expect(rt, "a script")
}

/// Makes the calls of a sender `pause` after both threads are here. (A sleep of no time would take some 50
/// microseconds.)
fn send<R: Clock + AllocGlobal + Asserts, T: Numbered + Drop>(
    rt: &R,
    here: &AtomicU64,
    pause: Duration,
    sends: &str,
    sending: Sending<T, Sender<T>>,
) -> Reply<T> {
    let sends: Vec<SenderCall> = calls_of(rt, sends);
    meet(rt, here);
    if !pause.is_zero() {
        sleep(rt, pause);
    }
    sending.make_all(&sends)
}

/// Makes the calls of a receiver, or of the future that it is, once both threads are here. Fails if they took longer
/// than any that is woken.
fn receive<R: Wait + Clock + RandomSource + AllocGlobal + Asserts, T: Drop>(
    rt: &R,
    here: &AtomicU64,
    receives: &str,
    receiving: Receiving<T, Receiver<T, &R>>,
) -> Reply<T> {
    let receives: Vec<ReceiverCall> = calls_of(rt, receives);
    let tasks = Tasks::new(rt).expect(rt, "tasks");
    meet(rt, here);
    let start = now(rt);
    let received = receiving.make_all(rt, Some(&tasks), &receives);
    assert_woken_since(rt, start);
    received
}

/// What both ends return. Both threads begin at about the same time, and the sender's then sleeps for `pause`.
fn on_two_threads<
    R: Threads + Wait + Clock + RandomSource + AllocGlobal + Asserts + Sync,
    T: Numbered + Send + Drop,
>(
    rt: &R,
    pause: Duration,
    sends: &str,
    sending: Sending<T, Sender<T>>,
    receives: &str,
    receiving: Receiving<T, Receiver<T, &R>>,
) -> Outcome<T> {
    let here = AtomicU64::new(0);
    join(
        rt,
        || send(rt, &here, pause, sends, sending),
        || receive(rt, &here, receives, receiving),
    )
}

/// What both ends of a channel return, whose receiver makes these calls.
fn outcome_by_receiver<
    'r,
    R: Threads + Wait + Clock + RandomSource + AllocGlobal + Asserts + Sync,
    T: Numbered + Send + Drop,
>(
    rt: &'r R,
    pause: Duration,
    act: Act<T>,
    receives: &str,
    (sender, receiver): (Sender<T>, Receiver<T, &'r R>),
) -> Outcome<T> {
    let Act(sends, message) = act;
    let sending = Sending::new(sender, Some(message));
    let receiving = Receiving::new(receiver);
    on_two_threads(rt, pause, sends, sending, receives, receiving)
}

/// What both ends of a channel return, whose future makes these calls.
pub(super) fn outcome_by_future<
    'r,
    R: Threads + Wait + Clock + RandomSource + AllocGlobal + Asserts + Sync,
    T: Numbered + Send + Drop,
>(
    rt: &'r R,
    pause: Duration,
    act: Act<T>,
    receives: &str,
    (sender, future): (Sender<T>, AsyncReceiver<T, &'r R>),
) -> Outcome<T> {
    let Act(sends, message) = act;
    let sending = Sending::new(sender, Some(message));
    let receiving = Receiving::of_future(future);
    on_two_threads(rt, pause, sends, sending, receives, receiving)
}

/// What both ends of a new channel return, whose receiver is a future if `by` is a future's script.
pub(super) fn outcome_of<
    R: Threads + Wait + Clock + RandomSource + AllocGlobal + Asserts + Sync,
    T: Numbered + Send + Drop,
>(rt: &R, pause: Duration, act: Act<T>, by: By) -> Outcome<T> {
    match by {
        By::Receiver(receives) => outcome_by_receiver(rt, pause, act, receives, ends(rt)),
        By::Future(receives) => outcome_by_future(rt, pause, act, receives, future_ends(rt)),
    }
}

/// Whether the replies are one of the wanted outcomes.
fn is_wanted(sent: &Reply<u64>, received: &Reply<u64>, wanted: &[(&str, &str)]) -> bool {
    for (one, other) in wanted {
        if shows(sent, one) && shows(received, other) {
            return true;
        }
    }
    false
}

/// Fails unless the replies are one of the wanted outcomes.
fn assert_wanted(
    rt: &impl Asserts,
    calls: &str,
    sent: &Reply<u64>,
    received: &Reply<u64>,
    wanted: &[(&str, &str)],
) {
    let is_so = is_wanted(sent, received, wanted);
    assert_that!(rt; is_so, (calls, sent, received));
}

/// Fails unless each round has one of the wanted outcomes, of which each is two texts.
pub(super) fn assert_outcomes<
    R: Threads + Wait + Clock + RandomSource + AllocGlobal + Asserts + Sync,
    T: Copy + Numbered + Send,
>(rt: &R, pace: Pace, act: Act<T>, by: By, wanted: &[(&str, &str)]) {
    let (By::Receiver(calls) | By::Future(calls)) = by;
    let Act(sends, message) = act;
    for round in 0..pace.rounds {
        let act = Act(sends, message);
        let (sent, received) = outcome_of(rt, pace.pause_of(round), act, by);
        assert_wanted(rt, calls, &sent.numbered(), &received.numbered(), wanted);
    }
}

/// Fails unless each round of `AT_ONCE` has one of the wanted outcomes.
pub(super) fn assert_raced<
    R: Threads + Wait + Clock + RandomSource + AllocGlobal + Asserts + Sync,
    T: Copy + Numbered + Send,
>(rt: &R, act: Act<T>, by: By, wanted: &[(&str, &str)]) {
    assert_outcomes(rt, AT_ONCE, act, by, wanted);
}

#[test]
#[should_panic(expected = "(\"recv\", Ok, Ok(1))")]
fn an_outcome_that_is_not_wanted_ends_a_test(rt: HostRuntime) {
    let act = Act("send into", 1u64);
    assert_raced(&rt, act, By::Receiver("recv"), &[]);
}
