//! Receives by clocks that return written readings, count them, or have the sender act at one.

use super::open;
use oneshot_asserts::{Asserts, assert_same};
use oneshot_calls::{SenderCall, Sending};
use oneshot_channel::{Receiver, RecvError, RecvTimeoutError, Sender};
use std::alloc::AllocGlobal;
use std::cell::Cell;
use std::io;
use std::sync::Wait;
use std::time::{Clock, Duration, Instant};

/// A runtime whose clock reads the given nanoseconds, one after the other, and then fails. It counts its readings.
#[derive(Drop)]
pub(crate) struct Written<'a, R> {
    rt: &'a R,
    readings: Cell<&'a [u64]>,
    made: Cell<usize>,
}

impl<'a, R> Written<'a, R> {
    pub(crate) fn new(rt: &'a R, readings: &'a [u64]) -> Written<'a, R> {
        Written {
            rt,
            readings: Cell::new(readings),
            made: Cell::new(0),
        }
    }

    /// How many readings were made, with those that failed.
    pub(crate) fn made(&self) -> usize {
        self.made.get()
    }
}

impl<'a, R: Wait> Wait for Written<'a, R> {}

impl<'a, R> Clock for Written<'a, R> {
    fn monotonic(&self) -> io::Result<Duration> {
        self.made.set(self.made.get().saturating_add(1));
        let Some((first, rest)) = self.readings.get().split_first() else {
            return Err(io::ErrorKind::Unsupported.into());
        };
        self.readings.set(rest);
        Ok(Duration::from_nanos(*first))
    }

    fn since_1970(&self) -> io::Result<Duration> {
        self.monotonic()
    }
}

/// The instant that many nanoseconds after a clock's start.
pub(crate) fn instant_at(rt: &(impl Wait + Asserts), nanos: u64) -> Instant {
    Instant::now(&Written::new(rt, &[nanos])).expect(rt, "a written clock")
}

/// A second, in nanoseconds.
const SECOND: u64 = 1_000_000_000;

/// An hour, in nanoseconds.
const HOUR: u64 = 3_600 * SECOND;

/// A month of thirty days, in nanoseconds.
const MONTH: u64 = 720 * HOUR;

/// A hundred years, in nanoseconds.
const CENTURY: u64 = 876_600 * HOUR;

/// A deadline in nanoseconds after a clock's start, the clock's readings, and how many a receive until then makes.
/// A receive waits in rounds, and begins each with a reading.
pub(crate) const DEADLINES: [(u64, &[u64], usize); 10] = [
    // The round and its park read the deadline itself, and the next round a nanosecond past it.
    (5, &[5, 5, 6, 7], 3),
    (SECOND, &[SECOND, SECOND, SECOND + 1, 0], 3),
    (2 * HOUR, &[2 * HOUR, 2 * HOUR, 2 * HOUR + 1, 0], 3),
    (MONTH, &[MONTH, MONTH, MONTH + 1, 0], 3),
    (CENTURY, &[CENTURY, CENTURY, CENTURY + 1, 0], 3),
    // A round reads the clock to see whether the deadline is past, and its park reads until it has come. This
    // clock goes back after each park: without a park, the next round would find the deadline past.
    (5, &[1, 7, 2, 7, 3, 7, 6, 8], 7),
    // The deadline is past at once.
    (5, &[6, 7], 1),
    // The clock fails at once, in the park and after it, or after the park.
    (5, &[], 1),
    (5, &[1], 3),
    (5, &[5, 5], 3),
];

#[test]
fn a_deadline_ends_a_receive_once_the_clock_is_past_it(rt: HostRuntime) {
    for (deadline, written, made) in DEADLINES {
        assert_times_out(&rt, Limit::Deadline, deadline, written, made);
    }
}

/// A timeout in nanoseconds, a clock's readings, and how many a receive with this timeout makes. The first is for the
/// deadline, and each round reads the clock anew.
pub(crate) const TIMEOUTS: [(u64, &[u64], usize); 13] = [
    // The deadline is six. Six is not past it, even after the park; seven is, and eight is not read.
    (5, &[1, 7, 8], 2),
    (5, &[1, 6, 6, 7, 8], 4),
    // The same holds for longer timeouts.
    (SECOND, &[1, SECOND + 1, SECOND + 1, SECOND + 2, 0], 4),
    (
        2 * HOUR,
        &[1, 2 * HOUR + 1, 2 * HOUR + 1, 2 * HOUR + 2, 0],
        4,
    ),
    (MONTH, &[1, MONTH + 1, MONTH + 1, MONTH + 2, 0], 4),
    (CENTURY, &[1, CENTURY + 1, CENTURY + 1, CENTURY + 2, 0], 4),
    // A failed reading counts as past it, and is not repeated: at the deadline's own reading, and in a round.
    (5, &[], 2),
    (5, &[1], 2),
    // A timeout of zero is over once the clock is past its first reading, and only then.
    (0, &[5, 6, 7], 2),
    (0, &[5, 5, 5, 6, 7], 4),
    (0, &[], 2),
    // A round an hour later goes on, and one after two hours ends. The round between them spins.
    (2 * HOUR, &[1, HOUR + 2, 2 * HOUR + 2, 0], 3),
    (2 * HOUR, &[1, 2 * HOUR + 2, 0], 2),
];

#[test]
fn a_timeout_counts_from_one_reading(rt: HostRuntime) {
    for (timeout, written, made) in TIMEOUTS {
        assert_times_out(&rt, Limit::Timeout, timeout, written, made);
    }
}

/// How often a receive spins before it sleeps.
const SPINS: usize = 17;

/// More readings than a receive makes that times out after `SPINS` rounds that spin and one that sleeps.
const MOST: usize = SPINS + 5;

/// A clock's readings: a nanosecond so many times, and then two seconds.
fn still_for(times: usize) -> [u64; MOST] {
    let mut readings = [2 * SECOND; MOST];
    for reading in readings.iter_mut().take(times) {
        *reading = 1;
    }
    readings
}

/// A receive with a deadline.
#[derive(Clone, Copy, Debug, PartialEq)]
enum Limit {
    /// `recv_timeout`, which also reads the clock for its deadline.
    Timeout,
    /// `recv_deadline`.
    Deadline,
}

impl Limit {
    /// What a receive by this clock returns, and how many readings the clock has then made. A timeout is so many
    /// nanoseconds, and a deadline as far from the clock's start.
    fn receive(
        self,
        rt: &(impl Wait + AllocGlobal + Asserts),
        clock: &Written<'_, impl Wait>,
        nanos: u64,
    ) -> (Result<u8, RecvTimeoutError>, usize) {
        let (_sender, mut receiver) = open(rt, clock);
        let received = match self {
            Limit::Timeout => receiver.recv_timeout(Duration::from_nanos(nanos)),
            Limit::Deadline => receiver.recv_deadline(instant_at(rt, nanos)),
        };
        (received, clock.made())
    }

    /// How many readings a receive makes after the one for its deadline. By this clock the deadline is a second away in
    /// `rounds` rounds, and past in the next. Fails unless the receive times out.
    fn readings(self, rt: &(impl Wait + AllocGlobal + Asserts), rounds: usize) -> usize {
        // A receive with a timeout makes one reading for its deadline.
        let first = match self {
            Limit::Timeout => 1,
            Limit::Deadline => 0,
        };
        let readings = still_for(rounds.saturating_add(first));
        let clock = Written::new(rt, &readings);
        let (received, _) = self.receive(rt, &clock, SECOND);
        assert_same!(rt;
            (self, rounds, received),
            (self, rounds, Err(RecvTimeoutError::Timeout))
        );
        clock.made().saturating_sub(first)
    }
}

/// Fails unless a receive with this limit times out after `wanted` readings, with those that fail since none is
/// written.
fn assert_times_out(
    rt: &(impl Wait + AllocGlobal + Asserts),
    limit: Limit,
    nanos: u64,
    written: &[u64],
    wanted: usize,
) {
    let (received, made) = limit.receive(rt, &Written::new(rt, written), nanos);
    assert_same!(rt;
        (limit, nanos, written, received, made),
        (limit, nanos, written, Err(RecvTimeoutError::Timeout), wanted)
    );
}

/// Fails unless a receive whose deadline is far in `rounds` rounds makes `wanted` readings after the one for its
/// deadline.
fn assert_readings(
    rt: &(impl Wait + AllocGlobal + Asserts),
    limit: Limit,
    rounds: usize,
    wanted: usize,
) {
    let made = limit.readings(rt, rounds);
    assert_same!(rt; (limit, rounds, made), (limit, rounds, wanted));
}

#[test]
#[should_panic(expected = "right: (Deadline, 0, 2)")]
fn another_count_of_readings_ends_a_test(rt: HostRuntime) {
    assert_readings(&rt, Limit::Deadline, 0, 2);
}

/// Fails unless a receive with a far deadline spins seventeen times and then sleeps. A round that spins reads the clock
/// once, and one that sleeps also reads it in its sleep. The last round finds the deadline past.
pub(super) fn assert_spins(rt: &(impl Wait + AllocGlobal + Asserts)) {
    for limit in [Limit::Timeout, Limit::Deadline] {
        for rounds in 0..=SPINS {
            assert_readings(rt, limit, rounds, rounds.saturating_add(1));
        }
        assert_readings(rt, limit, SPINS + 1, SPINS + 3);
    }
}

/// The least time left before its deadline, in nanoseconds, with which a receive spins.
const FAR: u64 = 100_000_000;

#[test]
fn a_receive_spins_only_with_a_far_deadline(rt: HostRuntime) {
    // The first round spins or sleeps, and the second finds the deadline past.
    for (timeout, made) in [(FAR, 3), (FAR - 1, 4)] {
        let written = [1, 1, 2 * FAR, 2 * FAR];
        assert_times_out(&rt, Limit::Timeout, timeout, &written, made);
    }
}

#[test]
fn a_clock_that_fails_hides_no_message(rt: HostRuntime) {
    let clock = Written::new(&rt, &[]);
    let (sender, mut receiver) = open(&rt, &clock);
    let is_sent = sender.send(19u8).is_ok();
    let limit = Duration::from_nanos(5);
    let received = (receiver.recv_timeout(limit), receiver.recv_timeout(limit));
    assert_same!(rt;
        (is_sent, received),
        (true, (Ok(19), Err(RecvTimeoutError::Disconnected)))
    );
}

/// Fails unless `recv_ref` receives 19, closes the receiver and then receives nothing.
fn assert_is_received_once(
    rt: &impl Asserts,
    receiver: &mut Receiver<u8, &Written<'_, impl Wait>>,
) {
    assert_same!(rt; (receiver.recv_ref(), receiver.is_closed()), (Ok(19), true));
    assert_same!(rt; receiver.recv_ref(), Err(RecvError));
}

#[test]
fn a_receive_without_a_deadline_reads_no_clock(rt: HostRuntime) {
    let clock = Written::new(&rt, &[]);
    let (sender, mut receiver) = open(&rt, &clock);
    assert!(rt; sender.send(19u8).is_ok());
    assert_is_received_once(&rt, &mut receiver);
    let received = receiver.recv();
    assert_same!(rt; (received, clock.made()), (Err(RecvError), 0));
}

/// A runtime that counts the readings of its clock.
#[derive(Drop)]
struct Counting<'a, R> {
    rt: &'a R,
    readings: Cell<u64>,
}

impl<'a, R> Counting<'a, R> {
    fn new(rt: &'a R) -> Counting<'a, R> {
        Counting {
            rt,
            readings: Cell::new(0),
        }
    }
}

impl<'a, R: Wait> Wait for Counting<'a, R> {}

impl<'a, R: Clock> Clock for Counting<'a, R> {
    fn monotonic(&self) -> io::Result<Duration> {
        self.readings.set(self.readings.get().saturating_add(1));
        self.rt.monotonic()
    }

    fn since_1970(&self) -> io::Result<Duration> {
        self.rt.since_1970()
    }
}

/// The instant 20 milliseconds after now.
fn soon(rt: &(impl Clock + Asserts)) -> Instant {
    let now = Instant::now(rt).expect(rt, "a clock");
    let soon = now.checked_add(Duration::from_millis(20));
    soon.expect(rt, "an instant can hold it")
}

// A busy wait would read the clock some ten thousand times in this time.
#[test]
fn a_receive_that_waits_reads_the_clock_few_times(rt: HostRuntime) {
    let counting = Counting::new(&rt);
    let (_sender, mut receiver) = open::<u8, _>(&rt, &counting);
    let by_timeout = receiver.recv_timeout(Duration::from_millis(20));
    let few_by_timeout = counting.readings.get() < 100;
    let by_deadline = receiver.recv_deadline(soon(&rt));
    let few_by_both = counting.readings.get() < 200;
    assert_same!(rt;
        (by_timeout, few_by_timeout, by_deadline, few_by_both),
        (
            Err(RecvTimeoutError::Timeout),
            true,
            Err(RecvTimeoutError::Timeout),
            true
        )
    );
}

/// More readings than a receive with a far deadline makes: one for the deadline, one before each of its
/// seventeen spins, and a few before its sleep, in it and after it.
const READINGS: u64 = 40;

/// More readings than a receive makes that does not spin.
const SPINLESS: u64 = 10;

// A receive reads its clock before each spin, so more spins show as more readings.
#[test]
fn a_receive_spins_few_times_before_it_sleeps(rt: HostRuntime) {
    let counting = Counting::new(&rt);
    let (_sender, mut receiver) = open::<u8, _>(&rt, &counting);
    let far = receiver.recv_timeout(Duration::from_millis(150));
    let spins_few_times = counting.readings.replace(0) < READINGS;
    // With less than a tenth of a second left it does not spin: it reads the clock for the deadline, before its
    // sleep, twice in it, and after it.
    let near = receiver.recv_timeout(Duration::from_millis(5));
    let does_not_spin = counting.readings.get() < SPINLESS;
    assert_same!(rt;
        (far, spins_few_times, near, does_not_spin),
        (
            Err(RecvTimeoutError::Timeout),
            true,
            Err(RecvTimeoutError::Timeout),
            true
        )
    );
}

/// A runtime whose clock always reads an hour. At its next reading the sender makes its call.
#[derive(Drop)]
struct Meanwhile<'a, R> {
    rt: &'a R,
    call: SenderCall,
    sending: Cell<Option<Sending<u64, Sender<u64>>>>,
}

impl<'a, R> Meanwhile<'a, R> {
    fn new(rt: &'a R, call: SenderCall) -> Meanwhile<'a, R> {
        Meanwhile {
            rt,
            call,
            sending: Cell::new(None),
        }
    }
}

impl<'a, R: Wait> Wait for Meanwhile<'a, R> {}

impl<'a, R> Clock for Meanwhile<'a, R> {
    fn monotonic(&self) -> io::Result<Duration> {
        if let Some(mut sending) = self.sending.take() {
            // A refused send shows in what the receive returns.
            let _ = sending.make(self.call);
        }
        Ok(Duration::from_secs(3_600))
    }

    fn since_1970(&self) -> io::Result<Duration> {
        self.monotonic()
    }
}

/// What a receive returns at whose deadline the sender makes this call, and whether the receiver is then closed. The
/// message is 19.
fn received_beside(
    rt: &(impl Wait + AllocGlobal + Asserts),
    call: SenderCall,
) -> (Result<u64, RecvTimeoutError>, bool) {
    let clock = Meanwhile::new(rt, call);
    let (sender, mut receiver) = open(rt, &clock);
    clock.sending.set(Some(Sending::new(sender, Some(19))));
    let received = receiver.recv_deadline(instant_at(rt, 5));
    (received, receiver.is_closed())
}

// The receiver finds what the sender left when it swaps the word to end its wait.
#[test]
fn a_message_that_comes_at_the_deadline_is_found(rt: HostRuntime) {
    let found = received_beside(&rt, SenderCall::Send);
    assert_same!(rt; found, (Ok(19), true));
}

#[test]
fn a_drop_at_the_deadline_is_found(rt: HostRuntime) {
    let found = received_beside(&rt, SenderCall::Drop);
    assert_same!(rt; found, (Err(RecvTimeoutError::Disconnected), true));
}
