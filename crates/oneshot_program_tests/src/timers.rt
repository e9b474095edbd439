//! Tests of waits under tokio's timers: their limits, the timers' period, and a report that never comes.

use futures::task::{Doorbell, Poll, Solo};
use futures::test::MockTask;
use oneshot::reply::Asked;
use oneshot::{Receiver, RecvTimeoutError, Sender, async_channel, channel};
use oneshot_asserts::{Asserts, assert_same, assert_that};
use oneshot_tokio::asking::Round;
use oneshot_tokio::client::{Client, Pending};
use oneshot_tokio::pool::keep_time;
use oneshot_tokio::server::{Job, Service};
use oneshot_tokio::square::Square;
use oneshot_tokio::within::{Within, recv_within};
use std::cell::Cell;
use std::io;
use std::random::RandomSource;
use std::sync::Wait;
use std::time::{Clock, Duration, Instant};
use tokio::sync::mpsc::{UnboundedSender, unbounded_channel};
use tokio::time::{Driver, Handle, Sleep};

/// A limit that no test waits for: the tests turn the timers by hand.
fn limit() -> Duration {
    Duration::from_secs(100)
}

fn now(rt: &(impl Asserts + Clock)) -> Instant {
    Instant::now(rt).expect(rt, "a clock")
}

/// A task that a test polls by hand, and timers that it turns by hand.
#[derive(Drop)]
struct ByHand {
    task: MockTask,
    timers: Driver,
    start: Instant,
}

impl ByHand {
    /// Makes timers that begin now.
    fn new(rt: &(impl Asserts + Clock + RandomSource + AllocGlobal)) -> ByHand {
        let task = MockTask::new(rt).expect(rt, "a task");
        let start = now(rt);
        let timers = Driver::new(rt.alloc(), start).expect(rt, "memory");
        ByHand {
            task,
            timers,
            start,
        }
    }

    /// A turn a second before the limit of a wait is over, counted from before the wait began.
    fn turn_before_limit(&mut self, rt: &impl Asserts) {
        let turned = later(rt, self.start, Duration::from_secs(99));
        turn(&self.task, &mut self.timers, turned);
    }

    /// A turn a second after the limit of a wait is over, counted from after the wait began.
    fn turn_after_limit(&mut self, rt: &(impl Asserts + Clock)) {
        let turned = later(rt, now(rt), Duration::from_secs(101));
        turn(&self.task, &mut self.timers, turned);
    }
}

/// The instant that is so long after `start`.
fn later(rt: &impl Asserts, start: Instant, time: Duration) -> Instant {
    start.checked_add(time).expect(rt, "an instant can hold it")
}

/// One turn of the timers.
fn turn(task: &MockTask, timers: &mut Driver, now: Instant) {
    let _next = task.enter(|cx| timers.turn(cx, now));
}

/// The sender of a message, and a future that waits for it to the limit.
fn wait_within<R>(rt: &R, time: &Handle) -> (Sender<u8>, Within<u8, (), ()>)
where
    R: Asserts + Clock + AllocGlobal,
{
    let (sender, receiver) = async_channel((), rt.alloc()).expect(rt, "memory");
    let within = recv_within(rt, time, limit(), receiver).expect(rt, "a timer");
    (sender, within)
}

#[test]
fn a_wait_lasts_to_its_limit(rt: HostRuntime) {
    let mut hand = ByHand::new(&rt);
    let (_sender, mut within) = wait_within(&rt, hand.timers.handle());
    let at_once = hand.task.poll(&mut within);
    hand.turn_before_limit(&rt);
    let before_limit = hand.task.poll(&mut within);
    hand.turn_after_limit(&rt);
    let after_limit = hand.task.poll(&mut within);
    let over = Poll::Ready(Err(RecvTimeoutError::Timeout));
    assert_same!(rt;
        (at_once, before_limit, after_limit),
        (Poll::Pending, Poll::Pending, over)
    );
}

/// What a client awaits: a reply, and a report.
#[derive(Drop)]
struct Awaited {
    square: Within<Square, (), Asked<u32>>,
    report: Within<Service, (), ()>,
}

impl Awaited {
    /// Has a client put two requests into the queue, the second of which it gives up.
    fn new<R>(rt: &R, time: &Handle, jobs: &UnboundedSender<Job>) -> Awaited
    where
        R: Asserts + Clock + AllocGlobal,
    {
        let client = Client {
            rt,
            time,
            jobs,
            limit: limit(),
        };
        let Pending { root: _, square } = client.ask(3).expect(rt, "a request");
        let report = client.give_up(5).expect(rt, "a request");
        Awaited { square, report }
    }

    /// Polls for the reply, and for the report.
    fn polled(&mut self, task: &MockTask) -> (&'static str, &'static str) {
        (
            told(task.poll(&mut self.square)),
            told(task.poll(&mut self.report)),
        )
    }
}

/// What a poll returned, in a word.
fn told<T: Drop>(polled: Poll<Result<T, RecvTimeoutError>>) -> &'static str {
    match polled {
        Poll::Pending => "pending",
        Poll::Ready(Err(RecvTimeoutError::Timeout)) => "over",
        Poll::Ready(_) => "ready",
    }
}

#[test]
fn a_client_awaits_replies_and_reports_to_its_limit(rt: HostRuntime) {
    let mut hand = ByHand::new(&rt);
    let (queue, _jobs) = unbounded_channel(rt.alloc()).expect(&rt, "memory");
    let mut awaited = Awaited::new(&rt, hand.timers.handle(), &queue);
    let at_once = awaited.polled(&hand.task);
    hand.turn_before_limit(&rt);
    let before_limit = awaited.polled(&hand.task);
    hand.turn_after_limit(&rt);
    let after_limit = awaited.polled(&hand.task);
    let replied = (at_once.0, before_limit.0, after_limit.0);
    assert_same!(rt; ("reply", replied), ("reply", ("pending", "pending", "over")));
    let reported = (at_once.1, before_limit.1, after_limit.1);
    assert_same!(rt; ("report", reported), ("report", ("pending", "pending", "over")));
}

/// A runtime whose clock reads these nanoseconds, one after the other, and then fails. At each reading it looks whether
/// a task was woken.
#[derive(Drop)]
struct Written<'a, R> {
    rt: &'a R,
    readings: Cell<&'a [u64]>,
    task: &'a MockTask,
    saw_it_woken: Cell<bool>,
}

impl<'a, R> Written<'a, R> {
    fn new(rt: &'a R, readings: &'a [u64], task: &'a MockTask) -> Written<'a, R> {
        Written {
            rt,
            readings: Cell::new(readings),
            task,
            saw_it_woken: Cell::new(false),
        }
    }
}

impl<'a, R: Wait> Wait for Written<'a, R> {}

impl<'a, R> Clock for Written<'a, R> {
    fn monotonic(&self) -> io::Result<Duration> {
        if self.task.is_woken() {
            self.saw_it_woken.set(true);
        }
        let Some((first, rest)) = self.readings.get().split_first() else {
            return Err(io::ErrorKind::Unsupported.into());
        };
        self.readings.set(rest);
        Ok(Duration::from_nanos(*first))
    }

    fn since_1970(&self) -> io::Result<Duration> {
        self.monotonic()
    }
}

/// A millisecond, in nanoseconds.
const MILLISECOND: u64 = 1_000_000;

/// A turn at zero; a wait that begins at zero, is not over at its millisecond, nor after its park, and is over a
/// nanosecond later; and a turn after two.
const TWO_TURNS: [u64; 6] = [
    0,
    0,
    MILLISECOND,
    MILLISECOND,
    MILLISECOND + 1,
    2 * MILLISECOND,
];

// A longer wait would take the last reading, and the clock would fail before the second turn. A shorter one would have
// its second turn at the millisecond, at which no timer is due, and the clock would fail before a third. Once the clock
// has failed, each timer fails, which wakes the task too, but no reading sees that.
#[test]
fn timers_fire_each_millisecond(rt: HostRuntime) {
    let task = MockTask::new(&rt).expect(&rt, "a task");
    let clock = Written::new(&rt, &TWO_TURNS, &task);
    let (timers, zero) = timers_at_zero(&rt, &task);
    let mut sleep = sleep_of_two(&rt, timers.handle(), zero);
    let is_pending = task.poll(&mut sleep).is_pending();
    let (_stop, stopped) = channel(&clock, rt.alloc()).expect(&rt, "memory");
    let clock_failed = !keeps_time(&clock, timers, stopped);
    assert_same!(rt;
        (is_pending, clock_failed, clock.saw_it_woken.get()),
        (true, true, true)
    );
}

/// Timers that begin when a clock reads zero, and that instant.
fn timers_at_zero<R>(rt: &R, task: &MockTask) -> (Driver, Instant)
where
    R: Asserts + AllocGlobal,
{
    let zero = Instant::now(&Written::new(rt, &[0], task)).expect(rt, "a reading");
    (Driver::new(rt.alloc(), zero).expect(rt, "memory"), zero)
}

/// A sleep of two milliseconds.
fn sleep_of_two(rt: &impl Asserts, time: &Handle, start: Instant) -> Sleep {
    let due = later(rt, start, Duration::from_millis(2));
    time.sleep_until(due).expect(rt, "memory")
}

/// Keeps the time by a written clock until `stopped` is told. `false`: the clock failed.
fn keeps_time<'a, R>(
    clock: &Written<'a, R>,
    timers: Driver,
    stopped: Receiver<(), &Written<'a, R>>,
) -> bool
where
    R: Asserts + Wait + RandomSource + AllocGlobal,
{
    let own = Solo::new(clock.rt, Doorbell::parking()).expect(clock.rt, "a task");
    keep_time(clock, timers, own, stopped).is_ok()
}

// The clock would fail in a second turn.
#[test]
fn timers_end_if_nobody_is_left_to_stop_them(rt: HostRuntime) {
    let task = MockTask::new(&rt).expect(&rt, "a task");
    let clock = Written::new(&rt, &[0, 0], &task);
    let (timers, _) = timers_at_zero(&rt, &task);
    let (stop, stopped) = channel(&clock, rt.alloc()).expect(&rt, "memory");
    drop(stop);
    assert_that!(rt; keeps_time(&clock, timers, stopped), "they end with the first turn");
}

/// The future, with a limit, of a report that never comes.
fn lost_report<R>(rt: &R, time: &Handle) -> Within<Service, (), ()>
where
    R: Asserts + Clock + AllocGlobal,
{
    let (report, reported) = async_channel((), rt.alloc()).expect(rt, "memory");
    drop(report);
    recv_within(rt, time, limit(), reported).expect(rt, "a timer")
}

#[test]
fn where_no_report_comes_nobody_was_given_up(rt: HostRuntime) {
    let timers = Driver::new(rt.alloc(), now(&rt)).expect(&rt, "memory");
    let given_up = lost_report(&rt, timers.handle());
    let (stop, mut stopped) = async_channel((), rt.alloc()).expect(&rt, "memory");
    let round = Round {
        all: Vec::new(rt.alloc()),
        given_up,
        stop,
    };
    let (replies, given_up) = round.finish(&rt).expect(&rt, "an executor");
    let stop_sent = stopped.try_recv();
    assert_same!(rt;
        (replies.is_empty(), given_up, stop_sent),
        (true, None, Ok(()))
    );
}
