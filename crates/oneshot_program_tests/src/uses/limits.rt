//! Tests that each wait lasts as long as its limit, by a clock that returns written readings.

use super::ask;
use oneshot::channel;
use oneshot::reply::request;
use oneshot_asserts::assert_same;
use oneshot_patterns::pool::{pooled, total};
use oneshot_patterns::request::Unanswered;
use oneshot_patterns::tickets::{asked, square_within};
use std::io;
use std::sync::Wait;
use std::sync::atomic::{AtomicUsize, Ordering};
use std::thread::Threads;
use std::time::{Clock, Duration};

/// How long each wait lasts, in nanoseconds: two hours.
const LIMIT: u64 = 7_200_000_000_000;

/// When the second wait begins, in nanoseconds.
const SECOND_START: u64 = LIMIT + 6;

/// What the clock reads, in nanoseconds, in each of two waits: once for its deadline, twice the deadline itself, which
/// is not past it, and then a nanosecond more.
const READINGS: [u64; 8] = [
    1,
    LIMIT + 1,
    LIMIT + 1,
    LIMIT + 2,
    SECOND_START,
    SECOND_START + LIMIT,
    SECOND_START + LIMIT,
    SECOND_START + LIMIT + 1,
];

/// How many readings a wait makes.
const A_WAIT: usize = 4;

/// A runtime whose clock reads these, one after the other, and then fails.
#[derive(Drop)]
struct Written<'a, R> {
    rt: &'a R,
    made: AtomicUsize,
}

impl<'a, R> Written<'a, R> {
    fn new(rt: &'a R) -> Written<'a, R> {
        Written {
            rt,
            made: AtomicUsize::new(0),
        }
    }

    fn made(&self) -> usize {
        self.made.load(Ordering::SeqCst)
    }
}

impl<'a, R: Wait> Wait for Written<'a, R> {}

impl<'a, R: Threads> Threads for Written<'a, R> {}

impl<'a, R> Clock for Written<'a, R> {
    fn monotonic(&self) -> io::Result<Duration> {
        let number = self.made.fetch_add(1, Ordering::SeqCst);
        match READINGS.get(number) {
            Some(reading) => Ok(Duration::from_nanos(*reading)),
            None => Err(io::ErrorKind::Unsupported.into()),
        }
    }

    fn since_1970(&self) -> io::Result<Duration> {
        self.monotonic()
    }
}

fn limit() -> Duration {
    Duration::from_nanos(LIMIT)
}

#[test]
fn a_wait_for_a_reply_lasts_to_its_limit(rt: HostRuntime) {
    let clock = Written::new(&rt);
    let (_request, asked) = ask(&rt, &clock, 3);
    let late = asked.wait_within(limit()).square;
    assert_same!(rt; (late, clock.made()), (Err(Unanswered::Late), A_WAIT));
}

#[test]
fn a_wait_for_a_square_lasts_to_its_limit(rt: HostRuntime) {
    let clock = Written::new(&rt);
    let (_request, mut ticket) = request(&clock, rt.alloc(), 3).expect(&rt, "memory");
    let late = square_within(&mut ticket, limit());
    assert_same!(rt; (late, clock.made()), (Err(Unanswered::Late), A_WAIT));
}

#[test]
fn a_wait_for_a_report_lasts_to_its_limit(rt: HostRuntime) {
    let clock = Written::new(&rt);
    let (_report, reported) = channel(&clock, rt.alloc()).expect(&rt, "memory");
    let mut reports = Vec::new(rt.alloc());
    reports.push(reported).expect(&rt, "memory");
    assert_same!(rt; (total(reports, limit()), clock.made()), (None, A_WAIT));
}

#[test]
fn each_wait_for_a_worker_lasts_to_its_limit(rt: HostRuntime) {
    let clock = Written::new(&rt);
    let done = pooled(&clock, rt.alloc(), 0, &[3, 5], limit()).expect(&rt, "memory");
    assert_same!(rt; (done.answers.len(), clock.made()), (2, 2 * A_WAIT));
}

#[test]
fn each_wait_for_a_worker_by_a_ticket_lasts_to_its_limit(rt: HostRuntime) {
    let clock = Written::new(&rt);
    let answers = asked(&clock, rt.alloc(), 0, &[3, 5], limit()).expect(&rt, "memory");
    assert_same!(rt; (answers.len(), clock.made()), (2, 2 * A_WAIT));
}
