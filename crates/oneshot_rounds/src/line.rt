//! A line at which two threads meet before each round.

use super::draws::Draws;
use super::waits::{LINE_LOOKS, assert_woken, now, pass_time_at_line};
use oneshot_asserts::Asserts;
use std::sync::atomic::{AtomicU64, Ordering};
use std::thread::sleep;
use std::time::{Clock, Duration, Instant};

/// How far a thread is.
#[derive(Drop)]
struct Progress {
    // The last line that it reached, and the last round that it ended.
    arrived: AtomicU64,
    ended: AtomicU64,
}

impl Progress {
    fn new() -> Progress {
        Progress {
            arrived: AtomicU64::new(0),
            ended: AtomicU64::new(0),
        }
    }
}

/// Where two threads meet.
#[derive(Drop)]
pub(super) struct Line {
    one: Progress,
    other: Progress,
}

impl Line {
    pub(super) fn new() -> Line {
        Line {
            one: Progress::new(),
            other: Progress::new(),
        }
    }

    /// Returns both sides of the line, one for each thread.
    pub(super) fn sides(&self) -> (Side<'_>, Side<'_>) {
        let one = Side {
            here: &self.one,
            there: &self.other,
            draws: Draws::new(1),
            round: 0,
        };
        let other = Side {
            here: &self.other,
            there: &self.one,
            draws: Draws::new(2),
            round: 0,
        };
        (one, other)
    }
}

/// A thread's side of the line.
#[derive(Drop)]
pub(super) struct Side<'a> {
    here: &'a Progress,
    there: &'a Progress,
    draws: Draws,
    // The last round that it began, counted from 1.
    round: u64,
}

impl Side<'_> {
    /// Begins the next round: waits until both threads are at its lines, and then for a drawn pause. Returns whether
    /// the other thread's call is over already.
    pub(super) fn start(&mut self, rt: &(impl Asserts + Clock)) -> bool {
        self.round = self.round.saturating_add(1);
        // A thread that shares a processor with the other may wake on another processor.
        if self.draws.next() % 64 == 0 {
            sleep(rt, Duration::from_micros(100));
        }
        // Whoever waits at the first line may be asleep there; at the second both are awake.
        let line = self.round.saturating_mul(2);
        self.meet(rt, line.saturating_sub(1));
        self.meet(rt, line);
        self.draws.pause();
        self.there.ended.load(Ordering::SeqCst) >= self.round
    }

    /// Waits until both threads are at this line, of which each round has two.
    pub(super) fn meet(&self, rt: &(impl Asserts + Clock), line: u64) {
        self.here.arrived.store(line, Ordering::SeqCst);
        for looks in 0..LINE_LOOKS {
            if self.there.arrived.load(Ordering::SeqCst) >= line {
                return;
            }
            pass_time_at_line(rt, looks);
        }
        panic!(rt; "the other thread does not come to line {line}")
    }

    /// Notes that this thread's call of the round is over, which began at `start`. Fails if it took longer than any
    /// that is woken.
    pub(super) fn end(&self, rt: &(impl Asserts + Clock), start: Instant) {
        self.here.ended.store(self.round, Ordering::SeqCst);
        assert_woken(rt, self.round, now(rt).saturating_duration_since(start));
    }
}
