//! Two threads that each make a call in every round, at about the same time.
//!
//! If all processors are busy, both threads may share one. Their calls then follow each other in either
//! order, and rarely overlap. No test needs overlaps: `scripts/schedules` goes through them.

use super::answers::Outcome;
use super::line::{Line, Side};
use super::waits::now;
use oneshot_asserts::Asserts;
use std::thread::{Threads, join};
use std::time::Clock;

// Makes this call in each round, with its side's value for the round, and returns the answers. Fails if a call took
// longer than any that is woken.
fn run<R: Asserts + Clock + AllocGlobal, E: Drop, A: Copy, F: FnMut(E) -> A>(
    rt: &R,
    mut side: Side<'_>,
    ends: Vec<E>,
    mut call: F,
) -> Vec<Outcome<A>>
    requires { F.IsAlwaysCallable call }
{
    let mut outcomes = Vec::new(rt.alloc());
    for end in ends {
        let late = side.start(rt);
        let start = now(rt);
        let answer = call(end);
        side.end(rt, start);
        outcomes.push(Outcome { answer, late }).expect(rt, "memory");
    }
    // Fails if the other thread never ends its last round.
    side.meet(rt, u64::MAX);
    outcomes
}

/// What both sides return in each round. Each makes its call on a thread of its own, with its value for
/// that round. Does not end if a call does not.
pub(super) fn race<
    R: Threads + Asserts + Clock + AllocGlobal + Sync,
    S: Send + Drop,
    E: Drop,
    A: Copy + Send,
    B: Copy,
    F: FnMut(S) -> A + Send,
    G: FnMut(E) -> B,
>(rt: &R, ones: Vec<S>, others: Vec<E>, one: F, other: G) -> (Vec<Outcome<A>>, Vec<Outcome<B>>)
    requires first { F.IsAlwaysCallable one }
    requires second { G.IsAlwaysCallable other }
{
    let line = Line::new();
    let (here, there) = line.sides();
    join(
        rt,
        || -> Vec<Outcome<A>>
            requires { F.IsAlwaysCallable one }
        { run(rt, here, ones, one) },
        || -> Vec<Outcome<B>>
            requires { G.IsAlwaysCallable other }
        { run(rt, there, others, other) },
    )
}
