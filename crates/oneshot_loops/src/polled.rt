//! Rounds that a task makes within one poll, so that no round pays for the executor.

ghost use Rattle.std.specs.Prelude.{IfOk};
ghost use Rattle.futures.specs.Task.{Keeps};

use crate::fault::Fault;
use crate::queues::task_fault;
use crate::tally::Tally;
use futures::Future;
use futures::executor::block_on;
use futures::task::{Context, Poll};
use std::alloc::AllocGlobal;
use std::random::RandomSource;
use std::sync::Wait;

/// A round over a receiver that is a future.
pub trait PolledRound: Drop {
    /// Makes the round within a poll of the task of `cx`.
    ///
    /// `Err`: out of memory, or the message was lost.
    fn make(&self, cx: &mut Context<'_>, tally: &mut Tally) -> Result<(), Fault>
        ensures { Keeps cx.old cx.new };
}

/// A future whose first poll makes `count` rounds.
#[derive(Drop)]
struct InTask<P> {
    count: u64,
    round: P,
}

impl<P: PolledRound> Future for InTask<P> {
    type Output = Result<Tally, Fault>;

    fn poll(&mut self, cx: &mut Context<'_>) -> Poll<Result<Tally, Fault>> {
        Poll::Ready(make_all(self.count, &self.round, cx))
    }
}

/// Makes `count` rounds, one after another, and counts what they did.
fn make_all<P: PolledRound>(count: u64, round: &P, cx: &mut Context<'_>) -> Result<Tally, Fault>
    ensures { Keeps cx.old cx.new }
{
    let mut tally = Tally::new();
    for _made in 0..count {
        round.make(cx, &mut tally)?;
    }
    Ok(tally)
}

/// Makes `count` rounds within one poll of a task, and adds what they did to `tally`.
///
/// `Err`: the task could not be made, or a round's fault, which ends the rounds. `tally` stays as it was.
pub fn repeat_in_task<R: Wait + RandomSource + AllocGlobal, P: PolledRound>(
    rt: &R,
    count: u64,
    round: P,
    tally: &mut Tally,
) -> Result<(), Fault> {
    let made = block_on(rt, InTask { count, round }).map_err(task_fault)?;
    tally.add(made?);
    Ok(())
}

/// Polls `future` `count` times. `Err`: a poll found it ready; none follows.
pub fn pend<F: Future<Output: Drop>>(
    future: &mut F,
    count: u64,
    cx: &mut Context<'_>,
    tally: &mut Tally,
) -> Result<(), Fault>
    requires { F.can_poll future.old }
    ensures waits { IfOk result (λ _. F.can_poll future.new) }
    ensures kept { Keeps cx.old cx.new }
{
    for _polled in 0..count {
        if future.poll(cx).is_ready() {
            return Err(Fault::MessageLost);
        }
        tally.pended();
    }
    Ok(())
}
