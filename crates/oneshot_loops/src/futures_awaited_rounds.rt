//! The rounds of `awaited_rounds`, over Rattle's `futures::channel::oneshot`.

ghost use Rattle.futures.specs.Task.{Keeps};

use crate::fault::Fault;
use crate::message::Message;
use crate::polled::{PolledRound, pend};
use crate::queues::{awaited, task_fault};
use crate::tally::Tally;
use futures::Future;
use futures::channel::oneshot::channel;
use futures::executor::block_on;
use futures::task::{Context, Poll, Queue};
use std::alloc::{AllocGlobal, Global};
use std::random::RandomSource;
use std::sync::Wait;

/// As `awaited_rounds::make_send_block_on`.
pub fn make_send_block_on<T: Message + Drop, R: Wait + RandomSource + AllocGlobal>(
    rt: &R,
    message: T,
    tally: &mut Tally,
) -> Result<(), Fault> {
    let (sender, receiver) = channel::<T>(rt.alloc())?;
    tally.made(T::BYTES);
    if sender.send(message).is_err() || block_on(rt, receiver).map_err(task_fault)?.is_err() {
        return Err(Fault::MessageLost);
    }
    tally.polled();
    Ok(())
}

/// As `awaited_rounds::make_send_await`.
pub fn make_send_await<T: Message + Drop, R: Wait>(
    rt: &R,
    queue: &Queue,
    alloc: Global,
    message: T,
    tally: &mut Tally,
) -> Result<(), Fault> {
    let (sender, receiver) = channel::<T>(alloc)?;
    tally.made(T::BYTES);
    if sender.send(message).is_err() {
        return Err(Fault::MessageLost);
    }
    awaited(rt, queue, receiver)?;
    tally.polled();
    Ok(())
}

/// As `awaited_rounds::PollPending`.
#[derive(Drop)]
pub struct PollPending {
    alloc: Global,
    count: u64,
    message: u64,
}

impl PollPending {
    /// A round with `count` polls before `message` is sent.
    pub fn new(alloc: Global, count: u64, message: u64) -> PollPending {
        PollPending {
            alloc,
            count,
            message,
        }
    }
}

impl PolledRound for PollPending {
    fn make(&self, cx: &mut Context<'_>, tally: &mut Tally) -> Result<(), Fault> {
        let (sender, mut receiver) = channel::<u64>(self.alloc)?;
        tally.made(u64::BYTES);
        pend(&mut receiver, self.count, cx, tally)?;
        if sender.send(self.message).is_err() || !matches!(receiver.poll(cx), Poll::Ready(Ok(_))) {
            return Err(Fault::MessageLost);
        }
        tally.polled();
        Ok(())
    }
}
