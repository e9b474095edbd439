//! Rounds whose receivers are futures: awaited by an executor, or polled while pending.

ghost use Rattle.futures.specs.Task.{Keeps};

use crate::fault::Fault;
use crate::message::Message;
use crate::polled::{PolledRound, pend};
use crate::queues::{awaited, task_fault};
use crate::tally::Tally;
use futures::Future;
use futures::executor::block_on;
use futures::task::{Context, Poll, Queue};
use oneshot_channel::async_channel;
use std::alloc::{AllocGlobal, Global};
use std::random::RandomSource;
use std::sync::Wait;

/// Makes a channel whose receiver is a future, sends `message`, and awaits it by `block_on`.
///
/// `Err`: out of memory, the executor could not be made, or the message was lost.
pub fn make_send_block_on<T: Message + Send + Drop, R: Wait + RandomSource + AllocGlobal>(
    rt: &R,
    message: T,
    tally: &mut Tally,
) -> Result<(), Fault> {
    let (sender, receiver) = async_channel::<T, ()>((), rt.alloc())?;
    tally.made(T::BYTES);
    if sender.send(message).is_err() || block_on(rt, receiver).map_err(task_fault)?.is_err() {
        return Err(Fault::MessageLost);
    }
    tally.polled();
    Ok(())
}

/// As `make_send_block_on`, but awaits the message in `queue`.
pub fn make_send_await<T: Message + Send + Drop, R: Wait>(
    rt: &R,
    queue: &Queue,
    alloc: Global,
    message: T,
    tally: &mut Tally,
) -> Result<(), Fault> {
    let (sender, receiver) = async_channel::<T, ()>((), alloc)?;
    tally.made(T::BYTES);
    if sender.send(message).is_err() {
        return Err(Fault::MessageLost);
    }
    awaited(rt, queue, receiver)?;
    tally.polled();
    Ok(())
}

/// A round that makes a channel, polls its receiver `count` times, sends `message`, and polls again.
#[derive(Drop)]
pub struct PollPending {
    alloc: Global,
    count: u64,
    message: u64,
}

impl PollPending {
    /// A round with `count` polls before `message` is sent.
    pub fn new(alloc: Global, count: u64, message: u64) -> PollPending {
        PollPending {
            alloc,
            count,
            message,
        }
    }
}

impl PolledRound for PollPending {
    fn make(&self, cx: &mut Context<'_>, tally: &mut Tally) -> Result<(), Fault> {
        let (sender, mut receiver) = async_channel::<u64, ()>((), self.alloc)?;
        tally.made(u64::BYTES);
        pend(&mut receiver, self.count, cx, tally)?;
        if sender.send(self.message).is_err() || !matches!(receiver.poll(cx), Poll::Ready(Ok(_))) {
            return Err(Fault::MessageLost);
        }
        tally.polled();
        Ok(())
    }
}
