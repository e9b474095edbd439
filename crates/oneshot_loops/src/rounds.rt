//! The rounds that one thread makes without awaiting, and `repeat`, which makes a round again and again.

ghost use Rattle.std.specs.Prelude.{Ok, OnOk};
ghost use Rattle.futures.specs.Task.{Keeps};
ghost use Rattle.oneshot_loops.specs.Rounds.{Leads};

use crate::fault::Fault;
use crate::message::Message;
use crate::polled::PolledRound;
use crate::tally::Tally;
use futures::Future;
use futures::task::{Context, Poll};
use oneshot_channel::{async_channel, channel};
use std::alloc::Global;
use std::sync::Wait;
use std::time::Clock;

/// Calls `round` `count` times.
///
/// `Err`: the fault of a round, after which none is made.
pub fn repeat<F: FnMut() -> Result<(), Fault>>(count: u64, mut round: F) -> Result<(), Fault>
    requires { F.IsAlwaysCallable round }
    ensures { OnOk result ((last : F) × Leads (λ before after. F.step before (Ok tt) after) count round last) }
{
    for _made in 0..count {
        round()?;
    }
    Ok(())
}

/// Makes a channel, sends `message`, receives it by `try_recv`, and drops the receiver.
///
/// `Err`: out of memory, or the message was lost.
pub fn make_send_receive_drop<T: Message + Send + Drop>(
    alloc: Global,
    message: T,
    tally: &mut Tally,
) -> Result<(), Fault> {
    let (sender, mut receiver) = channel::<T, ()>((), alloc)?;
    tally.made(T::BYTES);
    if sender.send(message).is_err() || receiver.try_recv().is_err() {
        return Err(Fault::MessageLost);
    }
    tally.tried();
    Ok(())
}

/// Makes a channel for a `T`, and drops both ends. `Err`: out of memory.
pub fn make_drop<T: Message + Send + Drop>(alloc: Global, tally: &mut Tally) -> Result<(), Fault> {
    let (sender, receiver) = channel::<T, ()>((), alloc)?;
    tally.made(T::BYTES);
    drop(sender);
    drop(receiver);
    Ok(())
}

/// Makes a channel whose receiver keeps `rt`, sends `message`, and receives it by `recv`.
///
/// `Err`: out of memory, or the message was lost.
pub fn make_send_recv<T: Message + Send + Drop, Rt: Wait + Clock + Drop>(
    rt: Rt,
    alloc: Global,
    message: T,
    tally: &mut Tally,
) -> Result<(), Fault> {
    let (sender, receiver) = channel(rt, alloc)?;
    tally.made(T::BYTES);
    if sender.send(message).is_err() || receiver.recv().is_err() {
        return Err(Fault::MessageLost);
    }
    tally.waited();
    Ok(())
}

/// Makes a channel whose receiver is a future, polls it with `cx`, sends `message`, and polls again.
///
/// `Err`: out of memory, or the message was lost.
pub fn make_poll_send_poll<T: Message + Send + Drop>(
    alloc: Global,
    message: T,
    cx: &mut Context<'_>,
    tally: &mut Tally,
) -> Result<(), Fault>
    ensures { Keeps cx.old cx.new }
{
    let (sender, mut receiver) = async_channel::<T, ()>((), alloc)?;
    tally.made(T::BYTES);
    if receiver.poll(cx).is_pending() {
        tally.pended();
    }
    if sender.send(message).is_err() || !matches!(receiver.poll(cx), Poll::Ready(Ok(_))) {
        return Err(Fault::MessageLost);
    }
    tally.polled();
    Ok(())
}

/// `make_poll_send_poll` as a round of a task.
#[derive(Drop)]
pub struct MakePollSendPoll {
    alloc: Global,
    message: u64,
}

impl MakePollSendPoll {
    /// A round that sends `message`.
    pub fn new(alloc: Global, message: u64) -> MakePollSendPoll {
        MakePollSendPoll { alloc, message }
    }
}

impl PolledRound for MakePollSendPoll {
    fn make(&self, cx: &mut Context<'_>, tally: &mut Tally) -> Result<(), Fault> {
        make_poll_send_poll(self.alloc, self.message, cx, tally)
    }
}
