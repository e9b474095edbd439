//! The rounds that one thread makes over Rattle's `futures::channel::oneshot`, without awaiting.

ghost use Rattle.futures.specs.Task.{Keeps};

use crate::fault::Fault;
use crate::message::Message;
use crate::polled::PolledRound;
use crate::tally::Tally;
use futures::Future;
use futures::channel::oneshot::channel;
use futures::task::{Context, Poll};
use std::alloc::Global;

/// As `rounds::make_send_receive_drop`.
pub fn make_send_receive_drop<T: Message + Drop>(
    alloc: Global,
    message: T,
    tally: &mut Tally,
) -> Result<(), Fault> {
    let (sender, mut receiver) = channel(alloc)?;
    tally.made(T::BYTES);
    if sender.send(message).is_err() || !matches!(receiver.try_recv(), Ok(Some(_))) {
        return Err(Fault::MessageLost);
    }
    tally.tried();
    Ok(())
}

/// As `rounds::make_drop`.
pub fn make_drop<T: Message + Drop>(alloc: Global, tally: &mut Tally) -> Result<(), Fault> {
    let (sender, receiver) = channel::<T>(alloc)?;
    tally.made(T::BYTES);
    drop(sender);
    drop(receiver);
    Ok(())
}

/// As `rounds::make_poll_send_poll`.
pub fn make_poll_send_poll<T: Message + Drop>(
    alloc: Global,
    message: T,
    cx: &mut Context<'_>,
    tally: &mut Tally,
) -> Result<(), Fault>
    ensures { Keeps cx.old cx.new }
{
    let (sender, mut receiver) = channel(alloc)?;
    tally.made(T::BYTES);
    if receiver.poll(cx).is_pending() {
        tally.pended();
    }
    if sender.send(message).is_err() || !matches!(receiver.poll(cx), Poll::Ready(Ok(_))) {
        return Err(Fault::MessageLost);
    }
    tally.polled();
    Ok(())
}

/// `make_poll_send_poll` as a round of a task.
#[derive(Drop)]
pub struct MakePollSendPoll {
    alloc: Global,
    message: u64,
}

impl MakePollSendPoll {
    /// A round that sends `message`.
    pub fn new(alloc: Global, message: u64) -> MakePollSendPoll {
        MakePollSendPoll { alloc, message }
    }
}

impl PolledRound for MakePollSendPoll {
    fn make(&self, cx: &mut Context<'_>, tally: &mut Tally) -> Result<(), Fault> {
        make_poll_send_poll(self.alloc, self.message, cx, tally)
    }
}
