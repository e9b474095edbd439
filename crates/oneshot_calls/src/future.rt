//! Makes the calls of a future, which tasks poll.

use crate::limits::{TRIES, pass_time};
use crate::reply::{Bare, Reply};
use crate::words::{Ask, ReceiverCall, Task};
use futures::executor::block_on;
use futures::test::MockTask;
use oneshot_channel::{AsyncReceiver, Promise};
use std::io;
use std::random::RandomSource;
use std::sync::Wait;

/// Two tasks, each of an executor of its own.
#[derive(Drop)]
pub struct Tasks {
    one: MockTask,
    two: MockTask,
}

impl Tasks {
    /// Makes both tasks.
    pub fn new<R: RandomSource + AllocGlobal>(rt: &R) -> io::Result<Tasks> {
        Ok(Tasks {
            one: MockTask::new(rt)?,
            two: MockTask::new(rt)?,
        })
    }

    fn poll<T: Drop, Rt: Drop, P: Promise<T>>(
        &self,
        task: Task,
        future: &mut AsyncReceiver<T, Rt, P>,
    ) -> Reply<T> {
        Reply::polled(match task {
            Task::One => self.one.poll(future),
            Task::Two => self.two.poll(future),
        })
    }

    /// Whether the task is woken.
    pub fn is_woken(&self, task: Task) -> bool {
        match task {
            Task::One => self.one.is_woken(),
            Task::Two => self.two.is_woken(),
        }
    }
}

/// Makes a call of the future, if it is there. `rt` is the runtime of `block_on`.
pub(crate) fn call_future<T, Rt, P, R>(
    rt: &R,
    tasks: Option<&Tasks>,
    slot: &mut Option<AsyncReceiver<T, Rt, P>>,
    call: ReceiverCall,
) -> Reply<T>
where
    T: Drop,
    Rt: Drop,
    P: Promise<T>,
    R: Wait + RandomSource + AllocGlobal,
{
    let Some(mut future) = slot.take() else {
        return Reply::Bare(Bare::Nothing);
    };
    let reply = match call {
        ReceiverCall::Drop => {
            drop(future);
            return Reply::Bare(Bare::Dropped);
        }
        ReceiverCall::Await => return await_it(rt, future),
        ReceiverCall::Ask(call) => ask(&mut future, call),
        ReceiverCall::Poll(task) => poll(tasks, task, &mut future),
        ReceiverCall::Polls => poll_until(tasks, &mut future),
        ReceiverCall::Recv | ReceiverCall::Raw | ReceiverCall::DropRaw | ReceiverCall::Future => {
            Reply::Bare(Bare::Nothing)
        }
    };
    *slot = Some(future);
    reply
}

fn ask<T: Drop, Rt: Drop, P: Promise<T>>(
    future: &mut AsyncReceiver<T, Rt, P>,
    call: Ask,
) -> Reply<T> {
    match call {
        Ask::Closed => Reply::look(future.is_closed()),
        Ask::Full => Reply::look(future.has_message()),
        Ask::Try => Reply::tried(future.try_recv()),
        Ask::Tries | Ask::Ref | Ask::Deadline(_) | Ask::PastDeadline | Ask::Timeout(_) => {
            Reply::Bare(Bare::Nothing)
        }
    }
}

/// Makes no poll where there are no tasks.
fn poll<T: Drop, Rt: Drop, P: Promise<T>>(
    tasks: Option<&Tasks>,
    task: Task,
    future: &mut AsyncReceiver<T, Rt, P>,
) -> Reply<T> {
    match tasks {
        Some(tasks) => tasks.poll(task, future),
        None => Reply::Bare(Bare::Nothing),
    }
}

fn poll_until<T: Drop, Rt: Drop, P: Promise<T>>(
    tasks: Option<&Tasks>,
    future: &mut AsyncReceiver<T, Rt, P>,
) -> Reply<T> {
    for looks in 0..TRIES {
        let reply = poll(tasks, Task::One, future);
        if !matches!(reply, Reply::Bare(Bare::Pending)) {
            return reply;
        }
        pass_time(looks);
    }
    Reply::Bare(Bare::Pending)
}

fn await_it<T: Drop, Rt: Drop, P: Promise<T>, R: Wait + RandomSource + AllocGlobal>(
    rt: &R,
    future: AsyncReceiver<T, Rt, P>,
) -> Reply<T> {
    match block_on(rt, future) {
        Ok(received) => Reply::received(received),
        Err(_) => Reply::Bare(Bare::NotAwaited),
    }
}
