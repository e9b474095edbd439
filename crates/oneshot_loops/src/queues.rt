//! Awaits one future after another in one queue of tasks.

use crate::fault::Fault;
use futures::Future;
use futures::executor::block_on_queue;
use futures::task::{Doorbell, Queue};
use std::alloc::{AllocError, AllocGlobal};
use std::io;
use std::io::ErrorKind;
use std::random::RandomSource;
use std::sync::Wait;

/// Makes a queue whose thread sleeps while no task is ready. `Err`: it could not be made.
pub fn queue<R: RandomSource + AllocGlobal>(rt: &R) -> Result<Queue, Fault> {
    Queue::new(rt, Doorbell::parking()).map_err(task_fault)
}

/// Awaits the message of `receiver` in `queue`. `Err`: the task could not be made, or no message came.
pub fn awaited<T, E: Drop, R: Wait, F: Future<Output = Result<T, E>>>(
    rt: &R,
    queue: &Queue,
    receiver: F,
) -> Result<T, Fault>
    requires { F.can_poll receiver }
{
    match block_on_queue(rt, queue, receiver) {
        Ok(Ok(message)) => Ok(message),
        Ok(Err(_)) => Err(Fault::MessageLost),
        Err(error) => Err(task_fault(error)),
    }
}

/// Returns `error`, why a queue or a task could not be made, as a fault.
pub fn task_fault(error: io::Error) -> Fault {
    match error.kind() {
        ErrorKind::OutOfMemory => Fault::OutOfMemory(AllocError),
        _ => Fault::TaskFailed,
    }
}
