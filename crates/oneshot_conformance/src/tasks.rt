//! The tasks of a run: whether each was woken since its last poll began.

use crate::differs::Differs;
use oneshot_replay::{AsyncCall, Made, ReceiverLast, WakerName, WakerPlace};
use std::alloc::{AllocError, Global};

/// The tasks that a program under the scheduler has.
const NUMBERS: [u64; 2] = [1, 2];

/// The tasks that are woken, and those of the polls to come, the next one last.
#[derive(Drop)]
pub(crate) struct Tasks {
    woken: Vec<u64>,
    polls: Vec<u64>,
}

impl Tasks {
    /// The tasks before the first poll. A task is woken until it is polled.
    pub(crate) fn new(alloc: Global, last: &ReceiverLast) -> Result<Tasks, AllocError> {
        let woken = Vec::from_slice(alloc, &NUMBERS)?;
        let polls = match last {
            ReceiverLast::IntoFuture(script) => polls_of(alloc, script.calls.as_slice())?,
            _ => Vec::new(alloc),
        };
        Ok(Tasks { woken, polls })
    }

    /// The next poll begins.
    pub(crate) fn begin_poll(&mut self) {
        if let Some(number) = self.polls.pop() {
            self.woken.retain(|other| *other != number);
        }
    }

    /// Notes the task that a step wakes.
    pub(crate) fn note(&mut self, made: &Made) -> Result<(), AllocError> {
        if let Some((WakerName::Copy { number, .. }, _, WakerPlace::Used)) = made.waker {
            self.woken.push(number)?;
        }
        if let Some(number) = made.own {
            self.woken.push(number)?;
        }
        Ok(())
    }

    /// A task that is woken in the model has to be. A real one may also be woken where its last waker is dropped.
    pub(crate) fn compare(&self, number: u64, woken: bool) -> Result<(), Differs> {
        if !woken && self.woken.contains(&number) {
            return Err(Differs::OtherTask(number));
        }
        Ok(())
    }
}

/// The tasks of the polls among these calls, the last one first.
fn polls_of(alloc: Global, calls: &[AsyncCall]) -> Result<Vec<u64>, AllocError> {
    let mut polls = Vec::new(alloc);
    for call in calls.iter().rev() {
        if let AsyncCall::Poll(number) = call {
            polls.push(*number)?;
        }
    }
    Ok(polls)
}
