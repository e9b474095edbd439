//! Why the rounds of a loop ended early.

use std::alloc::AllocError;
use thiserror::Error;

/// Why rounds ended early, or none was made.
#[derive(Debug, Drop, Error)]
pub enum Fault {
    /// The clock could not be read.
    #[error("clock failed")]
    ClockFailed,
    /// A message was refused, did not come, or came too early.
    #[error("message lost")]
    MessageLost,
    /// The channel lacks a call that the loop needs.
    #[error("channel cannot run this loop")]
    CannotRun,
    /// A queue or a task could not be made.
    #[error("task failed")]
    TaskFailed,
    /// Out of memory.
    #[error("out of memory")]
    OutOfMemory(#[from(alloc)] AllocError),
}
