//! The error of a replay that ran out of memory.

use oneshot_world::{ReceiverScript, SenderScript};

/// Out of memory for the trace: both scripts, as they were passed in.
#[derive(Debug, Drop)]
pub struct Refused<T> {
    /// The sender's script, with its message.
    pub sender: SenderScript<T>,
    /// The receiver's script.
    pub receiver: ReceiverScript,
}
