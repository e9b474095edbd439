//! The grounds of real ends, on which the drivers act.

mod error;
mod looks;
mod receiver;
mod sender;
mod task;
mod thread;

pub(crate) use error::Refused;
pub(crate) use receiver::{ChannelReceiver, ReceiverBackend};
pub(crate) use sender::{SenderBackend, Unsent};
pub(crate) use task::Polling;
pub(crate) use thread::Blocking;
