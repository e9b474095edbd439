//! The ends of a channel: its sender, its receiver, and the error of a refused message.
//!
//! The way of a message: `Sender::send` turns its side of the shared word into a ground (`SenderBackend`) and calls the
//! driver of `oneshot_drive`. The driver writes the message into its slot and then acts on the word: each step is a
//! method of the ground, which forwards those on the word and the slots to the side (`SenderSide` of `oneshot_word`). A
//! receive that blocks lends its ground (`ReceiverBackend`) to its driver in a `Blocking`, with what it parks by, and a
//! poll in a `Polling`, with its task. Any other call acts on the ground itself. Once an operation of a receiver finds
//! the message, the driver takes it out of the slot.
#![tactic(auto)]

mod copies;
mod deadline;
mod error;
mod freed;
mod future;
mod ground;
pub mod laws;
mod message;
mod pair;
mod patience;
mod raw;
mod receiver;
mod sender;
mod spin;
mod token;
mod waker;

pub use error::SendError;
pub use future::AsyncReceiver;
pub use message::Message;
pub use oneshot_word::Promise;
pub use pair::{async_channel, async_channel_for, channel, channel_for};
pub use raw::{RawReceiver, RawSender};
pub use receiver::Receiver;
pub use sender::Sender;
