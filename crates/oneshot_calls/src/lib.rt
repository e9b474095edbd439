//! The language of the tests of real ends: each call as a word, what it returns as text, and who makes it.
#![tactic(auto)]

mod future;
mod limits;
mod numbered;
mod receiver;
mod receives;
mod reply;
mod scripts;
mod sender;
mod sends;
mod words;

pub use future::Tasks;
pub use limits::{is_overdue, limit};
pub use numbered::Numbered;
pub use receiver::Receiving;
pub use receives::Receives;
pub use reply::{Bare, Form, Reply, shows};
pub use scripts::{Fault, script};
pub use sender::Sending;
pub use sends::{Refuses, Sends};
pub use words::{Ask, Call, ReceiverCall, SenderCall, Task, Word};
