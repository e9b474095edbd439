//! The drivers: the code of each call, over a ground that does the end's steps.
//!
//! A ground is the backend of a driver; the head of `ground.rt` says why a driver is generic over it. Read `ground.rt`
//! first, then `sender.rt` and `receiver.rt`. The receives that block are in `blocking.rt`, and their wait in
//! `waiting.rt`. The calls of a future are in `polling.rt`.
#![tactic(auto)]

mod blocking;
mod found;
mod ground;
mod polling;
mod receiver;
mod sender;
mod waiting;

pub use blocking::{recv, recv_deadline, recv_ref, recv_timeout};
pub use ground::{
    BlockGround, DropGround, ErrorGround, ReceiverGround, SenderGround, TaskGround, WaitGround,
};
pub use polling::{async_try_recv, drop_async, poll};
pub use receiver::{drop_receiver, try_recv};
pub use sender::{drop_error, drop_sender, into_inner, send};
