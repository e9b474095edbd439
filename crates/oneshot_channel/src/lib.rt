//! A channel that carries one message from one sender to one receiver, and typed requests over it. The crate `oneshot`
//! exports these names too, beside the model.
#![tactic(auto)]

pub use oneshot_ends::{
    AsyncReceiver, Message, Promise, RawReceiver, RawSender, Receiver, SendError, Sender,
    async_channel, async_channel_for, channel, channel_for, laws,
};
pub use oneshot_errors::{RecvError, RecvTimeoutError, TryRecvError};
pub use oneshot_reply as reply;
