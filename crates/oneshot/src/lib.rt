//! The channel with its model: both ends' machines and drivers, and runs that a program steps and prints.
#![tactic(auto)]

pub use oneshot_channel::{
    AsyncReceiver, Message, Promise, RawReceiver, RawSender, Receiver, RecvError, RecvTimeoutError,
    SendError, Sender, TryRecvError, async_channel, async_channel_for, channel, channel_for, reply,
};
pub use oneshot_drive as drive;
pub use oneshot_ends::laws;
pub use oneshot_errors::laws as error_laws;
pub use oneshot_machine::{laws as machine_laws, machine, states};
pub use oneshot_replay as replay;
pub use oneshot_text as text;
pub use oneshot_watch as watch;
