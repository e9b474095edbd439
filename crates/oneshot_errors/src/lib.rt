//! The errors of the receives.
#![tactic(auto)]

pub mod laws;
mod recv;
mod recv_timeout;
mod try_recv;

pub use recv::RecvError;
pub use recv_timeout::RecvTimeoutError;
pub use try_recv::TryRecvError;
