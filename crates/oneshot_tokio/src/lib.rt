//! Awaits messages under tokio's timers and on a pool of threads, each with a deadline.
#![tactic(auto)]

pub mod asking;
pub mod client;
pub mod meeting;
pub mod pool;
pub mod promised;
pub mod runtime;
pub mod server;
pub mod square;
pub mod ticket;
pub mod within;
