//! Seven uses of a channel for one message: replies to requests, a task's result, a stop signal, a worker
//! pool, a pool with tickets, and, with futures, two replies that one task awaits and a search on another
//! thread. The program `oneshot_patterns_run` calls each.
#![tactic(auto)]

pub mod divisor;
pub mod pool;
pub mod replies;
pub mod request;
pub mod shutdown;
pub mod task;
pub mod tickets;
