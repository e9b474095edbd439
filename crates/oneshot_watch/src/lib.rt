//! A guard, and a watch that is told when the guard is gone; requests whose server is told when nobody waits.
#![tactic(auto)]

mod asking;
mod future;
mod guard;
mod never;
mod pair;
mod replies;
mod requests;
mod ticket;
mod watching;

pub use asking::cancellable_request;
pub use future::AsyncWatch;
pub use guard::Guard;
pub use never::Never;
pub use pair::watch;
pub use replies::CancellableReply;
pub use requests::CancellableRequest;
pub use ticket::CancellableTicket;
pub use watching::Watch;
