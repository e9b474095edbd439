//! Typed requests: every reply that a ticket returns names a question equal to the ticket's, and is right for the
//! question that it names.
#![tactic(auto)]

mod answer;
mod asked;
pub mod laws;
mod length;
mod pair;
mod requests;
mod ticket;

pub use answer::Answer;
pub use asked::Asked;
pub use length::Length;
pub use pair::request;
pub use requests::Request;
pub use ticket::Ticket;
