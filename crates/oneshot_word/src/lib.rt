//! The word that both ends share, with the message's slot and the waker's: its rule and its operations.
//!
//! Read `rule.rt` first: what a slot holds, what a seat knows, and the rule of the table, which `specs/Rule.antt`
//! defines. `sender.rt` and `receiver.rt` have the operations of each end. `plays.rt` has what each operation notes for
//! proofs, `opening.rt` makes a table, and `looks.rt` has the one load that needs no seat.
#![tactic(auto)]

mod any_waker;
pub mod laws;
mod looks;
mod opening;
mod plays;
mod promise;
mod receiver;
mod rule;
mod sender;
mod table;

pub use any_waker::AnyWaker;
pub use looks::Peek;
pub use opening::{discard, open};
pub use promise::Promise;
pub use receiver::ReceiverSide;
pub use rule::{Role, Slot, View, WordRule};
pub use sender::SenderSide;
