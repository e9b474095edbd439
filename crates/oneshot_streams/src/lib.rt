//! What the program `oneshot-run` does with its streams, whatever streams these are.
#![tactic(auto)]

pub mod answer;
pub mod fault;
mod input;
pub mod run;
