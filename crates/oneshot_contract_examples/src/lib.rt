//! What the definitions by which the channel's contracts and laws are stated accept and refuse, in worked examples.
#![tactic(auto)]

pub mod drivers;
pub mod ends;
pub mod tables;
pub mod word;
