//! Tests of what is beneath the real channel, by public names: the drivers over grounds in memory, and both sides of
//! the shared word.
//!
//! `drive/sender.rt`, `drive/receiver.rt` and `drive/polls.rt` have the cases, each with the steps that the ground has
//! to log, which `drive/steps.rt` writes. `drive/deeds.rt` runs a case of a receiver or of a future. `drive/drops.rt`
//! counts the drops of messages and wakers. `word.rt` tests both sides.
#![tactic(auto)]

#[cfg(test)]
mod drive;
#[cfg(test)]
mod word;
