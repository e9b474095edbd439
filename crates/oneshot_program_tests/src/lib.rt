//! Tests of what uses the channel and its model: the uses, waits under tokio's timers, the loops of the benchmark and
//! its arguments, and the callers of the model's contracts.
#![tactic(auto)]

#[cfg(test)]
mod arguments;
#[cfg(test)]
mod callers;
#[cfg(test)]
mod loops;
#[cfg(test)]
mod timers;
#[cfg(test)]
mod uses;
