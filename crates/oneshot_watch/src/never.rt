//! The message of a guard's channel, of which there is no value.

/// A message that nobody can make: no guard sends one, and no watch receives one.
#[derive(Drop)]
pub enum Never {}
