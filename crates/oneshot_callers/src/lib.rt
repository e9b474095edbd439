//! Callers that docs/CALLING.md shows or names, each proved by the contracts of the channel, and tested.
#![tactic(auto)]

#[cfg(test)]
mod awaited;
#[cfg(test)]
mod bare;
#[cfg(test)]
mod inbox;
#[cfg(test)]
mod paired;
#[cfg(test)]
mod promised;
#[cfg(test)]
mod recipes;
#[cfg(test)]
mod results;
#[cfg(test)]
mod sent;
#[cfg(test)]
mod taken;
#[cfg(test)]
mod tallied;
#[cfg(test)]
mod tickets;
#[cfg(test)]
mod tried;
