//! Rounds in which both ends of a channel race on real threads: 10,000 for each pair of calls, and 100 or 1,000 where
//! something else is compared.
#![tactic(auto)]

#[cfg(test)]
mod answers;
#[cfg(test)]
mod beside_a_drop;
#[cfg(test)]
mod beside_a_send;
#[cfg(test)]
mod channels;
#[cfg(test)]
mod counted;
#[cfg(test)]
mod draws;
#[cfg(test)]
mod duels;
#[cfg(test)]
mod line;
#[cfg(test)]
mod notes;
#[cfg(test)]
mod races;
#[cfg(test)]
mod receives;
#[cfg(test)]
mod sizes;
#[cfg(test)]
mod two_channels;
#[cfg(test)]
mod waits;
