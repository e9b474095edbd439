//! Tests of the channel and of requests, by their public names, on one thread and on two.
//!
//! `ends/lives.rt` has lives of a channel on one thread, as tables of steps: a new case of what a call returns goes
//! there. `ends/beside.rt` has each receive beside the sender's act on another thread. The other files of `ends/` test
//! one thing each, such as time (`clocks.rt`, `deadlines.rt`, `asleep.rt`), wakes (`polls.rt`, `wakes.rt`) and memory
//! (`leaks.rt`). `errors/` tests the texts of errors, `reply/` requests, `watches/` guards, and `order.rt` what an end
//! does before it drops what may be code of the caller.
#![tactic(auto)]

#[cfg(test)]
mod ends;
#[cfg(test)]
mod errors;
#[cfg(test)]
mod order;
#[cfg(test)]
mod pages;
#[cfg(test)]
mod reply;
#[cfg(test)]
mod watches;
