//! Loops whose rounds a program can time, over this repository's channel and over two of Rattle's, and the
//! commands that ask for them.
#![tactic(auto)]

pub mod awaited_rounds;
pub mod awaited_trips;
pub mod channels;
pub mod command;
pub mod crossbeam_rounds;
pub mod crossbeam_trips;
pub mod fault;
pub mod futures_awaited_rounds;
pub mod futures_rounds;
pub mod futures_trips;
pub mod loops;
pub mod measure;
pub mod message;
pub mod polled;
pub mod queues;
pub mod request;
pub mod round_trip;
pub mod rounds;
pub mod run;
pub mod tally;
