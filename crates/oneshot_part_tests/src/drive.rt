//! Tests of the drivers over grounds in memory: what each returns, and its steps.

mod deeds;
mod drops;
mod polls;
mod receiver;
mod sender;
mod steps;
