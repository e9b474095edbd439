//! Runs of the model: both ends' scripts under a schedule, move by move, and the trace of what they did.
//!
//! `replayer.rt` makes a run move by move, and `run.rt` goes through a whole schedule. The record of what every run
//! keeps is `specs/Right.antt`.
#![tactic(auto)]

pub mod laws;
mod refused;
mod replayer;
mod rest;
mod run;
mod trace;

pub use oneshot_world::{
    AsyncCall, AsyncLast, AsyncScript, CallList, Entry, ErrorLast, ErrorScript, Made, Move, Place,
    ReceiverCall, ReceiverLast, ReceiverScript, SenderLast, SenderScript, WakerName, WakerPlace,
};
pub use refused::Refused;
pub use replayer::Replayer;
pub use rest::Rest;
pub use run::replay;
pub use trace::Trace;
