//! Scripts, schedules and traces, and the world in which two machines run a script each.
//!
//! This is the model. `world.rt` has its state between two moves and its one move, and `state.rt` one step of one end:
//! read these two first. `script.rt` has what both ends are asked to do, and `trace.rt` what they did. The code runs
//! the tables of `oneshot_machine`. Its contracts equate it with the definitions of `specs/`, and `proofs/` shows that
//! each move of each run has a row.
#![tactic(auto)]

mod calls;
mod effects;
mod laws;
mod script;
mod state;
mod trace;
mod wakers;
mod world;

pub use laws::turns_commute;
pub use script::{
    AsyncCall, AsyncLast, AsyncScript, CallList, ErrorLast, ErrorScript, Move, ReceiverCall,
    ReceiverLast, ReceiverScript, SenderLast, SenderScript,
};
pub use state::{ReceiverState, SenderState, State};
pub use trace::{Entry, Made, Place, WakerName, WakerPlace};
pub use wakers::{Input, Wakers};
pub use world::World;
