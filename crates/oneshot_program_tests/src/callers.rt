//! Callers that prove a fact from a contract of the model or of a value's run, and their tests.

mod printed;
mod rehearsal;
mod stepped;
mod worker;
