//! Tests of the model's parts, by public names: runs that are stepped by hand, texts, and answers to inputs.
//!
//! `answers/` tests what `oneshot-run` writes for an input, `text/` the faults of a text, by the parser, the program
//! and a second reading, and `replayer.rt` a run that is stepped. The traces of drawn schedules are tested in
//! `oneshot_trace_audit`.
#![tactic(auto)]

#[cfg(test)]
mod answers;
#[cfg(test)]
mod replayer;
#[cfg(test)]
mod text;
