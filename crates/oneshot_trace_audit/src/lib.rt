//! Tests of `replay` under drawn schedules: an auditor that was written from the definitions accepts their traces, and
//! refuses damaged ones.
//!
//! `replay` is proved to keep the laws of `oneshot_laws`. These tests are of the laws themselves: a law whose
//! definition said too little would be proved of wrong traces too. The auditor states the laws a second time, as a
//! program, without the definitions, the tables and the code of the model. It would refuse the traces of a model that
//! such a law lets pass. The damaged traces show that the auditor sees each kind of fault. This second statement is why
//! the crate is large.
#![tactic(auto)]

#[cfg(test)]
mod auditor;
#[cfg(test)]
mod damage;
#[cfg(test)]
mod damaged;
#[cfg(test)]
mod digest;
#[cfg(test)]
mod drawn;
#[cfg(test)]
mod moves;
#[cfg(test)]
mod run;
#[cfg(test)]
mod scripts;
