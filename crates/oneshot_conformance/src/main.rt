//! Holds the runs of a compiled channel, on standard input, against the model: moves a run of the model by what both
//! ends did. With the argument `traces` it prints the trace of each.
//!
//! `audit.rt` reads a line for each run, `follower.rt` moves the model by the words of `event.rt` and compares, and
//! `met.rt` finds the orders that the model allows and no run met: read these first. docs/ARCHITECTURE.md says how the
//! runs are made, what is compared and what is not.
#![tactic(auto)]

mod audit;
mod beside;
mod differs;
mod event;
mod fault;
mod follower;
mod kept;
mod met;
mod model;
mod order;
mod reply;
mod scripts;
mod tasks;

use audit::{Shown, audit};
use std::io::BufReader;
use std::process::ExitCode;
use std::rt::Env;
use std::{env, io};

fn main(rt: HostRuntime) -> io::Result<ExitCode> {
    let shown = shown_by(&rt)?;
    let mut input = BufReader::new(rt.alloc(), rt.stdin())?;
    let same = audit(rt.alloc(), &mut input, &mut rt.stdout(), shown)?;
    Ok(if same {
        ExitCode::SUCCESS
    } else {
        ExitCode::FAILURE
    })
}

/// What the argument asks for.
fn shown_by(rt: &(impl Env + AllocGlobal)) -> io::Result<Shown> {
    Ok(match env::args(rt)?.nth(1) {
        Some(word) if word.as_str() == "traces" => Shown::Traces,
        _ => Shown::Differences,
    })
}
