//! Reads two scripts and a schedule, and prints the trace of their run.
#![tactic(auto)]

use oneshot_streams::answer::answer;
use std::process::ExitCode;

fn main(rt: HostRuntime) -> ExitCode {
    ExitCode::from(answer(
        rt.alloc(),
        &mut rt.stdin(),
        &mut rt.stdout(),
        &mut rt.stderr(),
    ))
}
