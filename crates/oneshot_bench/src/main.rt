//! Measures a loop over a channel: the arguments name both, and the number of rounds.
#![tactic(auto)]

use oneshot_loops::command::fault::Fault;
use oneshot_loops::command::{Command, USAGE, parse_command};
use oneshot_loops::measure::measure;
use std::alloc::AllocError;
use std::io::ErrorKind;
use std::process::ExitCode;
use std::random::RandomSource;
use std::rt::{Clock, Env};
use std::sync::Wait;
use std::thread::Threads;
use std::{env, io};

fn main(rt: HostRuntime) -> ExitCode {
    match answer(&rt) {
        Ok(()) => ExitCode::SUCCESS,
        Err(fault) => {
            // If standard error fails too, the status alone reports the fault.
            let _ = eprintln!(rt; "{fault}");
            ExitCode::from(fault.status())
        }
    }
}

/// Performs the command of the program's arguments, and prints its result.
fn answer<R: Env + Print + AllocGlobal + Clock + RandomSource + Threads + Wait + Sync>(
    rt: &R,
) -> Result<(), Fault> {
    let words = arguments(rt)?;
    match parse_command(words.as_slice()) {
        Some(command) => perform(rt, command),
        None => Err(Fault::BadArguments),
    }
}

/// Performs `command`, and prints its result.
fn perform<R: Print + AllocGlobal + Clock + RandomSource + Threads + Wait + Sync>(
    rt: &R,
    command: Command,
) -> Result<(), Fault> {
    let printed = match command {
        Command::Usage => println!(rt; "{USAGE}"),
        Command::Measure {
            channel,
            kind,
            count,
        } => {
            let nanoseconds = measure(rt, channel, kind, count)?.time.as_nanos();
            println!(rt; "{channel} {kind}: {count} rounds in {nanoseconds} ns")
        }
    };
    printed.map_err(|_| Fault::WriteFailed)
}

/// The program's arguments, without its own name.
fn arguments<R: Env + AllocGlobal>(rt: &R) -> Result<Vec<String>, Fault> {
    let mut words = env::args(rt).map_err(arguments_fault)?;
    let _name = words.next();
    Ok(words.collect(rt.alloc())?)
}

/// Returns `error`, why the arguments could not be read, as a fault.
fn arguments_fault(error: io::Error) -> Fault {
    match error.kind() {
        ErrorKind::OutOfMemory => Fault::OutOfMemory(AllocError),
        _ => Fault::BadArguments,
    }
}
