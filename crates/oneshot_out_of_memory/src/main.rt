//! Makes channels, requests, watches and traces while an allocation may fail, and prints whether one did.
//!
//! Each line of standard input names what to make, and may then give a number: how many allocations come
//! before it.
//! After a refusal the program tests what came back, and makes the same again: given memory, the second
//! attempt has to succeed.
#![tactic(auto)]

mod channels;
mod counted;
mod outcome;
mod traces;
mod watches;

use outcome::{Outcome, Wrong};
use std::alloc::{AllocError, Global};
use std::io::Read;
use std::process::ExitCode;
use std::random::RandomSource;
use std::str;
use std::sync::Wait;
use std::sync::atomic::AtomicU64;

/// How many bytes of the input are read: without an allocation, so that all are of what is made.
const MOST: usize = 64;

fn main(rt: HostRuntime) -> ExitCode {
    let mut bytes = [0; MOST];
    let count = rt.stdin().read(&mut bytes).unwrap_or(0);
    for line in str::from_utf8(&bytes[..count]).unwrap_or("").lines() {
        if let Err(wrong) = answer(&rt, line) {
            report(&rt, line, &wrong);
            return ExitCode::FAILURE;
        }
    }
    ExitCode::SUCCESS
}

/// Makes what this line names, and prints what came of it.
fn answer(rt: &(impl Print + Wait + RandomSource + AllocGlobal), line: &str) -> Result<(), Wrong> {
    let (name, number) = line.split_once(' ').unwrap_or((line, "0"));
    spend(rt.alloc(), count_of(number)?)?;
    let drops = AtomicU64::new(0);
    let outcome = match name {
        "channel" => channels::make_channel(rt, &drops),
        "async_channel" => channels::make_async_channel(rt, &drops),
        "request" => channels::make_request(rt, &drops),
        "watch" => watches::make_watch(rt, &drops),
        "cancellable_request" => watches::make_cancellable_request(rt, &drops),
        "replay" => traces::make_trace(rt.alloc()),
        _ => Err(Wrong::UnknownName),
    }?;
    print(rt, name, outcome)
}

/// Reads how many allocations come before what is made.
fn count_of(number: &str) -> Result<u8, Wrong> {
    match number.parse() {
        Ok(count) => Ok(count),
        Err(_) => Err(Wrong::UnknownName),
    }
}

/// Makes `count` allocations, and frees each at once.
fn spend(alloc: Global, count: u8) -> Result<(), AllocError> {
    for _ in 0..count {
        let _spent: Box<u8> = Box::new(alloc, 0)?;
    }
    Ok(())
}

/// Prints what came of an attempt.
fn print(rt: &impl Print, name: &str, outcome: Outcome) -> Result<(), Wrong> {
    let text = outcome.text();
    match println!(rt; "{name}: {text}") {
        Ok(()) => Ok(()),
        Err(_) => Err(Wrong::WriteFailed),
    }
}

/// Reports what is wrong. If standard error fails too, the status alone reports it.
fn report(rt: &impl Eprint, line: &str, wrong: &Wrong) {
    let text = wrong.text();
    let _ = eprintln!(rt; "{line}: {text}");
}
