//! Runs each use of a channel in `oneshot_patterns`, and prints its result.
#![tactic(auto)]

use oneshot_patterns::divisor::divisor_of;
use oneshot_patterns::pool::pooled;
use oneshot_patterns::replies::{both_squares, first_square};
use oneshot_patterns::request::{Unanswered, squares_of};
use oneshot_patterns::shutdown::{Order, watched};
use oneshot_patterns::task::{awaited, unclaimed};
use oneshot_patterns::tickets::asked;
use std::fmt::Display;
use std::io;
use std::random::RandomSource;
use std::sync::Wait;
use std::thread::Threads;
use std::time::{Clock, Duration};

// The sum of the numbers from 1 to 100.
const SUM: u32 = 5050;

fn main(rt: HostRuntime) -> io::Result<()> {
    show_requests(&rt)?;
    show_tasks(&rt)?;
    show_shutdown(&rt)?;
    show_pool(&rt)?;
    show_tickets(&rt)?;
    show_replies(&rt)?;
    show_divisors(&rt)
}

/// Prints a square, or that no reply came.
fn show_square(rt: &impl Print, what: &str, square: Option<u64>) -> io::Result<()> {
    match square {
        Some(value) => println!(rt; "{what}: {value}"),
        None => println!(rt; "{what}: no reply"),
    }
}

/// Prints a square, or why there is none.
fn show_answer(rt: &impl Print, what: &str, square: Result<u64, Unanswered>) -> io::Result<()> {
    match square {
        Ok(value) => println!(rt; "{what}: {value}"),
        Err(why) => println!(rt; "{what}: {why:?}"),
    }
}

/// Prints what was received, or why nothing was.
fn show_received<E: Display + Drop>(
    rt: &impl Print,
    what: &str,
    received: Result<u32, E>,
) -> io::Result<()> {
    match received {
        Ok(value) => println!(rt; "{what}: {value}"),
        Err(error) => println!(rt; "{what}: {error}"),
    }
}

fn show_requests<R: AllocGlobal + Print + Threads + Wait + Clock + Sync>(rt: &R) -> io::Result<()> {
    for square in squares_of(rt, rt.alloc(), &[3, 5, 12])? {
        show_square(rt, "request", square)?;
    }
    Ok(())
}

fn show_tasks<R: AllocGlobal + Print + Threads + Wait + Clock + Sync>(rt: &R) -> io::Result<()> {
    show_received(rt, "task", awaited(rt, rt.alloc(), || SUM)?.received)?;
    match unclaimed(rt, rt.alloc(), || SUM)? {
        Some(sum) => println!(rt; "task: {sum} came back"),
        None => println!(rt; "task: nothing came back"),
    }
}

fn show_shutdown<R: AllocGlobal + Print + Threads>(rt: &R) -> io::Result<()> {
    for order in [Order::Stop, Order::Leave] {
        let ending = watched(rt, rt.alloc(), order)?.ending;
        println!(rt; "shutdown: {ending:?}")?;
    }
    Ok(())
}

fn show_pool<R: AllocGlobal + Print + Threads + Wait + Clock + Sync>(rt: &R) -> io::Result<()> {
    let done = pooled(rt, rt.alloc(), 3, &[2, 4, 6, 8], Duration::from_secs(60))?;
    for answer in done.answers {
        show_answer(rt, "pool", answer.square)?;
    }
    show_served(rt, done.served)
}

/// Prints how many requests a pool served.
fn show_served(rt: &impl Print, served: Option<u64>) -> io::Result<()> {
    match served {
        Some(served) => println!(rt; "pool: {served} served"),
        None => println!(rt; "pool: a worker did not end"),
    }
}

fn show_tickets<R: AllocGlobal + Print + Threads + Wait + Clock + Sync>(rt: &R) -> io::Result<()> {
    for answer in asked(rt, rt.alloc(), 2, &[9, 10], Duration::from_secs(60))? {
        show_answer(rt, "tickets", answer.square)?;
    }
    Ok(())
}

fn show_replies<R: AllocGlobal + Print + Threads + Wait + RandomSource + Sync>(
    rt: &R,
) -> io::Result<()> {
    let (first, second) = both_squares(rt, rt.alloc(), 7, 11)?;
    for square in [first, second, first_square(rt, rt.alloc(), 13)?] {
        show_square(rt, "replies", square)?;
    }
    Ok(())
}

fn show_divisors<R: AllocGlobal + Print + Threads + Wait + RandomSource>(rt: &R) -> io::Result<()> {
    for number in [91, 97] {
        let found = divisor_of(rt, rt.alloc(), number)?.found;
        show_received(rt, "divisor", found)?;
    }
    Ok(())
}
