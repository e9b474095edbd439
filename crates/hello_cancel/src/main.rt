//! Stops a server's work when nobody waits for its reply any more: the asker gives up after 50 milliseconds.
#![tactic(auto)]

ghost use Rattle.std.specs.Prelude.{◌≡◌, ◌≢◌, ◌%◌};

use futures::Future;
use futures::executor::block_on;
use futures::future::{Either, select};
use futures::task::{Context, Poll};
use oneshot_channel::RecvTimeoutError;
use oneshot_channel::reply::Answer;
use oneshot_watch::{CancellableRequest, CancellableTicket, cancellable_request};
use std::alloc::{AllocError, AllocGlobal};
use std::io;
use std::random::RandomSource;
use std::sync::Wait;
use std::thread::join;
use std::time::{Clock, Duration};

/// How long the asker waits, in milliseconds.
const LIMIT: u64 = 50;

/// A prime: the search for its least divisor above 1 would take years.
const NUMBER: u64 = 2_305_843_009_213_693_951;

/// How many numbers a poll of the search tries.
const SLICE: u32 = 10_000;

/// A number, and a divisor of it.
#[derive(Drop)]
struct Divisor {
    number: u64,
    value: u64,
    ghost divides: { number % value ≡ 0 },
}

impl Answer<u64> for Divisor {
    ghost asked = { λ divisor. divisor.number };

    ghost answers = { λ number divisor. number % divisor.value ≡ 0 };

    ghost is_right = { λ divisor. divisor.divides };

    fn question(&self) -> &u64 {
        &self.number
    }
}

/// The search for a divisor of a number.
#[derive(Drop)]
struct Search {
    number: u64,
    next: u64,
    ghost above_zero: { next ≢ 0 },
}

impl Future for Search {
    type Output = Divisor;

    /// Tries the next numbers, and asks to be polled again unless one of them is a divisor.
    fn poll(&mut self, cx: &mut Context<'_>) -> Poll<Divisor> {
        let number = self.number;
        for _ in 0..SLICE {
            let value = self.next;
            if number % value == 0 {
                return Poll::Ready(Divisor { number, value });
            }
            self.next = value.saturating_add(1);
        }
        cx.yield_now()
    }
}

/// Searches until it can answer, or until nobody waits. Returns whether it answered.
fn serve<R: Wait + RandomSource + AllocGlobal>(
    rt: &R,
    request: CancellableRequest<u64, Divisor, ()>,
) -> io::Result<bool> {
    let (request, watch) = request.into_parts();
    let number = *request.question();
    let search = Search { number, next: 2 };
    match block_on(rt, select(search, watch.into_future()))? {
        Either::Left((divisor, _)) => Ok(request.fits(&divisor) && request.answer(divisor).is_ok()),
        Either::Right(((), _)) => Ok(false),
    }
}

/// Waits for a divisor. If none comes in time, the ticket goes, which tells the server.
fn ask<Rt: Wait + Clock + Drop>(
    mut ticket: CancellableTicket<u64, Divisor, Rt>,
) -> Result<u64, RecvTimeoutError> {
    Ok(ticket.wait_for(Duration::from_millis(LIMIT))?.value)
}

fn main(rt: HostRuntime) -> io::Result<()> {
    let made = cancellable_request(&rt, (), rt.alloc(), NUMBER);
    let (request, ticket) = made.map_err(|_| AllocError)?;
    // If `join` can start no thread, it calls the second closure first, and `ask` ends by itself.
    let (answered, divisor) = join(&rt, || serve(&rt, request), || ask(ticket));
    match divisor {
        Ok(divisor) => println!(rt; "asker: a divisor is {divisor}")?,
        Err(_) => println!(rt; "asker: no reply within {LIMIT} ms")?,
    }
    match answered? {
        true => println!(rt; "server: answered"),
        false => println!(rt; "server: stopped, since nobody waits for the reply"),
    }
}
