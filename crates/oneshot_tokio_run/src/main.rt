//! Awaits messages under tokio's timers and on a pool of threads, each with a deadline, and prints each outcome.
#![tactic(auto)]

ghost use Rattle.std.specs.Prelude.{◌≡◌, IfOk};

use oneshot_channel::reply::{Request, Ticket, request};
use oneshot_channel::{RecvTimeoutError, Sender, async_channel_for};
use oneshot_tokio::asking::asked;
use oneshot_tokio::meeting::met;
use oneshot_tokio::pool::{Pool, with_pool};
use oneshot_tokio::promised::{Below, item_within};
use oneshot_tokio::server::{Service, serve};
use oneshot_tokio::square::Square;
use oneshot_tokio::ticket::square_within;
use std::alloc::{AllocError, AllocGlobal, Global};
use std::io;
use std::random::RandomSource;
use std::sync::Wait;
use std::thread::{Threads, join};
use std::time::{Clock, Duration, Instant};

// The longest wait for a message that comes.
const SECONDS: u64 = 60;

// The longest wait for a message that does not come.
const MILLISECONDS: u64 = 20;

/// How many threads run tasks.
const WORKERS: usize = 3;

fn main(rt: HostRuntime) -> io::Result<()> {
    with_pool(&rt, WORKERS, |pool| show(&rt, &pool))?
}

/// How many messages came, and how many did not.
#[derive(Drop)]
struct Tally {
    came: u64,
    timed_out: u64,
    lost: u64,
}

impl Tally {
    fn count(&mut self, came: Result<u64, RecvTimeoutError>) {
        let number = match came {
            Ok(_) => &mut self.came,
            Err(RecvTimeoutError::Timeout) => &mut self.timed_out,
            Err(RecvTimeoutError::Disconnected) => &mut self.lost,
        };
        *number = number.saturating_add(1);
    }

    fn show(self, rt: &impl Print) -> io::Result<()> {
        let Tally {
            came,
            timed_out,
            lost,
        } = self;
        println!(rt; "in all: {came} came, {timed_out} timed out, {lost} were lost")
    }
}

fn show<R>(rt: &R, pool: &Pool) -> io::Result<()>
where
    R: AllocGlobal + Print + Threads + Wait + Clock + RandomSource + Sync,
{
    let mut tally = Tally {
        came: 0,
        timed_out: 0,
        lost: 0,
    };
    show_reply(rt, pool, &mut tally)?;
    show_late_reply(rt, pool, &mut tally)?;
    show_lost_request(rt, pool, &mut tally)?;
    show_item(rt, pool, &mut tally)?;
    show_late_item(rt, pool, &mut tally)?;
    show_meeting(rt, pool)?;
    show_server(rt, pool, &mut tally)?;
    tally.show(rt)
}

/// Counts and prints the value that came, or why none did.
fn show_value<R: Print>(
    rt: &R,
    tally: &mut Tally,
    what: &str,
    came: Result<u64, RecvTimeoutError>,
) -> io::Result<()> {
    tally.count(came);
    match came {
        Ok(value) => println!(rt; "{what}: {value}"),
        Err(error) => println!(rt; "{what}: {error}"),
    }
}

/// Prints whether a wait that began at `start` lasted to its limit.
fn show_wait<R: Print + Clock>(
    rt: &R,
    what: &str,
    start: Instant,
    limit: Duration,
) -> io::Result<()> {
    if start.elapsed(rt)? < limit {
        return println!(rt; "{what}: gave up before its limit");
    }
    println!(rt; "{what}: waited to its limit")
}

/// Makes a request for the square of `root`, and its ticket. `Err`: out of memory.
fn square_of(
    alloc: Global,
    root: u32,
) -> Result<(Request<u32, Square>, Ticket<u32, Square, ()>), AllocError>
    ensures { IfOk result (λ made. made.0.channel.about.question ≡ root) }
{
    request((), alloc, root).map_err(|_| AllocError)
}

fn show_reply<R>(rt: &R, pool: &Pool, tally: &mut Tally) -> io::Result<()>
where
    R: AllocGlobal + Print + Threads + Wait + Clock + RandomSource + Sync,
{
    let time = pool.time();
    let limit = Duration::from_secs(SECONDS);
    let (request, ticket) = square_of(rt.alloc(), 12)?;
    let (_, square) = join(
        rt,
        move || serve(request),
        move || square_within(rt, time, limit, ticket),
    );
    show_value(rt, tally, "ticket", square?)
}

fn show_late_reply<R>(rt: &R, pool: &Pool, tally: &mut Tally) -> io::Result<()>
where
    R: AllocGlobal + Print + Wait + Clock + RandomSource,
{
    let (request, ticket) = square_of(rt.alloc(), 9)?;
    let limit = Duration::from_millis(MILLISECONDS);
    let start = Instant::now(rt)?;
    let square = square_within(rt, pool.time(), limit, ticket)?;
    show_wait(rt, "ticket", start, limit)?;
    show_value(rt, tally, "ticket", square)?;
    show_late_answer(rt, request)
}

/// Answers a request for the square of 9, and prints whether the reply came back.
fn show_late_answer(rt: &impl Print, request: Request<u32, Square>) -> io::Result<()>
    requires { request.channel.about.question ≡ 9 }
{
    match request.answer(Square::of(9)) {
        Ok(()) => println!(rt; "ticket: the reply was sent"),
        Err(refused) => println!(rt; "ticket: {} came back", refused.into_inner().value),
    }
}

fn show_lost_request<R>(rt: &R, pool: &Pool, tally: &mut Tally) -> io::Result<()>
where
    R: AllocGlobal + Print + Wait + Clock + RandomSource,
{
    let (request, ticket) = square_of(rt.alloc(), 7)?;
    drop(request);
    let limit = Duration::from_secs(SECONDS);
    let square = square_within(rt, pool.time(), limit, ticket)?;
    show_value(rt, tally, "ticket", square)
}

fn show_item<R>(rt: &R, pool: &Pool, tally: &mut Tally) -> io::Result<()>
where
    R: AllocGlobal + Print + Threads + Wait + Clock + RandomSource + Sync,
{
    let (sender, index) = async_channel_for((), rt.alloc(), &Below(3))?;
    let limit = Duration::from_secs(SECONDS);
    let (_, item) = join(
        rt,
        move || sender.send_kept(2),
        move ||
            requires { index.channel.about.0 ≡ 3 }
        { item_within(rt, pool.time(), limit, &[10, 20, 30], index) },
    );
    show_value(rt, tally, "promise", item?)
}

fn show_late_item<R>(rt: &R, pool: &Pool, tally: &mut Tally) -> io::Result<()>
where
    R: AllocGlobal + Print + Wait + Clock + RandomSource,
{
    let (sender, index) = async_channel_for((), rt.alloc(), &Below(3))?;
    let limit = Duration::from_millis(MILLISECONDS);
    let start = Instant::now(rt)?;
    let item = item_within(rt, pool.time(), limit, &[10, 20, 30], index)?;
    show_wait(rt, "promise", start, limit)?;
    show_value(rt, tally, "promise", item)?;
    show_late_index(rt, sender)
}

/// Sends an index below 3, and prints whether it came back.
fn show_late_index(rt: &impl Print, sender: Sender<usize, Below>) -> io::Result<()>
    requires { sender.channel.about.0 ≡ 3 }
{
    match sender.send_kept(2) {
        Ok(()) => println!(rt; "promise: the index was sent"),
        Err(refused) => println!(rt; "promise: {} came back", refused.into_inner()),
    }
}

/// Prints how many tasks the pool ran at once.
fn show_meeting<R>(rt: &R, pool: &Pool) -> io::Result<()>
where
    R: AllocGlobal + Print + Threads + Wait + Clock + RandomSource + Sync,
{
    let together = met(rt, pool, WORKERS)?;
    println!(rt; "pool: {together} tasks at once")
}

fn show_server<R>(rt: &R, pool: &Pool, tally: &mut Tally) -> io::Result<()>
where
    R: AllocGlobal + Print + Threads + Wait + Clock + RandomSource + Sync,
{
    let roots = [3, 5, 8, 13, 21, 34, 55, 89];
    let outcome = asked(rt, pool, &roots, 144, Duration::from_secs(SECONDS))?;
    for reply in outcome.replies {
        show_value(rt, tally, "server", reply.square)?;
    }
    show_given_up(rt, outcome.given_up)?;
    show_value(rt, tally, "after the stop", outcome.after.square)
}

/// Prints how the server dealt with the request that was given up.
fn show_given_up(rt: &impl Print, given_up: Option<Service>) -> io::Result<()> {
    match given_up {
        Some(service) => println!(rt; "given up: {service:?}"),
        None => println!(rt; "given up: no report"),
    }
}
