//! The round trips of `round_trip`, over Rattle's `crossbeam_channel`.

ghost use Rattle.std.specs.Prelude.{◌≡◌, IfOk, vec_len};

use crate::fault::Fault;
use crate::request;
use crate::round_trip::{BATCH, join_halves, put_ends};
use crate::tally::Tally;
use crossbeam_channel::{Receiver, Sender, bounded};
use std::alloc::Global;
use std::mem::size_of;
use std::sync::Wait;
use std::thread::Threads;

/// A request of this round trip.
pub type Request = request::Request<Sender<(), Global>>;

/// Sends a request over `requests`, and blocks until its reply comes over a channel made for it.
///
/// `Err`: out of memory, or nobody replied.
pub fn ask<R: Wait>(
    rt: &R,
    alloc: Global,
    requests: Sender<Request, Global>,
    tally: &mut Tally,
) -> Result<(), Fault> {
    let (reply, replies) = bounded(alloc, 1)?;
    tally.made(0);
    let sent = requests.send(rt, Request { reply }).is_ok();
    drop(requests);
    if !sent || replies.recv(rt).is_err() {
        return Err(Fault::MessageLost);
    }
    tally.waited();
    Ok(())
}

/// Blocks until a request comes, and replies. `Err`: no request came, or nobody waits for the reply.
pub fn serve<R: Wait>(
    rt: &R,
    requests: Receiver<Request, Global>,
    tally: &mut Tally,
) -> Result<(), Fault> {
    let Ok(Request { reply }) = requests.recv(rt) else {
        return Err(Fault::MessageLost);
    };
    tally.waited();
    if reply.send(rt, ()).is_err() {
        return Err(Fault::MessageLost);
    }
    Ok(())
}

/// Sends a request over each channel in turn, and returns how many replies came.
fn ask_all<R: Wait>(
    rt: &R,
    alloc: Global,
    all: Vec<Sender<Request, Global>>,
) -> Result<(u64, Tally), Fault>
    ensures { IfOk result (λ asked. asked.0 ≡ vec_len all) }
{
    let mut tally = Tally::new();
    let mut replies = 0;
    for requests in all {
        ask(rt, alloc, requests, &mut tally)?;
        replies += 1;
    }
    Ok((replies, tally))
}

/// Serves a request from each channel in turn.
fn serve_all<R: Wait>(rt: &R, all: Vec<Receiver<Request, Global>>) -> Result<Tally, Fault> {
    let mut tally = Tally::new();
    for requests in all {
        serve(rt, requests, &mut tally)?;
    }
    Ok(tally)
}

/// Makes a channel for each request of a batch.
fn channels(
    alloc: Global,
    count: u64,
    tally: &mut Tally,
) -> Result<(Vec<Sender<Request, Global>>, Vec<Receiver<Request, Global>>), Fault>
    ensures { IfOk result (λ ends. vec_len ends.0 ≡ count) }
{
    let mut senders = Vec::new(alloc);
    let mut receivers = Vec::new(alloc);
    for _opened in 0..count {
        let (sender, receiver) = bounded(alloc, 1)?;
        tally.made(size_of::<Request>());
        put_ends(sender, receiver, &mut senders, &mut receivers)?;
    }
    Ok((senders, receivers))
}

/// Makes `count` round trips with a thread started for them, and returns how many.
fn batch<R: Threads + Wait + Sync>(
    rt: &R,
    alloc: Global,
    count: u64,
    tally: &mut Tally,
) -> Result<u64, Fault>
    ensures { IfOk result (λ made. made ≡ count) }
{
    let (senders, receivers) = channels(alloc, count, tally)?;
    let (replies, _) = join_halves(
        rt,
        move || ask_all(rt, alloc, senders),
        move || serve_all(rt, receivers),
        tally,
    )?;
    Ok(replies)
}

/// As `round_trip::round_trips`.
pub fn round_trips<R: Threads + Wait + Sync>(
    rt: &R,
    alloc: Global,
    count: u64,
    tally: &mut Tally,
) -> Result<u64, Fault>
    ensures { IfOk result (λ made. made ≡ count) }
{
    let mut made = 0;
    for _batches in 0..count / BATCH {
        made += batch(rt, alloc, BATCH, tally)?;
    }
    Ok(made + batch(rt, alloc, count % BATCH, tally)?)
}
