//! The round trips of `round_trip`, but each thread awaits futures in a queue that it keeps.

ghost use Rattle.std.specs.Prelude.{◌≡◌, IfOk, vec_len};

use crate::fault::Fault;
use crate::queues::{awaited, queue};
use crate::request;
use crate::round_trip::{BATCH, join_halves, put_ends};
use crate::tally::Tally;
use futures::task::Queue;
use oneshot_channel::{AsyncReceiver, Sender, async_channel};
use std::alloc::{AllocGlobal, Global};
use std::mem::size_of;
use std::random::RandomSource;
use std::sync::Wait;
use std::thread::Threads;

/// A request of this round trip.
pub type Request = request::Request<Sender<()>>;

/// Sends a request over `requests`, and awaits its reply in `queue`, over a channel made for it.
///
/// `Err`: out of memory, no task could be made, or nobody replied.
pub fn ask<R: Wait>(
    rt: &R,
    queue: &Queue,
    alloc: Global,
    requests: Sender<Request>,
    tally: &mut Tally,
) -> Result<(), Fault> {
    let (reply, replies) = async_channel::<(), ()>((), alloc)?;
    tally.made(0);
    if requests.send(Request { reply }).is_err() {
        return Err(Fault::MessageLost);
    }
    awaited(rt, queue, replies)?;
    tally.polled();
    Ok(())
}

/// Awaits a request in `queue`, and replies. `Err`: no task, no request, or nobody awaits the reply.
pub fn serve<R: Wait>(
    rt: &R,
    queue: &Queue,
    requests: AsyncReceiver<Request, ()>,
    tally: &mut Tally,
) -> Result<(), Fault> {
    let Request { reply } = awaited(rt, queue, requests)?;
    tally.polled();
    if reply.send(()).is_err() {
        return Err(Fault::MessageLost);
    }
    Ok(())
}

/// Sends a request over each channel in turn, and returns how many replies came.
fn ask_all<R: Wait + RandomSource + AllocGlobal>(
    rt: &R,
    alloc: Global,
    all: Vec<Sender<Request>>,
) -> Result<(u64, Tally), Fault>
    ensures { IfOk result (λ asked. asked.0 ≡ vec_len all) }
{
    let queue = queue(rt)?;
    let mut tally = Tally::new();
    let mut replies = 0;
    for requests in all {
        ask(rt, &queue, alloc, requests, &mut tally)?;
        replies += 1;
    }
    Ok((replies, tally))
}

/// Serves a request from each channel in turn.
fn serve_all<R: Wait + RandomSource + AllocGlobal>(
    rt: &R,
    all: Vec<AsyncReceiver<Request, ()>>,
) -> Result<Tally, Fault> {
    let queue = queue(rt)?;
    let mut tally = Tally::new();
    for requests in all {
        serve(rt, &queue, requests, &mut tally)?;
    }
    Ok(tally)
}

/// Makes a channel for each request of a batch.
fn channels(
    alloc: Global,
    count: u64,
    tally: &mut Tally,
) -> Result<(Vec<Sender<Request>>, Vec<AsyncReceiver<Request, ()>>), Fault>
    ensures { IfOk result (λ ends. vec_len ends.0 ≡ count) }
{
    let mut senders = Vec::new(alloc);
    let mut receivers = Vec::new(alloc);
    for _opened in 0..count {
        let (sender, receiver) = async_channel::<Request, ()>((), alloc)?;
        tally.made(size_of::<Request>());
        put_ends(sender, receiver, &mut senders, &mut receivers)?;
    }
    Ok((senders, receivers))
}

/// Makes `count` round trips with a thread started for them, and returns how many.
fn batch<R: Threads + Wait + Sync + RandomSource + AllocGlobal>(
    rt: &R,
    alloc: Global,
    count: u64,
    tally: &mut Tally,
) -> Result<u64, Fault>
    ensures { IfOk result (λ made. made ≡ count) }
{
    let (senders, receivers) = channels(alloc, count, tally)?;
    let (replies, _) = join_halves(
        rt,
        move || ask_all(rt, alloc, senders),
        move || serve_all(rt, receivers),
        tally,
    )?;
    Ok(replies)
}

/// As `round_trip::round_trips`. `Err` also: no queue or task could be made.
pub fn round_trips<R: Threads + Wait + Sync + RandomSource + AllocGlobal>(
    rt: &R,
    alloc: Global,
    count: u64,
    tally: &mut Tally,
) -> Result<u64, Fault>
    ensures { IfOk result (λ made. made ≡ count) }
{
    let mut made = 0;
    for _batches in 0..count / BATCH {
        made += batch(rt, alloc, BATCH, tally)?;
    }
    Ok(made + batch(rt, alloc, count % BATCH, tally)?)
}
