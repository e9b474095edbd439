//! Round trips between two threads, with a new channel for each request and for each reply.

ghost use Rattle.std.specs.Prelude.{◌≡◌, ◌+◌, Ok, IfOk, vec_len};

use crate::fault::Fault;
use crate::request;
use crate::tally::Tally;
use oneshot_channel::{Receiver, Sender, channel};
use std::alloc::{AllocError, Global};
use std::mem::size_of;
use std::sync::Wait;
use std::thread::{Threads, join};
use std::time::Clock;

/// The most round trips that one started thread makes.
pub const BATCH: u64 = 1024;

/// A request of this round trip.
pub type Request = request::Request<Sender<()>>;

/// Sends a request over `requests`, and blocks until its reply comes over a channel made for it.
///
/// `Err`: out of memory, or nobody replied.
pub fn ask<Rt: Wait + Clock + Drop>(
    rt: Rt,
    alloc: Global,
    requests: Sender<Request>,
    tally: &mut Tally,
) -> Result<(), Fault> {
    let (reply, replies) = channel(rt, alloc)?;
    tally.made(0);
    if requests.send(Request { reply }).is_err() || replies.recv().is_err() {
        return Err(Fault::MessageLost);
    }
    tally.waited();
    Ok(())
}

/// Blocks until a request comes, and replies. `Err`: no request came, or nobody waits for the reply.
pub fn serve<Rt: Wait + Clock + Drop>(
    requests: Receiver<Request, Rt>,
    tally: &mut Tally,
) -> Result<(), Fault> {
    let Ok(Request { reply }) = requests.recv() else {
        return Err(Fault::MessageLost);
    };
    tally.waited();
    if reply.send(()).is_err() {
        return Err(Fault::MessageLost);
    }
    Ok(())
}

/// Sends a request over each channel in turn, and returns how many replies came.
fn ask_all<R: Wait + Clock>(
    rt: &R,
    alloc: Global,
    all: Vec<Sender<Request>>,
) -> Result<(u64, Tally), Fault>
    ensures { IfOk result (λ asked. asked.0 ≡ vec_len all) }
{
    let mut tally = Tally::new();
    let mut replies = 0;
    for requests in all {
        ask(rt, alloc, requests, &mut tally)?;
        replies += 1;
    }
    Ok((replies, tally))
}

/// Serves a request from each channel in turn.
fn serve_all<Rt: Wait + Clock + Drop>(all: Vec<Receiver<Request, Rt>>) -> Result<Tally, Fault> {
    let mut tally = Tally::new();
    for requests in all {
        serve(requests, &mut tally)?;
    }
    Ok(tally)
}

/// Puts both ends of a channel into their lists. `Err`: out of memory.
pub(crate) fn put_ends<S: Drop, R: Drop>(
    sender: S,
    receiver: R,
    senders: &mut Vec<S>,
    receivers: &mut Vec<R>,
) -> Result<(), AllocError>
    ensures { IfOk result (λ _. vec_len senders.new ≡ vec_len senders.old + 1) }
{
    senders.push(sender)?;
    receivers.push(receiver)?;
    Ok(())
}

/// Makes a channel for each request of a batch.
fn channels<'r, R>(
    rt: &'r R,
    alloc: Global,
    count: u64,
    tally: &mut Tally,
) -> Result<(Vec<Sender<Request>>, Vec<Receiver<Request, &'r R>>), Fault>
    ensures { IfOk result (λ ends. vec_len ends.0 ≡ count) }
{
    let mut senders = Vec::new(alloc);
    let mut receivers = Vec::new(alloc);
    for _opened in 0..count {
        let (sender, receiver) = channel(rt, alloc)?;
        tally.made(size_of::<Request>());
        put_ends(sender, receiver, &mut senders, &mut receivers)?;
    }
    Ok((senders, receivers))
}

/// Runs both halves of a batch, `asker` on a new thread, and adds what they counted to `tally`.
///
/// `Ok`: what `asker` returned, whose tally is in `tally` already. `Err`: the fault of a half.
pub(crate) fn join_halves<R: Threads, A, S>(
    rt: &R,
    asker: A,
    server: S,
    tally: &mut Tally,
) -> Result<(u64, Tally), Fault>
where
    A: FnOnce() -> Result<(u64, Tally), Fault> + Send,
    S: FnOnce() -> Result<Tally, Fault>,
    requires asks { A.pre asker }
    requires serves { S.pre server }
    ensures { IfOk result (λ asked. A.post asker (Ok asked)) }
{
    let (asked, served) = join(rt, asker, server);
    let asked = asked?;
    tally.add(asked.1);
    tally.add(served?);
    Ok(asked)
}

/// Makes `count` round trips with a thread started for them, and returns how many.
fn batch<R: Threads + Wait + Clock + Sync>(
    rt: &R,
    alloc: Global,
    count: u64,
    tally: &mut Tally,
) -> Result<u64, Fault>
    ensures { IfOk result (λ made. made ≡ count) }
{
    let (senders, receivers) = channels(rt, alloc, count, tally)?;
    // The asker runs on the new thread, so that only senders move there.
    let (replies, _) = join_halves(
        rt,
        move || ask_all(rt, alloc, senders),
        move || serve_all(receivers),
        tally,
    )?;
    Ok(replies)
}

/// Makes `count` round trips, a batch at a time, and returns how many it made.
///
/// `Err`: out of memory, or a request or a reply was lost. Blocks forever if no thread can be started.
pub fn round_trips<R: Threads + Wait + Clock + Sync>(
    rt: &R,
    alloc: Global,
    count: u64,
    tally: &mut Tally,
) -> Result<u64, Fault>
    ensures { IfOk result (λ made. made ≡ count) }
{
    let mut made = 0;
    for _batches in 0..count / BATCH {
        made += batch(rt, alloc, BATCH, tally)?;
    }
    Ok(made + batch(rt, alloc, count % BATCH, tally)?)
}
