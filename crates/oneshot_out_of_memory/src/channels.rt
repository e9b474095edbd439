//! Attempts to make a channel, and a request with its channel.

use crate::counted::{Counted, ensure_dropped};
use crate::outcome::{Outcome, Wrong, ensure, made_again};
use futures::executor::block_on;
use oneshot::reply::{Length, Request, Ticket, request};
use oneshot::{AsyncReceiver, Receiver, Sender, async_channel, channel};
use std::alloc::AllocError;
use std::random::RandomSource;
use std::sync::Wait;
use std::sync::atomic::AtomicU64;

/// The question of a request.
pub(crate) const TEXT: &str = "data from sync thread";

/// Calls `channel`. A refusal has to drop the runtime.
pub(crate) fn make_channel<R: AllocGlobal>(rt: &R, drops: &AtomicU64) -> Result<Outcome, Wrong> {
    if open(rt, drops).is_ok() {
        return Ok(Outcome::Made);
    }
    ensure_dropped(drops, 1)?;
    let (sender, receiver) = open(rt, drops)?;
    made_again(carries(sender, receiver))
}

fn open<'a, R: AllocGlobal>(
    rt: &'a R,
    drops: &'a AtomicU64,
) -> Result<(Sender<u8>, Receiver<u8, Counted<'a, R>>), AllocError> {
    channel(Counted::new(rt, drops), rt.alloc())
}

/// Whether a message goes through a channel.
fn carries<Rt: Drop>(sender: Sender<u8>, mut receiver: Receiver<u8, Rt>) -> bool {
    sender.send(7).is_ok() && matches!(receiver.try_recv(), Ok(7))
}

/// Calls `async_channel`. A refusal has to drop the runtime.
pub(crate) fn make_async_channel<R: Wait + RandomSource + AllocGlobal>(
    rt: &R,
    drops: &AtomicU64,
) -> Result<Outcome, Wrong> {
    if open_async(rt, drops).is_ok() {
        return Ok(Outcome::Made);
    }
    ensure_dropped(drops, 1)?;
    let (sender, receiver) = open_async(rt, drops)?;
    ensure(sender.send(7).is_ok(), Wrong::Broken)?;
    match block_on(rt, receiver) {
        Ok(received) => made_again(matches!(received, Ok(7))),
        Err(_) => Err(Wrong::RefusedAgain),
    }
}

fn open_async<'a, R: AllocGlobal>(
    rt: &'a R,
    drops: &'a AtomicU64,
) -> Result<(Sender<u8>, AsyncReceiver<u8, Counted<'a, R>>), AllocError> {
    async_channel(Counted::new(rt, drops), rt.alloc())
}

/// Calls `request`, after an allocation for the question. A refusal has to return it, and drop the runtime.
pub(crate) fn make_request<R: AllocGlobal>(rt: &R, drops: &AtomicU64) -> Result<Outcome, Wrong> {
    let question = String::from_str(rt.alloc(), TEXT)?;
    let first = request::<_, Length, _>(Counted::new(rt, drops), rt.alloc(), question);
    match first {
        Ok(_) => Ok(Outcome::Made),
        Err(question) => request_again(rt, drops, question),
    }
}

/// Makes a request with the question that a refusal returned, and takes the reply.
fn request_again<R: AllocGlobal>(
    rt: &R,
    drops: &AtomicU64,
    question: String,
) -> Result<Outcome, Wrong> {
    ensure_dropped(drops, 1)?;
    ensure(question.as_str() == TEXT, Wrong::QuestionChanged)?;
    match request(Counted::new(rt, drops), rt.alloc(), question) {
        Ok((request, ticket)) => take_reply(request, ticket),
        Err(_) => Err(Wrong::RefusedAgain),
    }
}

/// Answers a request, and takes the reply by its ticket.
fn take_reply<Rt: Drop>(
    request: Request<String, Length>,
    mut ticket: Ticket<String, Length, Rt>,
) -> Result<Outcome, Wrong> {
    ensure(answers(request)?, Wrong::Broken)?;
    match ticket.try_take() {
        Ok(reply) => made_again(reply.bytes() == 21),
        Err(_) => Err(Wrong::Broken),
    }
}

/// Answers a request. Returns whether the reply fits and was sent.
fn answers(request: Request<String, Length>) -> Result<bool, AllocError> {
    let length = Length::of(request.question().clone()?);
    Ok(request.fits(&length) && request.answer(length).is_ok())
}
