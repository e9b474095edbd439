//! Attempts to make a guard with its watch, and a request whose server is told when nobody waits.

use crate::channels::TEXT;
use crate::counted::{Counted, ensure_dropped};
use crate::outcome::{Outcome, Wrong, ensure, made_again};
use oneshot::reply::Length;
use oneshot::watch::{
    CancellableRequest, CancellableTicket, Guard, Watch, cancellable_request, watch,
};
use std::alloc::AllocError;
use std::sync::atomic::AtomicU64;

/// Calls `watch`. A refusal has to drop the runtime.
pub(crate) fn make_watch<R: AllocGlobal>(rt: &R, drops: &AtomicU64) -> Result<Outcome, Wrong> {
    if open(rt, drops).is_ok() {
        return Ok(Outcome::Made);
    }
    ensure_dropped(drops, 1)?;
    let (guard, watch) = open(rt, drops)?;
    made_again(sees_it_go(guard, watch))
}

fn open<'a, R: AllocGlobal>(
    rt: &'a R,
    drops: &'a AtomicU64,
) -> Result<(Guard, Watch<Counted<'a, R>>), AllocError> {
    watch(Counted::new(rt, drops), rt.alloc())
}

/// Whether a watch sees that its guard is there, and that it goes.
fn sees_it_go<Rt: Drop>(guard: Guard, mut watch: Watch<Rt>) -> bool {
    let is_early = watch.is_gone();
    drop(guard);
    !is_early && watch.is_gone()
}

/// Calls `cancellable_request`, after an allocation for the question. A refusal has to return it, and drop both
/// runtimes.
pub(crate) fn make_cancellable_request<R: AllocGlobal>(
    rt: &R,
    drops: &AtomicU64,
) -> Result<Outcome, Wrong> {
    let question = String::from_str(rt.alloc(), TEXT)?;
    let (asker, server) = (Counted::new(rt, drops), Counted::new(rt, drops));
    let first = cancellable_request::<_, Length, _, _>(asker, server, rt.alloc(), question);
    match first {
        Ok(_) => Ok(Outcome::Made),
        Err(question) => request_again(rt, drops, question),
    }
}

/// Makes a request with the question that a refusal returned, and takes the reply.
fn request_again<R: AllocGlobal>(
    rt: &R,
    drops: &AtomicU64,
    question: String,
) -> Result<Outcome, Wrong> {
    ensure_dropped(drops, 2)?;
    ensure(question.as_str() == TEXT, Wrong::QuestionChanged)?;
    let (asker, server) = (Counted::new(rt, drops), Counted::new(rt, drops));
    match cancellable_request(asker, server, rt.alloc(), question) {
        Ok((request, ticket)) => take_reply(request, ticket),
        Err(_) => Err(Wrong::RefusedAgain),
    }
}

/// Answers a request, and takes the reply by its ticket.
fn take_reply<Asker: Drop, Server: Drop>(
    request: CancellableRequest<String, Length, Server>,
    mut ticket: CancellableTicket<String, Length, Asker>,
) -> Result<Outcome, Wrong> {
    ensure(answers(request)?, Wrong::Broken)?;
    match ticket.try_take() {
        Ok(reply) => made_again(reply.bytes() == 21),
        Err(_) => Err(Wrong::Broken),
    }
}

/// Answers a request. Returns whether the reply fits and was sent.
fn answers<Server: Drop>(
    request: CancellableRequest<String, Length, Server>,
) -> Result<bool, AllocError> {
    let length = Length::of(request.question().clone()?);
    Ok(request.fits(&length) && request.answer(length).is_ok())
}
