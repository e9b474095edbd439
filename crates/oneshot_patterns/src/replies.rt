//! Two requests at once, for which one task awaits both replies or the first to come.

ghost use Rattle.std.specs.Prelude.{◌≡◌, ◌*◌, IfOk, IfSome};

use crate::request::{Asked, Request, Square, answer_to, ask};
use futures::executor::block_on;
use futures::future::{Either, join, select};
use oneshot_channel::{AsyncReceiver, RecvError};
use std::alloc::{AllocGlobal, Global};
use std::random::RandomSource;
use std::sync::Wait;
use std::thread::Threads;
use std::{io, thread};

/// The squares that two requests ask for, each `None` if its reply did not come.
pub type Answers = (Option<u64>, Option<u64>);

/// Awaits the replies to two requests, in whichever order they come.
///
/// `rt` is the executor's runtime, and `first` and `second` have the receivers. A square is `None` if its
/// request was dropped without a reply, or the reply is of another number. `Err`: the executor failed.
pub fn both_replies<R, Rt>(rt: &R, first: Asked<Rt>, second: Asked<Rt>) -> io::Result<Answers>
where
    R: Wait + RandomSource + AllocGlobal,
    Rt: Drop,
    ensures first { IfOk result (λ both. IfSome both.0 (λ value. value ≡ first.root * first.root)) }
    ensures second { IfOk result (λ both. IfSome both.1 (λ value. value ≡ second.root * second.root)) }
{
    let (first_root, second_root) = (first.root, second.root);
    let replies = join(first.reply.into_future(), second.reply.into_future());
    let (first, second) = block_on(rt, replies)?;
    Ok((answer_to(first_root, first), answer_to(second_root, second)))
}

/// Returns the square of `root` that `reply` has, or else awaits `other`. `Err`: the executor failed.
fn answer_or_await<R, Rt>(
    rt: &R,
    root: u32,
    reply: Result<Square, RecvError>,
    other: AsyncReceiver<Square, Rt>,
) -> io::Result<Option<u64>>
where
    R: Wait + RandomSource + AllocGlobal,
    Rt: Drop,
    ensures { IfOk result (λ answer. IfSome answer (λ value. value ≡ root * root)) }
{
    match answer_to(root, reply) {
        Some(value) => Ok(Some(value)),
        None => Ok(answer_to(root, block_on(rt, other)?)),
    }
}

/// Awaits the first reply to two requests for the square of one number.
///
/// `rt` is the executor's runtime, `root` the number, and `first` and `second` are the futures of its
/// square. If the first to be ready has no square of `root`, awaits the other. `None`: neither has one.
/// `Err`: the executor failed.
pub fn first_reply<R, Rt>(
    rt: &R,
    root: u32,
    first: AsyncReceiver<Square, Rt>,
    second: AsyncReceiver<Square, Rt>,
) -> io::Result<Option<u64>>
where
    R: Wait + RandomSource + AllocGlobal,
    Rt: Drop,
    ensures { IfOk result (λ answer. IfSome answer (λ value. value ≡ root * root)) }
{
    match block_on(rt, select(first, second))? {
        Either::Left((reply, other)) => answer_or_await(rt, root, reply, other),
        Either::Right((reply, other)) => answer_or_await(rt, root, reply, other),
    }
}

/// Serves both requests, on two threads.
fn serve_both<R: Threads + Sync>(rt: &R, first: Request, second: Request) {
    let _ = thread::join(rt, move || first.serve(), move || second.serve());
}

/// Runs `await_replies` while other threads serve two requests, and returns what it returns.
fn beside_servers<R: Threads + Sync, A, F: FnOnce() -> A>(
    rt: &R,
    first: Request,
    second: Request,
    await_replies: F,
) -> A
    requires { F.pre await_replies }
    ensures { F.post await_replies result }
{
    let (_, replies) = thread::join(rt, move || serve_both(rt, first, second), await_replies);
    replies
}

/// Requests the squares of two numbers, each from its own thread, and awaits both replies.
///
/// `rt` is the runtime of the threads and of the executor, `alloc` allocates both channels, and `first` and
/// `second` are the numbers. A square is `None` if it did not come. `Err`: out of memory, or the executor
/// failed.
pub fn both_squares<R: Threads + Wait + RandomSource + AllocGlobal + Sync>(
    rt: &R,
    alloc: Global,
    first: u32,
    second: u32,
) -> io::Result<Answers>
    ensures first { IfOk result (λ both. IfSome both.0 (λ value. value ≡ first * first)) }
    ensures second { IfOk result (λ both. IfSome both.1 (λ value. value ≡ second * second)) }
{
    let (first_request, first) = ask((), alloc, first)?;
    let (second_request, second) = ask((), alloc, second)?;
    beside_servers(rt, first_request, second_request, move || {
        both_replies(rt, first, second)
    })
}

/// Requests the square of one number from two threads, and awaits the first reply.
///
/// `rt` is the runtime of the threads and of the executor, `alloc` allocates both channels, and `root` is
/// the number. `None`: no square of it came. `Err`: out of memory, or the executor failed.
pub fn first_square<R: Threads + Wait + RandomSource + AllocGlobal + Sync>(
    rt: &R,
    alloc: Global,
    root: u32,
) -> io::Result<Option<u64>>
    ensures { IfOk result (λ answer. IfSome answer (λ value. value ≡ root * root)) }
{
    let (first_request, first) = ask((), alloc, root)?;
    let (second_request, second) = ask((), alloc, root)?;
    beside_servers(rt, first_request, second_request, move || {
        let (first, second) = (first.reply.into_future(), second.reply.into_future());
        first_reply(rt, root, first, second)
    })
}
