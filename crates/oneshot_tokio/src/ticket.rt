//! A ticket that is awaited with a deadline: its reply is right for its question.

ghost use Rattle.std.specs.Prelude.{◌≡◌, ◌*◌, IfOk};

use crate::square::Square;
use crate::within::recv_within;
use futures::executor::block_on;
use oneshot_channel::RecvTimeoutError;
use oneshot_channel::reply::Ticket;
use std::alloc::AllocGlobal;
use std::io;
use std::random::RandomSource;
use std::sync::Wait;
use std::time::{Clock, Duration};
use tokio::time::Handle;

/// Awaits the square of the ticket's number, for at most `limit`.
///
/// `rt` runs this thread, and `time` makes the timer. Inner `Ok`: the square. `Err(Timeout)`: no reply came
/// in time. `Err(Disconnected)`: none will come. Outer `Err`: out of memory, no clock, or the executor failed.
pub fn square_within<R: Wait + Clock + RandomSource + AllocGlobal, Rt: Drop>(
    rt: &R,
    time: &Handle,
    limit: Duration,
    ticket: Ticket<u32, Square, Rt>,
) -> io::Result<Result<u64, RecvTimeoutError>>
    ensures right { IfOk result (λ reply. IfOk reply
        (λ value. value ≡ ticket.channel.about.question * ticket.channel.about.question)) }
{
    let reply = recv_within(rt, time, limit, ticket.into_future())?;
    Ok(block_on(rt, reply)?.map(|square| square.value))
}
