//! A channel under a promise that is awaited with a deadline: its message keeps the promise.

ghost use Rattle.std.specs.Prelude.{◌≡◌, ◌<◌, IfOk, length};

use crate::within::recv_within;
use futures::executor::block_on;
use oneshot_channel::{AsyncReceiver, Promise, RecvTimeoutError};
use std::alloc::AllocGlobal;
use std::io;
use std::random::RandomSource;
use std::sync::Wait;
use std::time::{Clock, Duration};
use tokio::time::Handle;

/// Promises an index below this length.
#[derive(Drop)]
pub struct Below(pub usize);

impl Promise<usize> for Below {
    ghost use Rattle.std.specs.Prelude.{◌<◌};

    ghost keeps = { λ below index. index < below.0 };
}

/// Awaits an index, for at most `limit`.
///
/// `rt` runs this thread, and `time` makes the timer. Inner `Ok`: the index, below the promised length.
/// `Err(Timeout)`: none came in time. `Err(Disconnected)`: none will come. Outer `Err`: out of memory, no
/// clock, or the executor failed.
pub fn index_within<R: Wait + Clock + RandomSource + AllocGlobal, Rt: Drop>(
    rt: &R,
    time: &Handle,
    limit: Duration,
    index: AsyncReceiver<usize, Rt, Below>,
) -> io::Result<Result<usize, RecvTimeoutError>>
    ensures promise { IfOk result (λ came. IfOk came (λ i. i < index.channel.about.0)) }
{
    block_on(rt, recv_within(rt, time, limit, index)?)
}

/// Awaits an index, for at most `limit`, and returns the item there, which needs no comparison.
///
/// `items` has as many items as the channel promises. The rest is as of `index_within`.
pub fn item_within<R: Wait + Clock + RandomSource + AllocGlobal, Rt: Drop>(
    rt: &R,
    time: &Handle,
    limit: Duration,
    items: &[u64],
    index: AsyncReceiver<usize, Rt, Below>,
) -> io::Result<Result<u64, RecvTimeoutError>>
    requires { index.channel.about.0 ≡ length items.now }
{
    Ok(index_within(rt, time, limit, index)?.map(|index| items[index]))
}
