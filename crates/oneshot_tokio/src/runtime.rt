//! The uses under tokio's own runtime. Nothing here runs them: a `Runtime` is made with the permission `Net`, which no
//! crate of this repository may have (`HANDLES`), not even in a test. They are proved, and their parts run on a `Pool`.

ghost use Rattle.std.specs.Prelude.{◌≡◌, ◌*◌, ◌<◌, IfOk};

use crate::promised::Below;
use crate::server::Server;
use crate::square::Square;
use crate::within::recv_within;
use futures::future::ready;
use futures::{FutureExt, StreamExt};
use oneshot_channel::reply::Ticket;
use oneshot_channel::{AsyncReceiver, RecvTimeoutError};
use std::alloc::AllocGlobal;
use std::io;
use std::random::RandomSource;
use std::sync::Wait;
use std::thread::Threads;
use std::time::{Clock, Duration};
use tokio::runtime::Runtime;

/// As `ticket::square_within`, under `runtime`.
pub fn square_within<R, Rt>(
    rt: &R,
    runtime: &mut Runtime,
    limit: Duration,
    ticket: Ticket<u32, Square, Rt>,
) -> io::Result<Result<u64, RecvTimeoutError>>
where
    R: Wait + Threads + Clock + RandomSource + AllocGlobal + Sync,
    Rt: Drop,
    ensures right { IfOk result (λ reply. IfOk reply
        (λ value. value ≡ ticket.channel.about.question * ticket.channel.about.question)) }
{
    let reply = recv_within(rt, runtime.handle().time(), limit, ticket.into_future())?;
    Ok(runtime.block_on(rt, reply)?.map(|square| square.value))
}

/// As `promised::index_within`, under `runtime`.
pub fn index_within<R, Rt>(
    rt: &R,
    runtime: &mut Runtime,
    limit: Duration,
    index: AsyncReceiver<usize, Rt, Below>,
) -> io::Result<Result<usize, RecvTimeoutError>>
where
    R: Wait + Threads + Clock + RandomSource + AllocGlobal + Sync,
    Rt: Drop,
    ensures promise { IfOk result (λ came. IfOk came (λ i. i < index.channel.about.0)) }
{
    let index = recv_within(rt, runtime.handle().time(), limit, index)?;
    runtime.block_on(rt, index)
}

impl Server {
    /// As `run`, on the threads of `runtime`.
    pub fn run_on<R>(self, rt: &R, runtime: &mut Runtime) -> io::Result<()>
    where
        R: Wait + Threads + Clock + RandomSource + AllocGlobal + Sync,
    {
        let Server { jobs, stopped } = self;
        let tasks = jobs.take_until(stopped);
        runtime.run_all(rt, tasks.map(|job| ready(job).map(|job| job.run())))
    }
}
