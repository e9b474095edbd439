//! Requests that a client puts into a server's queue, each with a deadline for its reply.

ghost use Rattle.std.specs.Prelude.{◌≡◌, ◌*◌, ℕ, Ok, IfOk, map};
ghost use Rattle.tokio.specs.Timers.{timeout_future};

use crate::server::{Job, Service};
use crate::square::Square;
use crate::within::{Within, recv_within};
use futures::executor::block_on;
use oneshot_channel::reply::{Asked, Ticket, request};
use oneshot_channel::{AsyncReceiver, RecvTimeoutError, async_channel};
use std::alloc::{AllocError, AllocGlobal, Global};
use std::io;
use std::random::RandomSource;
use std::sync::Wait;
use std::time::{Clock, Duration};
use tokio::sync::mpsc::UnboundedSender;
use tokio::time::Handle;

/// A number whose square was asked for.
#[derive(Drop)]
pub struct Reply {
    /// The number.
    pub root: u32,
    /// Its square, or why there is none.
    pub square: Result<u64, RecvTimeoutError>,
    ghost right: { (value : ℕ) → square ≡ Ok value → value ≡ root * root },
}

/// A number whose square is awaited.
#[derive(Drop)]
pub struct Pending {
    /// The number.
    pub root: u32,
    /// The future of its square, with a deadline.
    pub square: Within<Square, (), Asked<u32>>,
    ghost own: { (timeout_future square.receiver).channel.about.question ≡ root },
}

impl Pending {
    /// Awaits the square, under an executor on the runtime `rt`. `Err`: the executor failed.
    pub fn reply<R: Wait + RandomSource + AllocGlobal>(self, rt: &R) -> io::Result<Reply>
        ensures { IfOk result (λ reply. reply.root ≡ self.root) }
    {
        let Pending { root, square } = self;
        let square = block_on(rt, square)?.map(|square| square.value);
        Ok(Reply { root, square })
    }
}

/// A job for the server, the ticket for its reply, and the receiver of the server's report.
type Parts = (Job, Ticket<u32, Square, ()>, AsyncReceiver<Service, ()>);

/// Makes a job for the square of `root`. `Err`: out of memory.
fn job_for(alloc: Global, root: u32) -> Result<Parts, AllocError>
    ensures { IfOk result (λ made. made.1.channel.about.question ≡ root) }
{
    let (request, ticket) = request((), alloc, root).map_err(|_| AllocError)?;
    let (report, reported) = async_channel((), alloc)?;
    Ok((Job { request, report }, ticket, reported))
}

/// What asks a server.
#[derive(Drop)]
pub struct Client<'a, R> {
    /// The runtime of this thread.
    pub rt: &'a R,
    /// What makes the timers.
    pub time: &'a Handle,
    /// The sender of the server's queue.
    pub jobs: &'a UnboundedSender<Job>,
    /// The longest wait for each reply.
    pub limit: Duration,
}

impl<R: Clock + AllocGlobal> Client<'_, R> {
    /// Asks for the square of `root`. `Err`: out of memory, or no clock.
    pub fn ask(&self, root: u32) -> io::Result<Pending>
        ensures { IfOk result (λ pending. pending.root ≡ root) }
    {
        let (job, ticket, _) = job_for(self.rt.alloc(), root)?;
        let square = recv_within(self.rt, self.time, self.limit, ticket.into_future())?;
        // A job that the queue refuses is dropped here, so no reply will come.
        let _ = self.jobs.send(job);
        Ok(Pending { root, square })
    }

    /// Asks for the square of each number. `Err`: out of memory, or no clock.
    pub fn ask_all(&self, roots: &[u32]) -> io::Result<Vec<Pending>>
        ensures { IfOk result (λ all. map (λ p. p.root) all.items ≡ roots.now) }
    {
        let mut all = Vec::new(self.rt.alloc());
        for root in roots {
            all.push(self.ask(*root)?)?;
        }
        Ok(all)
    }

    /// Asks for the square of `root`, and gives up at once. The result is the future of the server's report.
    ///
    /// `Err`: out of memory, or no clock.
    pub fn give_up(&self, root: u32) -> io::Result<Within<Service, (), ()>> {
        let (job, ticket, reported) = job_for(self.rt.alloc(), root)?;
        drop(ticket);
        // A job that the queue refuses is dropped here, so no report will come.
        let _ = self.jobs.send(job);
        recv_within(self.rt, self.time, self.limit, reported)
    }
}
