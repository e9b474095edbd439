//! A server that answers requests in tasks on a pool's threads, until a channel tells it to stop.

use crate::pool::Pool;
use crate::square::Square;
use futures::future::ready;
use futures::{FutureExt, StreamExt};
use oneshot_channel::reply::Request;
use oneshot_channel::{AsyncReceiver, Sender};
use std::alloc::AllocGlobal;
use std::io;
use std::random::RandomSource;
use std::sync::Wait;
use std::thread::Threads;
use tokio::sync::mpsc::UnboundedReceiver;

/// How a server dealt with a request.
#[derive(Clone, Copy, Debug, PartialEq, Eq)]
pub enum Service {
    /// It sent the reply.
    Answered,
    /// It saw that the ticket was gone, and made no reply.
    Cancelled,
    /// It made a reply, which came back, since the ticket was gone.
    Refused,
}

/// A request, and the sender of how it was dealt with.
#[derive(Drop)]
pub struct Job {
    /// The request for the square of a number.
    pub request: Request<u32, Square>,
    /// The sender of the server's report.
    pub report: Sender<Service>,
}

/// Answers a request, unless its ticket is gone.
pub fn serve(request: Request<u32, Square>) -> Service {
    if request.is_cancelled() {
        return Service::Cancelled;
    }
    let square = Square::of(*request.question());
    match request.answer(square) {
        Ok(()) => Service::Answered,
        Err(_) => Service::Refused,
    }
}

impl Job {
    /// Serves the request, and reports how.
    pub fn run(self) {
        let Job { request, report } = self;
        // If the asker is gone, nobody needs the report.
        let _ = report.send(serve(request));
    }
}

/// A queue of jobs, and how its server learns that it has to stop.
#[derive(Drop)]
pub struct Server {
    /// The jobs.
    pub jobs: UnboundedReceiver<Job>,
    /// The receiver of the stop signal.
    pub stopped: AsyncReceiver<(), ()>,
}

impl Server {
    /// Runs each job in a task on the threads of `pool`, until the stop signal comes or its sender is dropped.
    ///
    /// A job that is left is dropped, so its ticket learns that no reply will come. `Err`: out of memory, or
    /// no thread could be started.
    pub fn run<R>(self, rt: &R, pool: &Pool) -> io::Result<()>
    where
        R: Wait + Threads + RandomSource + AllocGlobal + Sync,
    {
        let Server { jobs, stopped } = self;
        let tasks = jobs.take_until(stopped);
        pool.run_all(rt, tasks.map(|job| ready(job).map(|job| job.run())))
    }
}
