//! Shuts a pool down: each worker is told to stop, and reports how many jobs it served.
//!
//! The fourth of five programs, after `hello_deadline`. It adds two channels for each worker, and their owner's ends.
#![tactic(auto)]

use crossbeam_channel as queue;
use oneshot_channel::{Receiver, RecvTimeoutError, Sender, TryRecvError, channel};
use std::alloc::{AllocError, Global};
use std::sync::Wait;
use std::time::{Clock, Duration};
use std::{io, thread};

/// The longest wait for a reply or a report, in seconds.
const LIMIT: u64 = 60;

/// A number, and the sender of its square.
#[derive(Drop)]
struct Job {
    root: u32,
    reply: Sender<u64>,
}

impl Job {
    /// Sends the square. If the receiver is gone, nobody needs it.
    fn serve(self) {
        let Job { root, reply } = self;
        let _ = reply.send(u64::from(root) * u64::from(root));
    }
}

/// Serves jobs until it is told to stop, or the queue is closed and empty; then reports how many it served.
fn work(
    rt: &impl Wait,
    jobs: &queue::Receiver<Job>,
    mut stop: Receiver<(), ()>,
    report: Sender<u64>,
) {
    let mut served = 0u64;
    for _ in rt.forever() {
        let Err(TryRecvError::Empty) = stop.try_recv() else {
            break;
        };
        let Ok(job) = jobs.recv(rt) else {
            break;
        };
        job.serve();
        served = served.saturating_add(1);
    }
    // If the owner is gone, nobody needs the report.
    let _ = report.send(served);
}

/// What the owner of a worker has.
#[derive(Drop)]
struct Worker<Rt> {
    stop: Sender<()>,
    report: Receiver<u64, Rt>,
}

impl<Rt: Wait + Clock + Drop> Worker<Rt> {
    /// Tells the worker to stop, and waits for its report. `Disconnected`: it could not be started.
    fn shut_down(self) -> Result<u64, RecvTimeoutError> {
        let Worker { stop, mut report } = self;
        // If the worker is gone, there is nothing to stop.
        let _ = stop.send(());
        report.recv_timeout(Duration::from_secs(LIMIT))
    }
}

/// Puts a job into the queue, and returns the receiver of its reply. A job that the queue refuses is dropped.
fn ask<'r, R: Wait>(
    rt: &'r R,
    alloc: Global,
    jobs: &queue::Sender<Job>,
    root: u32,
) -> Result<Receiver<u64, &'r R>, AllocError> {
    let (reply, square) = channel(rt, alloc)?;
    let _ = jobs.send(rt, Job { root, reply });
    Ok(square)
}

/// Asks for the square of 3 and of 4, and prints both.
fn print_squares<R: AllocGlobal + Print + Wait + Clock>(
    rt: &R,
    jobs: queue::Sender<Job>,
) -> io::Result<()> {
    let three = ask(rt, rt.alloc(), &jobs, 3)?;
    let four = ask(rt, rt.alloc(), &jobs, 4)?;
    for square in [three, four] {
        let mut square = square;
        match square.recv_timeout(Duration::from_secs(LIMIT)) {
            Ok(square) => println!(rt; "the square is {square}")?,
            Err(error) => println!(rt; "{error}")?,
        }
    }
    Ok(())
}

/// Shuts the workers down, and prints how many jobs they served.
fn print_served<R: Print + Wait + Clock>(rt: &R, workers: Vec<Worker<&R>>) -> io::Result<()> {
    let mut all = 0u64;
    for worker in workers {
        match worker.shut_down() {
            Ok(served) => all = all.saturating_add(served),
            Err(error) => println!(rt; "{error}")?,
        }
    }
    println!(rt; "{all} jobs")
}

fn main(rt: HostRuntime) -> io::Result<()> {
    let (jobs, taken) = queue::unbounded(rt.alloc())?;
    let (rt, taken) = (&rt, &taken);
    thread::scope(thread::scope_env(), rt, |scope| -> io::Result<()> {
        let mut workers = Vec::new(rt.alloc());
        for _ in 0..2 {
            let (stop, stopped) = channel((), rt.alloc())?;
            let (sender, report) = channel(rt, rt.alloc())?;
            workers.push(Worker { stop, report })?;
            // A thread that cannot be started is one worker fewer.
            let _ = scope.spawn(move || work(rt, taken, stopped, sender));
        }
        // This closes the queue, for which a worker may be waiting.
        print_squares(rt, jobs)?;
        print_served(rt, workers)
    })
}
