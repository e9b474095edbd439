//! Has two workers square the numbers of one queue: each job has the sender of its own reply.
//!
//! The second of five programs, each of which adds to the one before it: `hello`, `hello_pool`,
//! `hello_deadline`, `hello_shutdown` and `hello_typed`. It adds a queue of jobs, and threads that work them off.
#![tactic(auto)]

use crossbeam_channel as queue;
use oneshot_channel::{Receiver, Sender, channel};
use std::alloc::{AllocError, Global};
use std::sync::Wait;
use std::time::Clock;
use std::{io, thread};

/// A number, and the sender of its square.
#[derive(Drop)]
struct Job {
    root: u32,
    reply: Sender<u64>,
}

impl Job {
    /// Sends the square. If the receiver is gone, nobody needs it.
    fn serve(self) {
        let Job { root, reply } = self;
        let _ = reply.send(u64::from(root) * u64::from(root));
    }
}

/// Serves jobs until the queue is closed and empty.
fn work(rt: &impl Wait, jobs: &queue::Receiver<Job>) {
    for _ in rt.forever() {
        let Ok(job) = jobs.recv(rt) else {
            break;
        };
        job.serve();
    }
}

/// Puts a job into the queue, and returns the receiver of its reply. A job that the queue refuses is dropped.
fn ask<'r, R: Wait>(
    rt: &'r R,
    alloc: Global,
    jobs: &queue::Sender<Job>,
    root: u32,
) -> Result<Receiver<u64, &'r R>, AllocError> {
    let (reply, square) = channel(rt, alloc)?;
    let _ = jobs.send(rt, Job { root, reply });
    Ok(square)
}

/// Asks for the square of 3 and of 4, and prints both.
fn print_squares<R: AllocGlobal + Print + Wait + Clock>(
    rt: &R,
    jobs: queue::Sender<Job>,
) -> io::Result<()> {
    let three = ask(rt, rt.alloc(), &jobs, 3)?;
    let four = ask(rt, rt.alloc(), &jobs, 4)?;
    for square in [three, four] {
        match square.recv() {
            Ok(square) => println!(rt; "the square is {square}")?,
            Err(error) => println!(rt; "{error}")?,
        }
    }
    Ok(())
}

fn main(rt: HostRuntime) -> io::Result<()> {
    let (jobs, taken) = queue::unbounded(rt.alloc())?;
    let (rt, taken) = (&rt, &taken);
    thread::scope(thread::scope_env(), rt, |scope| -> io::Result<()> {
        for _ in 0..2 {
            // A thread that cannot be started is one worker fewer.
            let _ = scope.spawn(move || work(rt, taken));
        }
        print_squares(rt, jobs)
    })
}
