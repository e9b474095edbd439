//! A pool of typed requests: each reply is proved to be the square of the number that its own ticket asks about.
//!
//! The last of five programs, after `hello_shutdown`. A request takes the place of the job, and a ticket that of its
//! receiver.
#![tactic(auto)]

ghost use Rattle.std.specs.Prelude.{◌≡◌, ◌*◌, IfOk};

use crossbeam_channel as queue;
use oneshot_channel::reply::{Answer, Request, Ticket, request};
use oneshot_channel::{Receiver, RecvTimeoutError, Sender, TryRecvError, channel};
use std::alloc::{AllocError, Global};
use std::sync::Wait;
use std::time::{Clock, Duration};
use std::{io, thread};

/// The longest wait for a reply or a report, in seconds.
const LIMIT: u64 = 60;

/// The square of a number, and that number.
#[derive(Drop)]
struct Square {
    root: u32,
    value: u64,
    ghost squared: { value ≡ root * root },
}

impl Answer<u32> for Square {
    ghost asked = { λ square. square.root };

    ghost answers = { λ root square. square.value ≡ root * root };

    ghost is_right = { λ square. square.squared };

    fn question(&self) -> &u32 {
        &self.root
    }
}

/// A request for the square of a number.
type Job = Request<u32, Square>;

/// Answers a request. If its ticket is gone, nobody needs the answer.
fn serve(job: Job) {
    let root = *job.question();
    let value = u64::from(root) * u64::from(root);
    let _ = job.answer(Square { root, value });
}

/// Serves jobs until it is told to stop, or the queue is closed and empty; then reports how many it served.
fn work(
    rt: &impl Wait,
    jobs: &queue::Receiver<Job>,
    mut stop: Receiver<(), ()>,
    report: Sender<u64>,
) {
    let mut served = 0u64;
    for _ in rt.forever() {
        let Err(TryRecvError::Empty) = stop.try_recv() else {
            break;
        };
        let Ok(job) = jobs.recv(rt) else {
            break;
        };
        serve(job);
        served = served.saturating_add(1);
    }
    // If the owner is gone, nobody needs the report.
    let _ = report.send(served);
}

/// What the owner of a worker has.
#[derive(Drop)]
struct Worker<Rt> {
    stop: Sender<()>,
    report: Receiver<u64, Rt>,
}

impl<Rt: Wait + Clock + Drop> Worker<Rt> {
    /// Tells the worker to stop, and waits for its report. `Disconnected`: it could not be started.
    fn shut_down(self) -> Result<u64, RecvTimeoutError> {
        let Worker { stop, mut report } = self;
        // If the worker is gone, there is nothing to stop.
        let _ = stop.send(());
        report.recv_timeout(Duration::from_secs(LIMIT))
    }
}

/// Puts a request into the queue, and returns its ticket. A request that the queue refuses is dropped.
fn ask<'r, R: Wait>(
    rt: &'r R,
    alloc: Global,
    jobs: &queue::Sender<Job>,
    root: u32,
) -> Result<Ticket<u32, Square, &'r R>, AllocError>
    ensures { IfOk result (λ ticket. ticket.channel.about.question ≡ root) }
{
    let (job, ticket) = request(rt, alloc, root).map_err(|_| AllocError)?;
    let _ = jobs.send(rt, job);
    Ok(ticket)
}

/// Waits for the square of the ticket's number.
fn square_of<Rt: Wait + Clock + Drop>(
    mut ticket: Ticket<u32, Square, Rt>,
) -> Result<u64, RecvTimeoutError>
    ensures { IfOk result (λ value. value ≡ ticket.channel.about.question * ticket.channel.about.question) }
{
    Ok(ticket.wait_for(Duration::from_secs(LIMIT))?.value)
}

/// Asks for the square of 3 and of 4, and prints both.
fn print_squares<R: AllocGlobal + Print + Wait + Clock>(
    rt: &R,
    jobs: queue::Sender<Job>,
) -> io::Result<()> {
    let three = ask(rt, rt.alloc(), &jobs, 3)?;
    let four = ask(rt, rt.alloc(), &jobs, 4)?;
    for ticket in [three, four] {
        match square_of(ticket) {
            Ok(square) => println!(rt; "the square is {square}")?,
            Err(error) => println!(rt; "{error}")?,
        }
    }
    Ok(())
}

/// Shuts the workers down, and prints how many jobs they served.
fn print_served<R: Print + Wait + Clock>(rt: &R, workers: Vec<Worker<&R>>) -> io::Result<()> {
    let mut all = 0u64;
    for worker in workers {
        match worker.shut_down() {
            Ok(served) => all = all.saturating_add(served),
            Err(error) => println!(rt; "{error}")?,
        }
    }
    println!(rt; "{all} jobs")
}

fn main(rt: HostRuntime) -> io::Result<()> {
    let (jobs, taken) = queue::unbounded(rt.alloc())?;
    let (rt, taken) = (&rt, &taken);
    thread::scope(thread::scope_env(), rt, |scope| -> io::Result<()> {
        let mut workers = Vec::new(rt.alloc());
        for _ in 0..2 {
            let (stop, stopped) = channel((), rt.alloc())?;
            let (sender, report) = channel(rt, rt.alloc())?;
            workers.push(Worker { stop, report })?;
            // A thread that cannot be started is one worker fewer.
            let _ = scope.spawn(move || work(rt, taken, stopped, sender));
        }
        // This closes the queue, for which a worker may be waiting.
        print_squares(rt, jobs)?;
        print_served(rt, workers)
    })
}
