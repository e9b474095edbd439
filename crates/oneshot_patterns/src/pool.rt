//! A pool of workers on one queue of requests, with a limit on the wait for each reply, and the pool's shutdown.

ghost use Rattle.std.specs.Prelude.{◌≡◌, IfOk, length, vec_len};

use crate::request::{Answer, Asked, Request, ask};
use crossbeam_channel as queue;
use oneshot_channel::{Receiver, Sender, channel};
use std::alloc::{AllocError, Global};
use std::sync::Wait;
use std::thread;
use std::thread::Threads;
use std::time::{Clock, Duration};

/// The outcome of a pool.
#[derive(Drop)]
pub struct Outcome {
    /// The answers, in the order of the requests.
    pub answers: Vec<Answer>,
    /// How many replies the workers sent. `None`: a worker could not be started, or did not report within
    /// the limit.
    pub served: Option<u64>,
}

/// Serves requests until the queue is closed and empty, then reports how many replies it sent.
///
/// `rt` blocks the thread while the queue is empty, `requests` is the queue's receiver, and `report` sends
/// the number, which stops at `u64::MAX`.
pub fn work(rt: &impl Wait, requests: &queue::Receiver<Request>, report: Sender<u64>) {
    let mut served = 0u64;
    for _ in rt.forever() {
        let Ok(request) = requests.recv(rt) else {
            break;
        };
        if request.serve() {
            served = served.saturating_add(1);
        }
    }
    // If the owner is gone, nobody needs the report.
    let _ = report.send(served);
}

/// Puts a request for the square of `root` into the queue. The result has the receiver of its reply. `Err`: out of
/// memory.
fn ask_through<'r, R: Wait + Clock>(
    rt: &'r R,
    alloc: Global,
    requests: &queue::Sender<Request>,
    root: u32,
) -> Result<Asked<&'r R>, AllocError> {
    let (request, asked) = ask(rt, alloc, root)?;
    // A request that the queue refuses is dropped here, so its answer is `Lost`.
    let _ = requests.send(rt, request);
    Ok(asked)
}

/// Puts a request for each number's square into the queue.
///
/// `rt` is the runtime that waits for each reply, `alloc` allocates the channels and the result,
/// `requests` is the queue's sender, and `roots` has the numbers. `Ok`: the receivers of the replies, in
/// the order of the numbers. `Err`: out of memory.
pub fn ask_all<'r, R: Wait + Clock>(
    rt: &'r R,
    alloc: Global,
    requests: &queue::Sender<Request>,
    roots: &[u32],
) -> Result<Vec<Asked<&'r R>>, AllocError>
    ensures { IfOk result (λ all. vec_len all ≡ length roots.now) }
{
    let mut all = Vec::new(alloc);
    for root in roots {
        all.push(ask_through(rt, alloc, requests, *root)?)?;
    }
    Ok(all)
}

/// Waits for each reply in turn, each for at most `limit`.
///
/// `alloc` allocates the answers, and `all` has the receivers of the replies. `Ok`: their answers, in
/// their order. `Err`: out of memory.
pub fn answers_to<Rt: Wait + Clock + Drop>(
    alloc: Global,
    all: Vec<Asked<Rt>>,
    limit: Duration,
) -> Result<Vec<Answer>, AllocError>
    ensures { IfOk result (λ answers. vec_len answers ≡ vec_len all) }
{
    let mut answers = Vec::new(alloc);
    for asked in all {
        answers.push(asked.wait_within(limit))?;
    }
    Ok(answers)
}

/// Adds up the workers' reports. The sum stops at `u64::MAX`.
///
/// `reports` has the receivers of the reports, and `limit` is the longest wait for each. `None`: a report
/// did not come in time, or its sender was dropped.
pub fn total<Rt: Wait + Clock + Drop>(
    reports: Vec<Receiver<u64, Rt>>,
    limit: Duration,
) -> Option<u64> {
    let mut served = 0u64;
    for report in reports {
        let mut report = report;
        served = served.saturating_add(report.recv_timeout(limit).ok()?);
    }
    Some(served)
}

/// Puts a request for each number's square into the queue, closes it, and waits for each reply. `Err`: out of memory.
fn answers_of<R: Wait + Clock>(
    rt: &R,
    alloc: Global,
    requests: queue::Sender<Request>,
    roots: &[u32],
    limit: Duration,
) -> Result<Vec<Answer>, AllocError>
    ensures { IfOk result (λ answers. vec_len answers ≡ length roots.now) }
{
    let all = ask_all(rt, alloc, &requests, roots)?;
    // The workers end once the queue is empty.
    drop(requests);
    answers_to(alloc, all, limit)
}

/// Makes the channel of a worker's report, puts its receiver into `reports`, and returns its sender. `Err`: out of
/// memory.
fn report_into<Rt: Drop>(
    rt: Rt,
    alloc: Global,
    reports: &mut Vec<Receiver<u64, Rt>>,
) -> Result<Sender<u64>, AllocError> {
    let (report, reported) = channel(rt, alloc)?;
    reports.push(reported)?;
    Ok(report)
}

/// Starts workers, has them reply to a request for the square of each number, and shuts them down.
///
/// `rt` is the runtime of the threads, `alloc` allocates the queue and the channels, `workers` is the
/// number of workers, `roots` has the numbers, and `limit` is the longest wait for each reply and each
/// report. `Ok`: an answer for each number, and how many were served. `Err`: out of memory.
pub fn pooled<R: Threads + Wait + Clock + Sync>(
    rt: &R,
    alloc: Global,
    workers: usize,
    roots: &[u32],
    limit: Duration,
) -> Result<Outcome, AllocError>
    ensures { IfOk result (λ o. vec_len o.answers ≡ length roots.now) }
{
    let (requests, taken) = queue::unbounded(alloc)?;
    let taken = &taken;
    thread::scope(
        thread::scope_env(),
        rt,
        |scope| -> Result<Outcome, AllocError>
            ensures { IfOk result (λ o. vec_len o.answers ≡ length roots.entry.now) }
        {
            let mut reports = Vec::new(alloc);
            for _ in 0..workers {
                let report = report_into(rt, alloc, &mut reports)?;
                // If the worker cannot be started, its sender is dropped, and `served` is `None`.
                let _ = scope.spawn(move || work(rt, taken, report));
            }
            let answers = answers_of(rt, alloc, requests, roots, limit)?;
            let served = total(reports, limit);
            Ok(Outcome { answers, served })
        },
    )
}
