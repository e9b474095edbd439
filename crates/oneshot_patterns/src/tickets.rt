//! Workers that serve one queue of requests with tickets, each of which returns only a reply to its own question.

ghost use Rattle.std.specs.Prelude.{◌≡◌, ◌*◌, IfOk, IfSome, length, vec_len};

use crate::request::{Answer, Square, Unanswered};
use crossbeam_channel as queue;
use futures::executor::block_on;
use oneshot_channel::reply::{Request, Ticket};
use oneshot_channel::{RecvTimeoutError, reply};
use std::alloc::{AllocError, AllocGlobal, Global};
use std::random::RandomSource;
use std::sync::Wait;
use std::thread::Threads;
use std::time::{Clock, Duration};
use std::{io, thread};

impl reply::Answer<u32> for Square {
    ghost use Rattle.std.specs.Prelude.{◌≡◌, ◌*◌};

    ghost asked = { λ square. square.root };

    ghost answers = { λ root square. square.value ≡ root * root };

    ghost is_right = { λ square. square.squared };

    fn question(&self) -> &u32 {
        &self.root
    }
}

/// A number whose square was requested, with the ticket for the square.
#[derive(Drop)]
struct Pending<Rt> {
    /// The number.
    root: u32,
    /// The ticket for its square.
    ticket: Ticket<u32, Square, Rt>,
    ghost own: { ticket.channel.about.question ≡ root },
}

/// Answers `request` with its number's square. `true`: it was sent. `false`: its receiver is gone.
pub fn serve(request: Request<u32, Square>) -> bool {
    let square = Square::of(*request.question());
    request.answer(square).is_ok()
}

/// Serves requests until the queue is closed and empty.
fn serve_queue(rt: &impl Wait, requests: &queue::Receiver<Request<u32, Square>>) {
    for _ in rt.forever() {
        let Ok(request) = requests.recv(rt) else {
            break;
        };
        serve(request);
    }
}

/// Waits for the square of the ticket's number, for at most `limit`.
///
/// `Ok`: the square. `Err(Late)`: no reply came in time. `Err(Lost)`: none will come.
pub fn square_within<Rt: Wait + Clock + Drop>(
    ticket: &mut Ticket<u32, Square, Rt>,
    limit: Duration,
) -> Result<u64, Unanswered>
    ensures { IfOk result (λ value. value ≡ ticket.old.channel.about.question * ticket.old.channel.about.question) }
{
    match ticket.wait_for(limit) {
        Ok(square) => Ok(square.value),
        Err(RecvTimeoutError::Timeout) => Err(Unanswered::Late),
        Err(RecvTimeoutError::Disconnected) => Err(Unanswered::Lost),
    }
}

/// Awaits the square of the ticket's number, under an executor on the runtime `rt`.
///
/// `Ok(Some)`: the square. `Ok(None)`: no reply will come. `Err`: the executor failed.
pub fn square_awaited<R, Rt>(rt: &R, ticket: Ticket<u32, Square, Rt>) -> io::Result<Option<u64>>
where
    R: Wait + RandomSource + AllocGlobal,
    Rt: Drop,
    ensures { IfOk result (λ reply. IfSome reply
        (λ value. value ≡ ticket.channel.about.question * ticket.channel.about.question)) }
{
    match block_on(rt, ticket.into_future())? {
        Ok(square) => Ok(Some(square.value)),
        Err(_) => Ok(None),
    }
}

/// Puts a request for the square of `root` into the queue. The result has its ticket. `Err`: out of memory.
fn ask_through<'r, R: Wait + Clock>(
    rt: &'r R,
    alloc: Global,
    requests: &queue::Sender<Request<u32, Square>>,
    root: u32,
) -> Result<Pending<&'r R>, AllocError> {
    let Ok((request, ticket)) = reply::request(rt, alloc, root) else {
        return Err(AllocError);
    };
    // A request that the queue refuses is dropped here, so its answer is `Lost`.
    let _ = requests.send(rt, request);
    Ok(Pending { root, ticket })
}

/// Puts a request for each number's square into the queue. `Err`: out of memory.
fn ask_each<'r, R: Wait + Clock>(
    rt: &'r R,
    alloc: Global,
    requests: &queue::Sender<Request<u32, Square>>,
    roots: &[u32],
) -> Result<Vec<Pending<&'r R>>, AllocError>
    ensures { IfOk result (λ all. vec_len all ≡ length roots.now) }
{
    let mut all = Vec::new(alloc);
    for root in roots {
        all.push(ask_through(rt, alloc, requests, *root)?)?;
    }
    Ok(all)
}

/// Waits for each square in turn, each for at most `limit`. `Err`: out of memory.
fn squares_within<Rt: Wait + Clock + Drop>(
    alloc: Global,
    all: Vec<Pending<Rt>>,
    limit: Duration,
) -> Result<Vec<Answer>, AllocError>
    ensures { IfOk result (λ answers. vec_len answers ≡ vec_len all) }
{
    let mut answers = Vec::new(alloc);
    for pending in all {
        answers.push(pending.wait_within(limit))?;
    }
    Ok(answers)
}

impl<Rt: Wait + Clock + Drop> Pending<Rt> {
    /// Waits for the square, for at most `limit`.
    fn wait_within(self, limit: Duration) -> Answer
        ensures { result.root ≡ self.root }
    {
        let Pending { root, mut ticket } = self;
        let square = square_within(&mut ticket, limit);
        Answer { root, square }
    }
}

/// Puts a request for each number's square into the queue, closes it, and waits for each square. `Err`: out of memory.
fn answers_of<R: Wait + Clock>(
    rt: &R,
    alloc: Global,
    requests: queue::Sender<Request<u32, Square>>,
    roots: &[u32],
    limit: Duration,
) -> Result<Vec<Answer>, AllocError>
    ensures { IfOk result (λ answers. vec_len answers ≡ length roots.now) }
{
    let all = ask_each(rt, alloc, &requests, roots)?;
    // The workers end once the queue is empty.
    drop(requests);
    squares_within(alloc, all, limit)
}

/// Starts workers, has them answer a request for the square of each number, and shuts them down.
///
/// `rt` is the runtime of the threads, `alloc` allocates the queue and the channels, `workers` is the
/// number of workers, `roots` has the numbers, and `limit` is the longest wait for each square. `Ok`: an
/// answer for each number, in their order. `Err`: out of memory.
pub fn asked<R: Threads + Wait + Clock + Sync>(
    rt: &R,
    alloc: Global,
    workers: usize,
    roots: &[u32],
    limit: Duration,
) -> Result<Vec<Answer>, AllocError>
    ensures { IfOk result (λ answers. vec_len answers ≡ length roots.now) }
{
    let (requests, taken) = queue::unbounded(alloc)?;
    let taken = &taken;
    thread::scope(
        thread::scope_env(),
        rt,
        |scope| -> Result<Vec<Answer>, AllocError>
            ensures { IfOk result (λ answers. vec_len answers ≡ length roots.entry.now) }
        {
            for _ in 0..workers {
                // If no worker can be started, each answer is `Late`.
                let _ = scope.spawn(move || serve_queue(rt, taken));
            }
            answers_of(rt, alloc, requests, roots, limit)
        },
    )
}
