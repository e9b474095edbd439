//! Requests, each with its own channel for the reply.

ghost use Rattle.std.specs.Prelude.{◌≡◌, ◌+◌, ◌*◌, ◌≤◌, ℕ, Ok, IfOk, IfSome, vec_len, length};

use oneshot_channel::{Receiver, RecvError, RecvTimeoutError, Sender, channel};
use std::alloc::{AllocError, Global};
use std::sync::Wait;
use std::thread::{Threads, join};
use std::time::{Clock, Duration};

/// A number and its square.
#[derive(Drop)]
pub struct Square {
    /// The number.
    pub root: u32,
    /// Its square.
    pub value: u64,
    ghost squared: { value ≡ root * root },
}

impl Square {
    /// Squares `root`.
    pub(crate) fn of(root: u32) -> Square
        ensures { result.root ≡ root }
    {
        let value = u64::from(root) * u64::from(root);
        Square { root, value }
    }
}

/// A number whose square is requested, and the sender of the reply.
#[derive(Drop)]
pub struct Request {
    /// The number.
    pub root: u32,
    /// The sender of its square.
    pub reply: Sender<Square>,
}

/// The requester's side of a request: the receiver of the reply.
#[derive(Drop)]
pub struct Asked<Rt> {
    /// The number.
    pub root: u32,
    /// The receiver of its square.
    pub reply: Receiver<Square, Rt>,
}

/// Why a request has no reply.
#[derive(Clone, Copy, Debug, PartialEq, Eq)]
pub enum Unanswered {
    /// No reply came in time.
    Late,
    /// No reply to this request will come.
    Lost,
}

/// The outcome of a request.
#[derive(Drop)]
pub struct Answer {
    /// The number.
    pub root: u32,
    /// Its square, or why there is no reply.
    pub square: Result<u64, Unanswered>,
    ghost right: { (value : ℕ) → square ≡ Ok value → value ≡ root * root },
}

/// Makes a request for the square of `root`, and the receiver of its reply.
///
/// `rt` is the runtime that waits for the reply (`()` if it is awaited as a future), and `alloc` allocates
/// the channel. `Err`: out of memory.
pub fn ask<Rt: Drop>(rt: Rt, alloc: Global, root: u32) -> Result<(Request, Asked<Rt>), AllocError>
    ensures request { IfOk result (λ both. both.0.root ≡ root) }
    ensures asked { IfOk result (λ both. both.1.root ≡ root) }
{
    let (sender, receiver) = channel(rt, alloc)?;
    let request = Request {
        root,
        reply: sender,
    };
    let asked = Asked {
        root,
        reply: receiver,
    };
    Ok((request, asked))
}

impl Request {
    /// Sends the square. `true`: it was sent. `false`: the receiver is gone.
    pub fn serve(self) -> bool {
        let Request { root, reply } = self;
        reply.send(Square::of(root)).is_ok()
    }
}

/// Returns the value of the received square. `None`: there is none, or it is of another number.
///
/// `root` is the requested number, and `reply` is what the receiver of its square returned.
pub(crate) fn answer_to(root: u32, reply: Result<Square, RecvError>) -> Option<u64>
    ensures { IfSome result (λ value. value ≡ root * root) }
{
    match reply {
        Ok(square) if square.root == root => Some(square.value),
        _ => None,
    }
}

impl<Rt: Wait + Clock + Drop> Asked<Rt> {
    /// Waits for the reply, and returns the square. `None`: no reply comes, or that of another number.
    pub fn wait(self) -> Option<u64>
        ensures { IfSome result (λ value. value ≡ self.root * self.root) }
    {
        let Asked { root, reply } = self;
        answer_to(root, reply.recv())
    }
}

impl<Rt: Wait + Clock + Drop> Asked<Rt> {
    /// Waits for the reply, for at most `limit`, and returns the number with its square. `Late`: no reply
    /// came in time; a later one is refused. `Lost`: none will come, or that of another number came.
    pub fn wait_within(self, limit: Duration) -> Answer
        ensures { result.root ≡ self.root }
    {
        let Asked { root, mut reply } = self;
        let square = match reply.recv_timeout(limit) {
            Ok(square) if square.root == root => Ok(square.value),
            Err(RecvTimeoutError::Timeout) => Err(Unanswered::Late),
            _ => Err(Unanswered::Lost),
        };
        Answer { root, square }
    }
}

/// Serves `requests` in order, and returns how many replies were sent.
pub fn serve_all(requests: Vec<Request>) -> usize
    ensures { result ≤ vec_len requests }
{
    let mut served = 0;
    for request in requests {
        if request.serve() {
            served += 1;
        }
    }
    served
}

/// Waits for each reply in turn, and returns the squares. `Err`: out of memory.
fn wait_all<Rt: Wait + Clock + Drop>(
    alloc: Global,
    all: Vec<Asked<Rt>>,
) -> Result<Vec<Option<u64>>, AllocError>
    ensures { IfOk result (λ replies. vec_len replies ≡ vec_len all) }
{
    let mut replies = Vec::new(alloc);
    for asked in all {
        replies.push(asked.wait())?;
    }
    Ok(replies)
}

/// Makes a request for the square of `root`, and puts both sides of it into their lists. `Err`: out of memory.
fn ask_into<Rt: Drop>(
    rt: Rt,
    alloc: Global,
    root: u32,
    requests: &mut Vec<Request>,
    asked: &mut Vec<Asked<Rt>>,
) -> Result<(), AllocError>
    ensures { IfOk result (λ _. vec_len asked.new ≡ vec_len asked.old + 1) }
{
    let (request, waiting) = ask(rt, alloc, root)?;
    requests.push(request)?;
    asked.push(waiting)?;
    Ok(())
}

/// Requests the square of each number from a worker on another thread, and waits for the replies.
///
/// `rt` runs the thread and waits, `alloc` allocates the channels and the result, and `roots` has the
/// numbers. `Ok`: the squares in the order of the numbers, with `None` for a reply that did not come.
/// `Err`: out of memory.
pub fn squares_of<R: Threads + Wait + Clock + Sync>(
    rt: &R,
    alloc: Global,
    roots: &[u32],
) -> Result<Vec<Option<u64>>, AllocError>
    ensures { IfOk result (λ squares. vec_len squares ≡ length roots.now) }
{
    let mut requests = Vec::new(alloc);
    let mut asked = Vec::new(alloc);
    for root in roots {
        ask_into(rt, alloc, *root, &mut requests, &mut asked)?;
    }
    let (_, squares) = join(
        rt,
        move || serve_all(requests),
        move || wait_all(alloc, asked),
    );
    squares
}
