//! Many requests that a server answers on the pool's threads, one that is given up, and the server's shutdown.

ghost use Rattle.std.specs.Prelude.{◌≡◌, IfOk, map};

use crate::client::{Client, Pending, Reply};
use crate::pool::Pool;
use crate::server::{Job, Server, Service};
use crate::within::Within;
use futures::executor::block_on;
use oneshot_channel::{Sender, async_channel};
use std::alloc::AllocGlobal;
use std::io;
use std::random::RandomSource;
use std::sync::Wait;
use std::thread::{Threads, join};
use std::time::{Clock, Duration};
use tokio::sync::mpsc::{UnboundedReceiver, unbounded_channel};

/// Awaits each reply in turn, under an executor on the runtime `rt`. `Err`: out of memory, or it failed.
fn replies<R>(rt: &R, all: Vec<Pending>) -> io::Result<Vec<Reply>>
where
    R: Wait + RandomSource + AllocGlobal,
    ensures { IfOk result (λ replies. map (λ r. r.root) replies.items ≡ map (λ p. p.root) all.items) }
{
    let mut replies = Vec::new(rt.alloc());
    for pending in all {
        replies.push(pending.reply(rt)?)?;
    }
    Ok(replies)
}

/// What a client awaits, and how it stops the server then.
#[derive(Drop)]
pub struct Round {
    /// The requests whose replies it awaits.
    pub all: Vec<Pending>,
    /// The server's report of the request that was given up.
    pub given_up: Within<Service, (), ()>,
    /// The sender of the stop signal.
    pub stop: Sender<()>,
}

/// What came of a round: the replies, and how the server dealt with the request that was given up.
pub type Served = (Vec<Reply>, Option<Service>);

impl Round {
    /// Awaits each reply, and the report, and stops the server. `Err`: out of memory, or the executor failed.
    pub fn finish<R>(self, rt: &R) -> io::Result<Served>
    where
        R: Wait + RandomSource + AllocGlobal,
        ensures { IfOk result
            (λ served. map (λ r. r.root) served.0.items ≡ map (λ p. p.root) self.all.items) }
    {
        let Round {
            all,
            given_up,
            stop,
        } = self;
        let replies = replies(rt, all)?;
        let given_up = block_on(rt, given_up)?.ok();
        // If the server is gone, there is nothing to stop.
        let _ = stop.send(());
        Ok((replies, given_up))
    }
}

/// Serves a round on the threads of `pool`, beside the client's. `Err`: out of memory, or no thread.
fn serve_round<R>(rt: &R, pool: &Pool, server: Server, round: Round) -> io::Result<Served>
where
    R: Threads + Wait + RandomSource + AllocGlobal + Sync,
    ensures { IfOk result
        (λ served. map (λ r. r.root) served.0.items ≡ map (λ p. p.root) round.all.items) }
{
    let (ended, served) = join(rt, move || server.run(rt, pool), move || round.finish(rt));
    ended?;
    served
}

/// Asks for the square of each number, and for one that it gives up, and has them served in a round on `pool`.
///
/// `Err`: out of memory, no clock, or no thread could be started.
fn ask_in_round<R>(
    client: &Client<'_, R>,
    pool: &Pool,
    jobs: UnboundedReceiver<Job>,
    roots: &[u32],
    given_up: u32,
) -> io::Result<Served>
where
    R: Threads + Wait + Clock + RandomSource + AllocGlobal + Sync,
    ensures { IfOk result (λ served. map (λ r. r.root) served.0.items ≡ roots.now) }
{
    let (stop, stopped) = async_channel((), client.rt.alloc())?;
    let round = Round {
        all: client.ask_all(roots)?,
        given_up: client.give_up(given_up)?,
        stop,
    };
    serve_round(client.rt, pool, Server { jobs, stopped }, round)
}

/// The outcome of the requests.
#[derive(Drop)]
pub struct Outcome {
    /// The replies, in the order of the numbers.
    pub replies: Vec<Reply>,
    /// How the server dealt with the request that was given up. `None`: it did not report in time.
    pub given_up: Option<Service>,
    /// The reply to a request that was made when the server had stopped.
    pub after: Reply,
}

/// Asks a server for the square of each number, and for one that it gives up, and stops the server.
///
/// `rt` runs both threads, `pool` those of the server, and `limit` is the longest wait for each reply.
/// `Err`: out of memory, no clock, or no thread could be started.
pub fn asked<R: Threads + Wait + Clock + RandomSource + AllocGlobal + Sync>(
    rt: &R,
    pool: &Pool,
    roots: &[u32],
    given_up: u32,
    limit: Duration,
) -> io::Result<Outcome>
    ensures { IfOk result (λ outcome. map (λ r. r.root) outcome.replies.items ≡ roots.now) }
{
    let (queue, jobs) = unbounded_channel(rt.alloc())?;
    let client = Client {
        rt,
        time: pool.time(),
        jobs: &queue,
        limit,
    };
    let (replies, given_up) = ask_in_round(&client, pool, jobs, roots, given_up)?;
    let after = client.ask(0)?.reply(rt)?;
    Ok(Outcome {
        replies,
        given_up,
        after,
    })
}
