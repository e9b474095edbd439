//! Threads that run tasks beside tokio's timers. They use no socket, so they need no permission for the network.

ghost use Rattle.futures.specs.Runs.{AllItems};

use futures::executor::{SpawnAll, TaskSet, block_on};
use futures::task::{Doorbell, Solo};
use futures::{Future, Stream};
use oneshot_channel::{Receiver, RecvTimeoutError, Sender, channel};
use std::alloc::AllocGlobal;
use std::io;
use std::random::RandomSource;
use std::sync::Wait;
use std::thread::{Threads, join};
use std::time::{Clock, Duration, Instant};
use tokio::task::with_blocking_threads;
use tokio::time::{Driver, Handle};

/// A number of threads that run tasks, beside a thread that fires tokio's timers.
#[derive(Drop)]
pub struct Pool {
    time: Handle,
    workers: usize,
}

impl Pool {
    /// Returns what makes timers.
    pub fn time(&self) -> &Handle {
        &self.time
    }

    /// Runs each future of the stream as a task on the pool's threads, until the stream has ended and each
    /// task is done.
    ///
    /// `rt` runs the threads. `Err`: out of memory, or no thread could be started.
    pub fn run_all<R, S, F>(&self, rt: &R, futures: S) -> io::Result<()>
    where
        R: Wait + Threads + RandomSource + AllocGlobal + Sync,
        S: Stream<Item = F>,
        F: Future<Output = ()> + Send,
        requires stream { S.can_poll futures }
        requires items { AllItems (S.yields futures) F.can_poll }
    {
        let tasks = TaskSet::new(rt, Doorbell::parking(), self.workers)?;
        let tasks = &tasks;
        let spawned = SpawnAll::new(tasks, futures);
        with_blocking_threads(rt, tasks, self.workers, move || block_on(rt, spawned))??
    }
}

/// Fires the timers that are due. `Err`: no clock.
fn fire<R: Clock>(rt: &R, timers: &mut Driver, task: &Solo) -> io::Result<()> {
    let now = Instant::now(rt)?;
    let mut poll = task.begin();
    // When the next timer is due does not matter: the next turn is a millisecond away.
    timers.turn(&mut poll, now);
    poll.park();
    Ok(())
}

/// Once a millisecond, fires the timers that are due. Ends when the stop signal comes or its sender is dropped.
///
/// `rt` runs this thread, `timers` fires them as `task`, and `stop` is the receiver of the signal. `Err`: no
/// clock. Then each timer fails.
pub fn keep_time<R: Wait + Clock>(
    rt: &R,
    mut timers: Driver,
    task: Solo,
    mut stop: Receiver<(), &R>,
) -> io::Result<()> {
    for _ in rt.forever() {
        fire(rt, &mut timers, &task)?;
        if stop.recv_timeout(Duration::from_millis(1)) != Err(RecvTimeoutError::Timeout) {
            break;
        }
    }
    Ok(())
}

/// Calls `uses`, and stops the thread that has the receiver of `stop`.
fn use_and_stop<T, F: FnOnce(Pool) -> T>(uses: F, pool: Pool, stop: Sender<()>) -> T
    requires { F.IsAlwaysCallable uses }
{
    let value = uses(pool);
    // If the thread of the timers is gone, there is nothing to stop.
    let _ = stop.send(());
    value
}

/// Calls `uses` while another thread fires `timers` as `task`. `Err`: out of memory, or no clock.
fn beside_timers<R, T, F>(rt: &R, timers: Driver, task: Solo, pool: Pool, uses: F) -> io::Result<T>
where
    R: Threads + Wait + Clock + AllocGlobal + Sync,
    T: Drop,
    F: FnOnce(Pool) -> T,
    requires { F.IsAlwaysCallable uses }
{
    let (stop, stopped) = channel(rt, rt.alloc())?;
    let (kept, value) = join(
        rt,
        move || keep_time(rt, timers, task, stopped),
        move || use_and_stop(uses, pool, stop),
    );
    kept?;
    Ok(value)
}

/// Calls `uses` with a pool of `workers` threads, and stops the thread of its timers when it returns.
///
/// `rt` runs the threads. `Ok`: what `uses` returned. `Err`: out of memory, or no clock. If that thread cannot
/// be started, no timer fires while `uses` runs.
pub fn with_pool<R, T, F: FnOnce(Pool) -> T>(rt: &R, workers: usize, uses: F) -> io::Result<T>
where
    R: Threads + Wait + Clock + RandomSource + AllocGlobal + Sync,
    T: Drop,
    requires { F.IsAlwaysCallable uses }
{
    let timers = Driver::new(rt.alloc(), Instant::now(rt)?)?;
    let pool = Pool {
        time: timers.handle().clone()?,
        workers,
    };
    let task = Solo::new(rt, Doorbell::parking())?;
    beside_timers(rt, timers, task, pool, uses)
}
