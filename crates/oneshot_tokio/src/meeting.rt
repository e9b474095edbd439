//! Tasks that wait for one another, which shows how many of them a pool runs at once.

use crate::pool::Pool;
use futures::future::ready;
use futures::{FutureExt, StreamExt};
use std::alloc::AllocGlobal;
use std::io;
use std::random::RandomSource;
use std::sync::Wait;
use std::sync::atomic::{AtomicUsize, Ordering};
use std::thread::{Threads, sleep};
use std::time::{Clock, Duration};
use tokio::sync::mpsc::{UnboundedSender, unbounded_channel};

/// How many milliseconds a task waits for the others: more than a thread takes to start.
const PATIENCE: u64 = 10_000;

/// How many tasks have come, and how many of them saw all.
#[derive(Drop)]
struct Place {
    come: AtomicUsize,
    met: AtomicUsize,
}

/// A task that waits until `all` tasks have come.
#[derive(Drop)]
struct Guest<'a, R> {
    rt: &'a R,
    place: &'a Place,
    all: usize,
}

impl<R: Clock> Guest<'_, R> {
    /// Comes, and waits for the others on this thread. Gives up after `PATIENCE`.
    fn meet(self) {
        let Guest { rt, place, all } = self;
        place.come.fetch_add(1, Ordering::SeqCst);
        for _ in 0..PATIENCE {
            if place.come.load(Ordering::SeqCst) >= all {
                place.met.fetch_add(1, Ordering::SeqCst);
                return;
            }
            sleep(rt, Duration::from_millis(1));
        }
    }
}

/// Puts so many tasks that wait for one another into `queue`.
fn invite<'a, R>(queue: &UnboundedSender<Guest<'a, R>>, rt: &'a R, place: &'a Place, all: usize) {
    for _ in 0..all {
        // The queue is open: `met` has its receiver.
        let _ = queue.send(Guest { rt, place, all });
    }
}

/// Runs so many tasks that wait for one another on the threads of `pool`, and returns how many of them saw all.
///
/// `rt` runs the threads. With fewer threads than tasks, some task waits in vain. `Err`: out of memory, or no thread
/// could be started.
pub fn met<R>(rt: &R, pool: &Pool, all: usize) -> io::Result<usize>
where
    R: Wait + Threads + Clock + RandomSource + AllocGlobal + Sync,
{
    let place = Place {
        come: AtomicUsize::new(0),
        met: AtomicUsize::new(0),
    };
    let (queue, guests) = unbounded_channel(rt.alloc())?;
    invite(&queue, rt, &place, all);
    drop(queue);
    pool.run_all(
        rt,
        guests.map(|guest| ready(guest).map(|guest| guest.meet())),
    )?;
    Ok(place.met.load(Ordering::SeqCst))
}
