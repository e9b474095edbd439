//! A worker that repeats its work until it receives a stop signal, or the sender of the signal is dropped.

ghost use Rattle.std.specs.Prelude.{◌≡◌, ◌≢◌, ◌≤◌};
ghost use Rattle.oneshot_channel.specs.Ends.{IsClosed};
ghost use Rattle.oneshot_patterns.specs.declared.shutdown.Ending.TheVariants.{Done};

use oneshot_channel::{Receiver, Sender, TryRecvError, channel};
use std::alloc::{AllocError, Global};
use std::thread::{Threads, join, yield_now};

/// Why a worker stopped.
#[derive(Clone, Copy, Debug, PartialEq, Eq)]
pub enum Ending {
    /// It received the stop signal.
    Told,
    /// The sender of the signal was dropped.
    Left,
    /// It completed all its rounds.
    Done,
}

/// What a worker did.
#[derive(Clone, Copy, Debug, PartialEq, Eq)]
pub struct Report {
    /// How many rounds it completed.
    pub rounds: u64,
    /// Why it stopped.
    pub ending: Ending,
}

/// Calls `round` until the stop signal comes or its sender is dropped, but at most `limit` times.
///
/// `stop` is the receiver of the signal, `limit` the largest number of rounds, and a call of `round` is one
/// round. Returns how many rounds were completed, and why the worker stopped.
pub fn work_until<Rt: Drop, F: FnMut()>(
    stop: &mut Receiver<(), Rt>,
    limit: u64,
    mut round: F,
) -> Report
    requires { F.IsAlwaysCallable round }
    ensures limit { result.rounds ≤ limit }
    ensures done { result.ending ≡ Done → result.rounds ≡ limit }
    ensures heard { result.ending ≢ Done → IsClosed stop.new.log }
{
    for rounds in 0..limit {
        match stop.try_recv() {
            Ok(()) => {
                return Report {
                    rounds,
                    ending: Ending::Told,
                };
            }
            Err(TryRecvError::Disconnected) => {
                return Report {
                    rounds,
                    ending: Ending::Left,
                };
            }
            Err(TryRecvError::Empty) => round(),
        }
    }
    Report {
        rounds: limit,
        ending: Ending::Done,
    }
}

/// How an owner stops its worker.
#[derive(Clone, Copy)]
pub enum Order {
    /// It sends the stop signal.
    Stop,
    /// It drops the sender of the signal.
    Leave,
}

/// Stops the worker that has the receiver of `stop`, in the way that `order` states.
fn end(stop: Sender<()>, order: Order) {
    match order {
        Order::Stop => {
            // If the worker is gone, there is nothing to stop.
            let _ = stop.send(());
        }
        Order::Leave => drop(stop),
    }
}

/// Runs a worker, which yields in each round, until an owner on another thread stops it.
///
/// `rt` is the runtime of the threads, `alloc` allocates the channel, and `order` is how the owner stops it.
/// `Ok`: the worker's report. `Err`: out of memory.
pub fn watched<R: Threads>(rt: &R, alloc: Global, order: Order) -> Result<Report, AllocError> {
    let (stop, mut stopped) = channel::<(), ()>((), alloc)?;
    let ((), report) = join(
        rt,
        move || end(stop, order),
        move || work_until(&mut stopped, u64::MAX, yield_now),
    );
    Ok(report)
}
