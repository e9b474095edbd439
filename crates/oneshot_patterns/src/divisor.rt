//! A search for a divisor on its own thread, whose result is awaited as a future.

ghost use Rattle.std.specs.Prelude.{◌≡◌, ◌≢◌, ◌%◌, ◌<◌, ℕ, IfNone, IfOk, IfSome};

use futures::executor::block_on;
use oneshot_channel::{AsyncReceiver, RecvError, Sender, async_channel};
use std::alloc::{AllocError, AllocGlobal, Global};
use std::io;
use std::random::RandomSource;
use std::sync::Wait;
use std::thread::{JoinHandle, Threads, spawn};

/// A number and a divisor of it that is neither 1 nor the number.
#[derive(Drop)]
pub struct Divisor {
    /// The number.
    pub number: u32,
    /// The divisor.
    pub value: u32,
    ghost divides: { number % value ≡ 0 },
    ghost above_one: { 1 < value },
    ghost below_number: { value < number },
}

/// Returns the least divisor of `number` that is above 1 and below the number.
///
/// `None`: there is none, since `number` is a prime, 0 or 1.
pub fn least_divisor(number: u32) -> Option<Divisor>
    ensures number { IfSome result (λ divisor. divisor.number ≡ number) }
    ensures least { IfSome result (λ divisor. (k : ℕ) → 1 < k → k < divisor.value → number % k ≢ 0) }
    ensures none { IfNone result ((k : ℕ) → 1 < k → k < number → number % k ≢ 0) }
{
    for value in 2..number {
        if number % value == 0 {
            return Some(Divisor { number, value });
        }
    }
    None
}

/// Sends the least divisor of `number`. If there is none, drops the sender without a message.
///
/// `number` is the number to divide, and `waiter` sends the divisor to whoever awaits it. The result is how many
/// numbers it tried as divisors.
pub fn send_divisor(number: u32, waiter: Sender<Divisor>) -> u32 {
    let Some(divisor) = least_divisor(number) else {
        return number.saturating_sub(2);
    };
    let tried = divisor.value.saturating_sub(1);
    // If the receiver is gone, nobody needs the divisor.
    let _ = waiter.send(divisor);
    tried
}

/// A search on its own thread, which has to be joined: it is not `Drop`, so a program that only lets it go does not
/// compile.
pub struct Search {
    thread: JoinHandle<u32>,
}

impl Search {
    /// Waits until the thread has ended, and returns how many numbers it tried as divisors.
    pub fn join<R: Threads>(self, rt: &R) -> u32 {
        let Search { thread } = self;
        thread.join(rt)
    }
}

/// Starts the search on its own thread.
///
/// `rt` starts the thread, `number` is the number to divide, and `waiter` sends its divisor.
/// `Ok`: the search, to be joined. `Err`: no thread could be started, and the sender was dropped.
pub fn start<R: Threads>(
    rt: &R,
    number: u32,
    waiter: Sender<Divisor>,
) -> Result<Search, AllocError> {
    let thread = spawn(rt, move || send_divisor(number, waiter))?;
    Ok(Search { thread })
}

/// Awaits a divisor of `number`.
///
/// `rt` is the executor's runtime, and `receiver` the future of the divisor. Inner `Ok`: the divisor,
/// above 1 and below the number. `Err(RecvError)`: the sender was dropped without a divisor, or sent one
/// of another number. Outer `Err`: the executor failed.
pub fn await_divisor<R, Rt>(
    rt: &R,
    number: u32,
    receiver: AsyncReceiver<Divisor, Rt>,
) -> io::Result<Result<u32, RecvError>>
where
    R: Wait + RandomSource + AllocGlobal,
    Rt: Drop,
    ensures divides { IfOk result (λ found. IfOk found (λ value. number % value ≡ 0)) }
    ensures proper { IfOk result (λ found. IfOk found (λ value. (1 < value) × (value < number))) }
{
    match block_on(rt, receiver)? {
        Ok(divisor) if divisor.number == number => Ok(Ok(divisor.value)),
        _ => Ok(Err(RecvError)),
    }
}

/// What came of a search that has ended.
#[derive(Drop)]
pub struct Searched {
    /// The divisor, above 1 and below the number. `Err(RecvError)`: the search ended without one.
    pub found: Result<u32, RecvError>,
    /// How many numbers it tried as divisors. Only the search's thread knows this, and tells it when it is joined.
    pub tried: u32,
}

/// Searches for a divisor of `number` on another thread, awaits it, and joins the thread.
///
/// `rt` runs the thread and the executor, `alloc` allocates the channel, and `number` is the number to
/// divide. `Err`: out of memory, no thread could be started, or the executor failed.
pub fn divisor_of<R: Threads + Wait + RandomSource + AllocGlobal>(
    rt: &R,
    alloc: Global,
    number: u32,
) -> io::Result<Searched>
    ensures divides { IfOk result (λ searched. IfOk searched.found (λ value. number % value ≡ 0)) }
    ensures proper { IfOk result (λ searched. IfOk searched.found (λ value. (1 < value) × (value < number))) }
{
    let (waiter, receiver) = async_channel((), alloc)?;
    let search = start(rt, number, waiter)?;
    let found = await_divisor(rt, number, receiver);
    let tried = search.join(rt);
    Ok(Searched {
        found: found?,
        tried,
    })
}
