//! A task on its own thread, which sends its result to the receiver that waits for it.

ghost use Rattle.std.specs.Prelude.{IfOk, IfSome};

use oneshot_channel::{RecvError, Sender, channel};
use std::alloc::{AllocError, Global};
use std::sync::Wait;
use std::thread::{JoinHandle, Threads, join, spawn};
use std::time::Clock;

/// Calls `work`, and sends its result.
///
/// `work` returns the result, and `waiter` sends it to whoever waits for it. `Some`: the result, since the
/// receiver is gone. `None`: it was sent.
pub fn perform<T: Drop, F: FnOnce() -> T>(work: F, waiter: Sender<T>) -> Option<T>
    requires { F.pre work }
    ensures { IfSome result (F.post work) }
{
    match waiter.send(work()) {
        Ok(()) => None,
        Err(refused) => Some(refused.into_inner()),
    }
}

/// Starts `work` on its own thread.
///
/// `rt` starts the thread, `work` returns the result, and `waiter` sends it to whoever waits for it. `Ok`:
/// the thread; joining it returns the result if the receiver was gone. `Err`: no thread could be started,
/// and the sender was dropped.
pub fn start<R: Threads, T: Send + Drop + 'static, F: FnOnce() -> T + Send + Drop + 'static>(
    rt: &R,
    work: F,
    waiter: Sender<T>,
) -> Result<JoinHandle<Option<T>>, AllocError>
    requires { F.pre work }
{
    Ok(spawn(rt, move || perform(work, waiter))?)
}

/// The outcome of a task whose thread was joined.
#[derive(Drop)]
pub struct Joined<T> {
    /// What the receiver got. `Err` if the sender was dropped without a result.
    pub received: Result<T, RecvError>,
    /// What the thread returned: the result, if the receiver was gone.
    pub unclaimed: Option<T>,
}

/// Starts `work`, waits for its result, and joins its thread.
///
/// `rt` starts the thread and waits, `alloc` allocates the channel, and `work` returns the result. `Ok`: the
/// task's outcome. `Err`: out of memory, or no thread could be started.
pub fn awaited<
    R: Threads + Wait + Clock,
    T: Send + Drop + 'static,
    F: FnOnce() -> T + Send + Drop + 'static,
>(rt: &R, alloc: Global, work: F) -> Result<Joined<T>, AllocError>
    requires { F.pre work }
{
    let (waiter, receiver) = channel(rt, alloc)?;
    let thread = start(rt, work, waiter)?;
    let received = receiver.recv();
    let unclaimed = thread.join(rt);
    Ok(Joined {
        received,
        unclaimed,
    })
}

/// Runs `work` by `perform` after the receiver of its result was dropped.
///
/// `rt` runs the threads, `alloc` allocates the channel, and `work` returns the result. `Ok`: what `perform`
/// returned: the result, or `None` if it was sent. `Err`: out of memory.
pub fn unclaimed<R: Threads, T: Send + Drop, F: FnOnce() -> T + Send>(
    rt: &R,
    alloc: Global,
    work: F,
) -> Result<Option<T>, AllocError>
    requires { F.pre work }
    ensures { IfOk result (λ back. IfSome back (F.post work)) }
{
    let (waiter, receiver) = channel::<T, ()>((), alloc)?;
    drop(receiver);
    let (back, ()) = join(rt, move || perform(work, waiter), || ());
    Ok(back)
}
