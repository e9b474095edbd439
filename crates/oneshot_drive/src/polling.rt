//! The drivers of a future's calls: a poll, a receive that never blocks, and the drop.

ghost use Rattle.std.specs.Prelude.{◌≡◌, [], Some, None, IfOk};
ghost use Rattle.futures.specs.Poll.{IfReady, OnPending};
ghost use Rattle.oneshot_machine.specs.declared.machine.Reply.TheVariants as R;
ghost use Rattle.oneshot_machine.specs.declared.machine.receiver.ReceiverPos.TheVariants.{Future, AsyncDrop};
ghost use Rattle.oneshot_machine.specs.declared.machine.future.FuturePos.TheVariants.{PollLoad, PollCopy, PollWrite, AgainCopy};
ghost use Rattle.oneshot_machine.specs.declared.machine.async_drop.AsyncDropPos.TheVariants.{AsyncExchange, AsyncSwap};
ghost use Rattle.oneshot_machine.specs.declared.machine.receiver.ReceiverStart.TheVariants as C;
ghost use Rattle.oneshot_machine.specs.declared.states.Op.TheVariants.{Swap};
ghost use Rattle.oneshot_machine.specs.Counts.{receiver_bound, MakesWithin};
ghost use Rattle.oneshot_machine.specs.Logs.{receiver_of};
ghost use Rattle.oneshot_machine.specs.Phases.{idle, after_load, waits, again};
ghost use Rattle.oneshot_machine.specs.Receiver.{receiver_step, receiver_row};
ghost use Rattle.oneshot_machine.specs.Runs.{Ran, ReceiverRan};
ghost use Rattle.oneshot_machine.specs.TableRows.{Goes};
ghost use Rattle.oneshot_drive.specs.declared.found.Found.TheVariants as F;
ghost use Rattle.oneshot_drive.specs.Blocking.{Path};
ghost use Rattle.oneshot_machine.specs.Over.{HasLeft};
ghost use Rattle.oneshot_drive.specs.BetweenCalls.{try_recv_reply, received};
ghost use Rattle.oneshot_drive.specs.Grounds.{Stands, ReceiverAsks};
ghost use Rattle.oneshot_drive.specs.Polls.{IsPolled, poll_reply, poll_received, poll_end, EndsPoll, MayLeave, WroteCopies, WritesItsCopy};
ghost use Rattle.oneshot_drive.specs.Polls.{HandsNoWaker, LeavesTask};

use crate::found::Found;
use crate::ground::{DropGround, ReceiverGround, TaskGround};
use futures::task::Poll;
use oneshot_errors::{RecvError, TryRecvError};
use oneshot_machine::states::{DISCONNECTED, EMPTY, MESSAGE, RECEIVING, UNPARKING};

/// Polls the receiver once. `g` is between two calls. It never blocks.
///
/// - `Ready(Ok)`: the message. The receiver is closed.
/// - `Ready(Err)`: the sender was dropped without sending, or the message was received before.
/// - `Pending`: no message yet. The channel has a new copy of the task's waker, in place of an earlier
///   poll's; or the poll woke its own task, because the copy was refused or the sender is about to finish.
pub fn poll<T, W: Drop, G: TaskGround<T, W>>(g: &mut G) -> Poll<Result<T, RecvError>>
    requires { IsPolled (G.state g.old) }
    ensures run { ReceiverRan C.Poll (G.state g.old).log (G.state g.new).log
        (poll_reply result) [] (poll_received result) }
    ensures rests { IsPolled (G.state g.new) }
    ensures bounded { MakesWithin (receiver_bound C.Poll) (G.state g.old).log (G.state g.new).log }
    ensures own_copy { WritesItsCopy (G.state g.old).log (G.state g.new).log }
    ensures heard { OnPending result (G.heard g.new) }
    ensures task { OnPending result
        (LeavesTask (receiver_of (G.state g.new).log) (G.has g.new None) (G.woke_own g.new)) }
    ensures given { IfReady result (λ answer. IfOk answer (λ message. G.gives g.old message)) }
    ensures had { IfReady result (λ answer. IfOk answer (λ message. G.had g.new message)) }
    ensures keeps { G.keeps g.old g.new }
{
    match meet(g) {
        Found::Message => {
            g.store(DISCONNECTED);
            Poll::Ready(Ok(g.take_message()))
        }
        Found::Nothing => Poll::Pending,
        Found::Closed | Found::Overwritten => Poll::Ready(Err(RecvError)),
    }
}

// Loads the word, and leaves a copy if the sender has not acted.
fn meet<T, W: Drop, G: TaskGround<T, W>>(g: &mut G) -> Found
    requires { IsPolled (G.state g.old) }
    ensures path { Path (Future PollLoad) (poll_end result) (G.state g.old).log (G.state g.new).log }
    ensures ends { EndsPoll result (G.state g.new) }
    ensures heard { result ≡ F.Nothing → G.heard g.new }
    ensures task { result ≡ F.Nothing
        → LeavesTask (receiver_of (G.state g.new).log) (G.has g.new None) (G.woke_own g.new) }
    ensures own { WritesItsCopy (G.state g.old).log (G.state g.new).log }
    ensures keeps { G.keeps g.old g.new }
{
    match g.load() {
        EMPTY => leave_first(g),
        RECEIVING => leave_again(g),
        MESSAGE => Found::Message,
        // The sender will wake the task of an earlier poll, perhaps not this one, so this task wakes itself.
        UNPARKING => {
            g.wake_own();
            Found::Nothing
        }
        DISCONNECTED => Found::Closed,
        _ => unreachable!(),
    }
}

// Leaves a copy where there was none.
fn leave_first<T, W: Drop, G: TaskGround<T, W>>(g: &mut G) -> Found
    requires { Stands (idle after_load) (G.state g.old) }
    ensures path { Path (Future PollCopy) (poll_end result) (G.state g.old).log (G.state g.new).log }
    ensures ends { EndsPoll result (G.state g.new) }
    ensures heard { result ≡ F.Nothing → G.heard g.new }
    ensures task { result ≡ F.Nothing
        → LeavesTask (receiver_of (G.state g.new).log) (G.has g.new None) (G.woke_own g.new) }
    ensures own { WritesItsCopy (G.state g.old).log (G.state g.new).log }
    ensures keeps { G.keeps g.old g.new }
{
    let Some(copy) = g.copy() else {
        g.wake_own();
        return Found::Nothing;
    };
    leave(g, copy)
}

// Leaves this copy, unless the sender has acted.
fn leave<T, W: Drop, G: TaskGround<T, W>>(g: &mut G, copy: W) -> Found
    requires open { MayLeave (G.state g.old) }
    requires heard { G.heard g.old }
    requires has { G.has g.old (Some copy) }
    ensures path { Path (Future PollWrite) (poll_end result) (G.state g.old).log (G.state g.new).log }
    ensures ends { EndsPoll result (G.state g.new) }
    ensures heard { result ≡ F.Nothing → G.heard g.new }
    ensures task { result ≡ F.Nothing
        → LeavesTask (receiver_of (G.state g.new).log) (G.has g.new None) (G.woke_own g.new) }
    ensures own { WroteCopies (Some copy) (G.state g.old).log (G.state g.new).log }
    ensures keeps { G.keeps g.old g.new }
{
    g.write_waker(copy);
    let word = g.exchange(EMPTY, RECEIVING);
    if word == EMPTY {
        return Found::Nothing;
    }
    drop(g.withdraw());
    if word == MESSAGE {
        Found::Message
    } else {
        Found::Closed
    }
}

// Leaves a copy in place of an earlier poll's.
fn leave_again<T, W: Drop, G: TaskGround<T, W>>(g: &mut G) -> Found
    requires { Stands (waits again) (G.state g.old) }
    ensures path { Path (Future AgainCopy) (poll_end result) (G.state g.old).log (G.state g.new).log }
    ensures ends { EndsPoll result (G.state g.new) }
    ensures heard { result ≡ F.Nothing → G.heard g.new }
    ensures task { result ≡ F.Nothing
        → LeavesTask (receiver_of (G.state g.new).log) (G.has g.new None) (G.woke_own g.new) }
    ensures own { WritesItsCopy (G.state g.old).log (G.state g.new).log }
    ensures keeps { G.keeps g.old g.new }
{
    let Some(copy) = g.copy() else {
        g.wake_own();
        return Found::Nothing;
    };
    match g.exchange(RECEIVING, EMPTY) {
        RECEIVING => {
            let stored = g.withdraw();
            drop(stored);
            leave(g, copy)
        }
        MESSAGE => Found::Message,
        DISCONNECTED => Found::Closed,
        // The sender will wake the task of an earlier poll, perhaps not this one, so this task wakes itself.
        UNPARKING => {
            g.wake_own();
            Found::Nothing
        }
        _ => unreachable!(),
    }
}

/// Receives the message if it is there. `g` is between two calls. It never blocks, frees nothing, and leaves
/// a poll's copy of a waker in place.
///
/// - `Ok`: the message. The receiver is closed.
/// - `Err(Empty)`: nothing was sent yet, or the sender is about to finish.
/// - `Err(Disconnected)`: the sender was dropped without sending, or the message was received before.
pub fn async_try_recv<T, W, G: ReceiverGround<T, W>>(g: &mut G) -> Result<T, TryRecvError>
    requires { IsPolled (G.state g.old) }
    ensures run { ReceiverRan C.AsyncTryRecv (G.state g.old).log (G.state g.new).log
        (try_recv_reply result) [] (received result) }
    ensures rests { IsPolled (G.state g.new) }
    ensures bounded { MakesWithin (receiver_bound C.AsyncTryRecv) (G.state g.old).log (G.state g.new).log }
    ensures wakers { HandsNoWaker (G.state g.old).log (G.state g.new).log }
    ensures given { IfOk result (λ message. G.gives g.old message) }
    ensures had { IfOk result (λ message. G.had g.new message) }
    ensures keeps { G.keeps g.old g.new }
{
    match g.load() {
        MESSAGE => {
            g.store(DISCONNECTED);
            Ok(g.take_message())
        }
        DISCONNECTED => Err(TryRecvError::Disconnected),
        RECEIVING | UNPARKING | EMPTY => Err(TryRecvError::Empty),
        _ => unreachable!(),
    }
}

/// Drops the future, its copy of a waker in the channel, and the message if it is there. `g` is between two
/// calls. It never blocks. A sender that is about to finish takes that copy instead.
///
/// It frees the block if the sender was gone or had sent. Otherwise the sender's side frees it.
pub fn drop_async<T, W: Drop, G: DropGround<T, W>>(g: &mut G)
    requires { IsPolled (G.state g.old) }
    ensures run { ReceiverRan C.DropAsync (G.state g.old).log (G.state g.new).log R.Done [] [] }
    ensures left { HasLeft (receiver_of (G.state g.new).log) }
    ensures bounded { MakesWithin (receiver_bound C.DropAsync) (G.state g.old).log (G.state g.new).log }
{
    match g.load() {
        RECEIVING => {
            take_back(g);
            close(g);
        }
        UNPARKING | DISCONNECTED | EMPTY | MESSAGE => close(g),
        _ => unreachable!(),
    }
}

// Takes the copy back, unless the sender has acted.
fn take_back<T, W: Drop, G: ReceiverGround<T, W>>(g: &mut G)
    requires { Stands (waits again) (G.state g.old) }
    ensures path { Path (AsyncDrop AsyncExchange) (Goes (AsyncDrop AsyncSwap)) (G.state g.old).log (G.state g.new).log }
    ensures ends { ReceiverAsks (Swap DISCONNECTED) (G.state g.new) }
{
    match g.exchange(RECEIVING, EMPTY) {
        RECEIVING => drop(g.withdraw()),
        UNPARKING | DISCONNECTED | MESSAGE => {}
        _ => unreachable!(),
    }
}

// Closes the channel, and drops the message if it is there.
fn close<T, W, G: DropGround<T, W>>(g: &mut G)
    requires { ReceiverAsks (Swap DISCONNECTED) (G.state g.old) }
    ensures run { Ran receiver_step receiver_row (AsyncDrop AsyncSwap) (G.state g.old).log (G.state g.new).log
        R.Done [] [] }
    ensures left { HasLeft (receiver_of (G.state g.new).log) }
{
    match g.swap(DISCONNECTED) {
        MESSAGE => {
            g.drop_message();
            g.free();
        }
        DISCONNECTED => g.free(),
        // A sender about to finish sees by its last swap that the receiver is gone.
        UNPARKING | EMPTY => {}
        _ => unreachable!(),
    }
}
