//! A caller that tries a future before it awaits it.

ghost use Rattle.std.specs.Prelude.{◌≡◌, ◌≢◌, None};
ghost use Rattle.oneshot_channel.specs.Ends.{IsClosed, IsOpen};
ghost use Rattle.oneshot_channel.specs.Phases.{receiver_at};
ghost use Rattle.oneshot_channel.specs.Polls.{is_registered};

use futures::executor::block_on;
use futures::task::Poll;
use futures::test::MockTask;
use oneshot_asserts::assert_same;
use oneshot_channel::{AsyncReceiver, RecvError, TryRecvError, async_channel};
use std::io;
use std::random::RandomSource;
use std::sync::Wait;
use std::thread::{sleep, spawn};
use std::time::Duration;

/// Returns the message, or an error if none can come. `None`: try or poll again; a waiting task still waits.
fn try_once<T: Drop, Rt: Drop>(receiver: &mut AsyncReceiver<T, Rt>) -> Option<Result<T, RecvError>>
    ensures open { result ≡ None → IsOpen receiver.new.log }
    ensures done { result ≢ None → IsClosed receiver.new.log }
    ensures stays_registered { result ≡ None
        → is_registered (receiver_at receiver.new.log) ≡ is_registered (receiver_at receiver.old.log) }
{
    match receiver.try_recv() {
        Ok(message) => Some(Ok(message)),
        Err(TryRecvError::Disconnected) => Some(Err(RecvError)),
        Err(TryRecvError::Empty) => None,
    }
}

/// Receives at once if the message is there, and makes an executor only if it has to wait.
fn at_once_or_awaited<R: Wait + RandomSource + AllocGlobal, T: Drop, Rt: Drop>(
    rt: &R,
    mut receiver: AsyncReceiver<T, Rt>,
) -> io::Result<Result<T, RecvError>> {
    match try_once(&mut receiver) {
        Some(received) => Ok(received),
        None => block_on(rt, receiver),
    }
}

#[test]
fn a_message_that_is_there_is_received_at_once(rt: HostRuntime) {
    let (sender, receiver) = async_channel(&rt, rt.alloc()).expect(&rt, "memory");
    let sent = sender.send(19u64).is_ok();
    let received = at_once_or_awaited(&rt, receiver).expect(&rt, "an executor");
    assert_same!(rt; (sent, received), (true, Ok(19)));
}

#[test]
fn a_message_that_is_not_there_is_awaited(rt: HostRuntime) {
    let (sender, receiver) = async_channel(&rt, rt.alloc()).expect(&rt, "memory");
    let sending = spawn(&rt, move || {
        sleep(&rt, Duration::from_millis(20));
        sender.send(20u64).is_ok()
    });
    let sending = sending.expect(&rt, "a thread");
    let received = at_once_or_awaited(&rt, receiver).expect(&rt, "an executor");
    assert_same!(rt; (received, sending.join(&rt)), (Ok(20), true));
}

#[test]
fn a_try_leaves_the_task_to_be_woken(rt: HostRuntime) {
    let task = MockTask::new(&rt).expect(&rt, "a task");
    let (sender, mut receiver) = async_channel(&rt, rt.alloc()).expect(&rt, "memory");
    let early = (task.poll(&mut receiver), try_once(&mut receiver));
    assert_same!(rt; (early, task.is_woken()), ((Poll::Pending, None), false));
    let sent = (sender.send(19u64).is_ok(), task.is_woken());
    assert_same!(rt; sent, (true, true));
    let late = (try_once(&mut receiver), try_once(&mut receiver));
    assert_same!(rt; late, (Some(Ok(19)), Some(Err(RecvError))));
}
