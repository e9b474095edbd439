//! Callers that rely on contracts which state more than the result.

ghost use Rattle.std.specs.Prelude.{◌≡◌, ◌≢◌, None, Ok, Err, IsErr, IfSome};
ghost use Rattle.oneshot_channel.specs.Ends.{IsClosed, IsOpen};
ghost use Rattle.oneshot_channel.specs.TryRecvError.TheVariants as Tried;

use oneshot_asserts::{Asserts, assert_same};
use oneshot_channel::{
    RawReceiver, Receiver, RecvError, RecvTimeoutError, Sender, TryRecvError, channel,
};
use std::sync::Wait;
use std::time::{Clock, Duration, Instant};

/// Sends, and keeps the message if the receiver is gone.
fn send_or_keep(sender: Sender<u64>, message: u64) -> Option<u64>
    ensures { IfSome result (λ kept. kept ≡ message) }
{
    sender
        .send(message)
        .err()
        .map(|refused| refused.into_inner())
}

/// Receives if the message is there. `Ok(None)`: the channel is open, so try again.
fn poll<T: Drop, Rt: Drop>(receiver: &mut Receiver<T, Rt>) -> Result<Option<T>, RecvError>
    ensures open { result ≡ Ok None → IsOpen receiver.new.log }
    ensures closed { result ≢ Ok None → IsClosed receiver.new.log }
{
    match receiver.try_recv() {
        Ok(message) => Ok(Some(message)),
        Err(TryRecvError::Empty) => Ok(None),
        Err(TryRecvError::Disconnected) => Err(RecvError),
    }
}

/// Receives, and tries once more: no second message ever comes.
fn twice<T: Drop, Rt: Wait + Clock + Drop>(
    receiver: &mut Receiver<T, Rt>,
) -> (Result<T, RecvError>, Result<T, TryRecvError>)
    ensures { result.1 ≡ Err Tried.Disconnected }
{
    let first = receiver.recv_ref();
    (first, receiver.try_recv())
}

/// Receives by `deadline`. If that passes, calls `late` and then blocks without a deadline.
fn keep_waiting<T: Drop, Rt: Wait + Clock + Drop, F: FnOnce()>(
    mut receiver: Receiver<T, Rt>,
    deadline: Instant,
    late: F,
) -> Result<T, RecvError>
    requires { F.pre late }
{
    match receiver.recv_deadline(deadline) {
        Ok(message) => Ok(message),
        Err(RecvTimeoutError::Disconnected) => Err(RecvError),
        Err(RecvTimeoutError::Timeout) => {
            late();
            receiver.recv()
        }
    }
}

/// Receives with a closed receiver: no message comes.
fn received_before<T: Drop, Rt: Wait + Clock + Drop>(
    receiver: Receiver<T, Rt>,
) -> Result<T, RecvError>
    requires { IsClosed receiver.log }
    ensures { IsErr result }
{
    receiver.recv()
}

/// Receives with a closed receiver that was kept as a raw value: no message comes.
fn opaque_received_before<T: Drop, Rt: Wait + Clock + Drop>(
    raw: RawReceiver<T, Rt>,
) -> Result<T, RecvError>
    requires { IsClosed raw.log }
    ensures { IsErr result }
{
    Receiver::from_raw(raw).recv()
}

/// The ends of a channel whose receiver waits by this runtime.
fn opened<R: Asserts + AllocGlobal>(rt: &R) -> (Sender<u64>, Receiver<u64, &R>) {
    channel(rt, rt.alloc()).expect(rt, "memory")
}

/// A receiver whose message, 19, was sent.
fn receiver_of_19<R: Asserts + AllocGlobal>(rt: &R) -> Receiver<u64, &R> {
    let (sender, receiver) = opened(rt);
    assert!(rt; sender.send(19).is_ok());
    receiver
}

#[test]
fn a_message_is_kept_if_the_receiver_is_gone(rt: HostRuntime) {
    let (sender, receiver) = opened(&rt);
    drop(receiver);
    assert_same!(rt; send_or_keep(sender, 19), Some(19));
}

#[test]
fn a_message_that_was_sent_is_not_kept(rt: HostRuntime) {
    let (sender, receiver) = opened(&rt);
    let kept = send_or_keep(sender, 19);
    assert_same!(rt; (kept, receiver.recv()), (None, Ok(19)));
}

#[test]
fn a_poll_is_made_again_while_the_channel_is_open(rt: HostRuntime) {
    let (sender, mut receiver) = channel::<u64, ()>((), rt.alloc()).expect(&rt, "memory");
    let early = poll(&mut receiver);
    let sent = sender.send(19).is_ok();
    let late = (poll(&mut receiver), poll(&mut receiver));
    assert_same!(rt;
        (early, sent, late),
        (Ok(None), true, (Ok(Some(19)), Err(RecvError)))
    );
}

#[test]
fn no_second_message_comes(rt: HostRuntime) {
    let mut receiver = receiver_of_19(&rt);
    let closed = Err(TryRecvError::Disconnected);
    assert_same!(rt; twice(&mut receiver), (Ok(19), closed));
    assert_same!(rt; receiver.recv(), Err(RecvError));
}

#[test]
fn a_receiver_blocks_on_after_its_deadline(rt: HostRuntime) {
    let now = Instant::now(&rt).expect(&rt, "a clock");
    let (sender, receiver) = opened(&rt);
    let mut sender = Some(sender);
    let received = keep_waiting(receiver, now, || {
        if let Some(sender) = sender.take() {
            // `keep_waiting`, which calls this closure, still has the receiver, so the message is not refused.
            let _ = sender.send(19);
        }
    });
    assert_same!(rt; received, Ok(19));
}

#[test]
fn a_receiver_that_received_ends_with_an_error(rt: HostRuntime) {
    let mut receiver = receiver_of_19(&rt);
    let first = receiver.recv_timeout(Duration::from_secs(60));
    assert_same!(rt; first, Ok(19));
    if first.is_ok() {
        assert_same!(rt; received_before(receiver), Err(RecvError));
    }
}

#[test]
fn an_opaque_receiver_that_received_ends_with_an_error(rt: HostRuntime) {
    let mut receiver = receiver_of_19(&rt);
    assert_same!(rt; receiver.recv_ref(), Ok(19));
    assert_same!(rt; opaque_received_before(receiver.into_raw()), Err(RecvError));
}
