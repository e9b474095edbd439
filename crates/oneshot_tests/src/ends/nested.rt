//! A channel whose message is the sender of another channel.

use super::open;
use oneshot_asserts::{Asserts, assert_same};
use oneshot_channel::{Receiver, Sender, TryRecvError};

/// A channel of senders, and a channel whose sender becomes the message.
struct Nest<'r, R> {
    outer_sender: Sender<Sender<u8>>,
    outer_receiver: Receiver<Sender<u8>, &'r R>,
    inner_sender: Sender<u8>,
    inner_receiver: Receiver<u8, ()>,
}

fn make_nest<R: AllocGlobal + Asserts>(rt: &R) -> Nest<'_, R> {
    let (outer_sender, outer_receiver) = open(rt, rt);
    let (inner_sender, inner_receiver) = open(rt, ());
    Nest {
        outer_sender,
        outer_receiver,
        inner_sender,
        inner_receiver,
    }
}

#[test]
fn a_sender_that_nobody_receives_is_dropped(rt: HostRuntime) {
    let Nest {
        outer_sender,
        outer_receiver,
        inner_sender,
        mut inner_receiver,
    } = make_nest(&rt);
    let is_sent = outer_sender.send(inner_sender).is_ok();
    let is_closed_before = inner_receiver.is_closed();
    drop(outer_receiver);
    let is_closed_after = inner_receiver.is_closed();
    assert_same!(rt;
        (
            is_sent,
            is_closed_before,
            is_closed_after,
            inner_receiver.try_recv()
        ),
        (true, false, true, Err(TryRecvError::Disconnected))
    );
}

#[test]
fn a_sender_that_is_refused_lives_as_long_as_the_error(rt: HostRuntime) {
    let Nest {
        outer_sender,
        outer_receiver,
        inner_sender,
        mut inner_receiver,
    } = make_nest(&rt);
    drop(outer_receiver);
    let refused = outer_sender.send(inner_sender);
    let is_refused = refused.is_err();
    let with_error = inner_receiver.try_recv();
    drop(refused);
    let without_error = inner_receiver.try_recv();
    assert_same!(rt;
        (is_refused, with_error, without_error),
        (
            true,
            Err(TryRecvError::Empty),
            Err(TryRecvError::Disconnected)
        )
    );
}

#[test]
fn a_sender_that_is_received_sends(rt: HostRuntime) {
    let Nest {
        outer_sender,
        outer_receiver,
        inner_sender,
        mut inner_receiver,
    } = make_nest(&rt);
    assert!(rt; outer_sender.send(inner_sender).is_ok());
    let Ok(sender) = outer_receiver.recv() else {
        panic!(rt; "the sender was sent")
    };
    let is_sent = sender.send(5).is_ok();
    assert_same!(rt; (is_sent, inner_receiver.try_recv()), (true, Ok(5)));
}
