//! Channels under a promise: what they carry and refuse.

ghost use Rattle.std.specs.Prelude.{◌≡◌};

use futures::executor::block_on;
use oneshot_asserts::assert_same;
use oneshot_channel::{Promise, TryRecvError, async_channel_for, channel_for};

// The promise that each message is this number.
#[derive(Drop)]
struct Only(u32);

impl Promise<u32> for Only {
    ghost keeps = { λ only message. message ≡ only.0 };
}

#[test]
fn a_channel_under_a_promise_carries_its_message(rt: HostRuntime) {
    let Ok((sender, mut receiver)) = channel_for((), rt.alloc(), &Only(5)) else {
        panic!(rt; "memory")
    };
    let before = receiver.try_recv();
    let is_sent = sender.send_kept(5).is_ok();
    assert_same!(rt;
        (before, is_sent, receiver.try_recv()),
        (Err(TryRecvError::Empty), true, Ok(5))
    );
}

#[test]
fn a_future_under_a_promise_carries_its_message(rt: HostRuntime) {
    let Ok((sender, receiver)) = async_channel_for((), rt.alloc(), &Only(5)) else {
        panic!(rt; "memory")
    };
    let is_closed = receiver.is_closed();
    assert_same!(rt; (is_closed, sender.send_kept(5).is_ok()), (false, true));
    let received = block_on(&rt, receiver).expect(&rt, "an executor");
    assert_same!(rt; received, Ok(5));
}

#[test]
fn a_send_to_a_dropped_future_is_refused(rt: HostRuntime) {
    let Ok((sender, receiver)) = async_channel_for((), rt.alloc(), &Only(5)) else {
        panic!(rt; "memory")
    };
    drop(receiver);
    let Err(refused) = sender.send_kept(5) else {
        panic!(rt; "the receiver is gone")
    };
    assert_same!(rt; refused.into_inner(), 5);
}
