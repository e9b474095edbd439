//! The first of two messages, and the other one if it is there too.

ghost use Rattle.std.specs.Prelude.{◌≡◌, ◌<◌, IfOk};

use futures::executor::block_on;
use futures::future::{Either, select};
use oneshot_asserts::assert_same;
use oneshot_channel::{AsyncReceiver, Promise, RecvError, TryRecvError, async_channel_for};
use std::alloc::AllocGlobal;
use std::io;
use std::random::RandomSource;
use std::sync::Wait;

/// Promises an index below this length.
#[derive(Drop)]
struct Below(usize);

impl Promise<usize> for Below {
    ghost keeps = { λ below index. index < below.0 };
}

/// The first answer, and what the other future had by then.
type Both = (Result<usize, RecvError>, Result<usize, TryRecvError>);

/// Awaits the first of two futures, and takes the message of the other if it is there.
fn first_of<R: Wait + RandomSource + AllocGlobal>(
    rt: &R,
    left: AsyncReceiver<usize, (), Below>,
    right: AsyncReceiver<usize, (), Below>,
) -> io::Result<Both>
    requires { right.channel.about ≡ left.channel.about }
    ensures first { IfOk result (λ both. IfOk both.0 (λ index. index < left.channel.about.0)) }
    ensures other { IfOk result (λ both. IfOk both.1 (λ index. index < left.channel.about.0)) }
{
    match block_on(rt, select(left, right))? {
        Either::Left((first, mut other)) => Ok((first, other.try_recv())),
        Either::Right((first, mut other)) => Ok((first, other.try_recv())),
    }
}

#[test]
fn the_other_message_is_not_lost(rt: HostRuntime) {
    let Ok((left, left_future)) = async_channel_for((), rt.alloc(), &Below(9)) else {
        panic!(rt; "memory")
    };
    let Ok((right, right_future)) = async_channel_for((), rt.alloc(), &Below(9)) else {
        panic!(rt; "memory")
    };
    let sent = (right.send_kept(7).is_ok(), left.send_kept(5).is_ok());
    let both = first_of(&rt, left_future, right_future).expect(&rt, "an executor");
    assert_same!(rt; (sent, both), ((true, true), (Ok(5), Ok(7))));
}

#[test]
fn a_message_after_the_first_comes_back(rt: HostRuntime) {
    let Ok((left, left_future)) = async_channel_for((), rt.alloc(), &Below(9)) else {
        panic!(rt; "memory")
    };
    let Ok((right, right_future)) = async_channel_for((), rt.alloc(), &Below(9)) else {
        panic!(rt; "memory")
    };
    let sent = right.send_kept(7).is_ok();
    let both = first_of(&rt, left_future, right_future).expect(&rt, "an executor");
    let back = match left.send_kept(5) {
        Ok(()) => None,
        Err(refused) => Some(refused.into_inner()),
    };
    let empty = Err(TryRecvError::Empty);
    assert_same!(rt; (sent, both, back), (true, (Ok(7), empty), Some(5)));
}
