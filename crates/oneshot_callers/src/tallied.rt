//! A caller that adds up its two calls: its receiver's log is that of both.

ghost use Rattle.std.specs.Prelude.{◌≡◌, [], ◌∷◌};
ghost use Rattle.oneshot_channel.specs.BetweenCalls.{try_recv_reply};
ghost use Rattle.oneshot_channel.specs.Called.{as_receiver, ReceiverCalled};
ghost use Rattle.oneshot_channel.specs.Ends.{UnnamedWaker};
ghost use Rattle.oneshot_channel.specs.ReceiverStart.TheVariants.{TryRecv};

use oneshot_asserts::assert_same;
use oneshot_channel::laws::calls_add_up;
use oneshot_channel::{Receiver, TryRecvError, channel};

/// Tries twice to receive, with a receiver whose log is empty.
fn tried_twice<T: Send + Drop>(
    receiver: &mut Receiver<T, ()>,
) -> (Result<T, TryRecvError>, Result<T, TryRecvError>)
    requires { receiver.old.log ≡ [] }
    ensures { ReceiverCalled T UnnamedWaker as_receiver
        ((TryRecv, try_recv_reply result.0) ∷ (TryRecv, try_recv_reply result.1) ∷ []) receiver.new.log }
{
    calls_add_up::<T>();
    let first = receiver.try_recv();
    let second = receiver.try_recv();
    (first, second)
}

#[test]
fn nothing_is_there_and_then_nobody(rt: HostRuntime) {
    let Ok((sender, mut receiver)) = channel::<u8, ()>((), rt.alloc()) else {
        panic!(rt; "memory")
    };
    let kept = tried_twice(&mut receiver);
    drop(sender);
    let Ok((_, mut receiver)) = channel::<u8, ()>((), rt.alloc()) else {
        panic!(rt; "memory")
    };
    let gone = tried_twice(&mut receiver);
    let empty = Err(TryRecvError::Empty);
    let closed = Err(TryRecvError::Disconnected);
    assert_same!(rt; (kept, gone), ((empty, empty), (closed, closed)));
}
