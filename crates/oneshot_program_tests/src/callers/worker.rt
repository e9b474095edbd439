//! A worker that proves from its own receiver alone that no other receive returned its message.

ghost use Rattle.std.specs.Prelude.{IfOk};
ghost use Rattle.oneshot_values.specs.Values.{OnlyTheLastGot};

use oneshot::laws::{a_receiver_has_its_calls, calls_add_up};
use oneshot::{Receiver, TryRecvError, channel};
use oneshot_asserts::assert_same;
use oneshot_values::a_receiver_runs;

/// Tries to receive, whatever was done with the receiver before. `Ok`: no earlier receive got the message.
fn tried<T: Send + Drop, Rt: Drop>(receiver: &mut Receiver<T, Rt>) -> Result<T, TryRecvError>
    ensures { IfOk result (λ _. OnlyTheLastGot T receiver.new.log) }
{
    a_receiver_has_its_calls(receiver);
    calls_add_up::<T>();
    let result = receiver.try_recv();
    a_receiver_runs(receiver);
    result
}

#[test]
fn a_worker_gets_the_message_once(rt: HostRuntime) {
    let (sender, mut receiver) = channel::<u8, ()>((), rt.alloc()).expect(&rt, "memory");
    let before = tried(&mut receiver);
    let sent = sender.send(7).is_ok();
    let after = tried(&mut receiver);
    let again = tried(&mut receiver);
    assert_same!(rt;
        (before, sent, after, again),
        (
            Err(TryRecvError::Empty),
            true,
            Ok(7),
            Err(TryRecvError::Disconnected),
        )
    );
}
