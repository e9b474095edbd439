//! A caller that knows which message its receiver took.

ghost use Rattle.std.specs.Prelude.{◌≡◌, None, Some, Err, IfOk};
ghost use Rattle.oneshot_channel.specs.TryRecvError.TheVariants as Tried;

use oneshot_asserts::assert_same;
use oneshot_channel::laws::an_open_receiver_took_none;
use oneshot_channel::{Promise, Receiver, TryRecvError, channel};

/// Receives if the message is there, whatever was done with the receiver before. A message that comes is the one
/// that the receiver took. After `Empty` the receiver has taken none.
fn tried<T: Drop, Rt: Drop, P: Promise<T>>(
    receiver: &mut Receiver<T, Rt, P>,
) -> Result<T, TryRecvError>
    ensures taken { IfOk result (λ message. receiver.new.took ≡ Some message) }
    ensures none { result ≡ Err Tried.Empty → receiver.new.took ≡ None }
{
    let result = receiver.try_recv();
    an_open_receiver_took_none(receiver);
    result
}

#[test]
fn a_message_is_taken_once(rt: HostRuntime) {
    let (sender, mut receiver) = channel::<u8, ()>((), rt.alloc()).expect(&rt, "memory");
    let early = tried(&mut receiver);
    let sent = sender.send(7).is_ok();
    let late = (tried(&mut receiver), tried(&mut receiver));
    let empty = Err(TryRecvError::Empty);
    let closed = Err(TryRecvError::Disconnected);
    assert_same!(rt; (early, sent, late), (empty, true, (Ok(7), closed)));
}
