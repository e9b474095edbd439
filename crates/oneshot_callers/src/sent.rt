//! A caller that knows that the message which came back is the one that it sent.

ghost use Rattle.std.specs.Prelude.{◌≡◌, IfOk};

use oneshot_asserts::assert_same;
use oneshot_channel::{Promise, Receiver, RecvError, Sender, channel_for};
use std::sync::Wait;
use std::thread::join;
use std::time::Clock;

/// Promises exactly this message.
#[derive(Drop)]
struct Exactly(u64);

impl Promise<u64> for Exactly {
    ghost keeps = { λ exactly message. message ≡ exactly.0 };
}

/// Receives the message that the channel is about, if one comes.
fn received<Rt: Wait + Clock + Drop>(receiver: Receiver<u64, Rt, Exactly>) -> Result<u64, RecvError>
    ensures { IfOk result (λ message. message ≡ receiver.channel.about.0) }
{
    receiver.recv()
}

/// Sends the message that the channel is about.
fn send_it(sender: Sender<u64, Exactly>, message: u64) -> bool
    requires { message ≡ sender.channel.about.0 }
{
    sender.send_kept(message).is_ok()
}

#[test]
fn the_message_that_comes_back_is_the_one_that_was_sent(rt: HostRuntime) {
    let Ok((sender, receiver)) = channel_for(&rt, rt.alloc(), &Exactly(19)) else {
        panic!(rt; "memory")
    };
    let (message, sent) = join(&rt, || received(receiver), || send_it(sender, 19));
    assert_same!(rt; (message, sent), (Ok(19), true));
}
