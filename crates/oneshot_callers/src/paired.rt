//! Callers that have both ends of one channel, and callers of a future that know which message it took.

ghost use Rattle.std.specs.Prelude.{◌≡◌, ◌<◌, None, Some, Err, IfOk, IfSome};
ghost use Rattle.oneshot_channel.specs.TryRecvError.TheVariants as Tried;

use oneshot_asserts::assert_same;
use oneshot_channel::laws::an_open_future_took_none;
use oneshot_channel::{
    AsyncReceiver, Promise, Receiver, Sender, TryRecvError, async_channel, async_channel_for,
    channel_for,
};

/// Promises an index below this length.
#[derive(Drop)]
struct Below(usize);

impl Promise<usize> for Below {
    ghost keeps = { λ below index. index < below.0 };
}

/// Drops the sender, and returns the index if it is there: it is below the length that the sender's channel is about.
fn left_by<Rt: Drop>(
    sender: Sender<usize, Below>,
    receiver: &mut Receiver<usize, Rt, Below>,
) -> Option<usize>
    requires one { sender.channel ≡ receiver.old.channel }
    ensures below { IfSome result (λ index. index < sender.channel.about.0) }
{
    drop(sender);
    receiver.try_recv().ok()
}

/// The same of a future.
fn left_to_a_future<Rt: Drop>(
    sender: Sender<usize, Below>,
    future: &mut AsyncReceiver<usize, Rt, Below>,
) -> Option<usize>
    requires one { sender.channel ≡ future.old.channel }
    ensures below { IfSome result (λ index. index < sender.channel.about.0) }
{
    drop(sender);
    future.try_recv().ok()
}

/// Receives if the message is there, which is the one that the future took. After `Empty` it has taken none.
fn tried<T: Drop, Rt: Drop, P: Promise<T>>(
    future: &mut AsyncReceiver<T, Rt, P>,
) -> Result<T, TryRecvError>
    ensures taken { IfOk result (λ message. future.new.took ≡ Some message) }
    ensures none { result ≡ Err Tried.Empty → future.new.took ≡ None }
{
    let result = future.try_recv();
    an_open_future_took_none(future);
    result
}

#[test]
fn both_ends_are_about_one_length(rt: HostRuntime) {
    let Ok((sender, mut receiver)) = channel_for((), rt.alloc(), &Below(3)) else {
        panic!(rt; "memory")
    };
    let received = left_by(sender, &mut receiver);
    let Ok((sender, mut future)) = async_channel_for((), rt.alloc(), &Below(3)) else {
        panic!(rt; "memory")
    };
    let taken = left_to_a_future(sender, &mut future);
    assert_same!(rt; (received, taken), (None, None));
}

#[test]
fn a_future_takes_its_message_once(rt: HostRuntime) {
    let (sender, mut future) = async_channel::<u8, ()>((), rt.alloc()).expect(&rt, "memory");
    let early = tried(&mut future);
    let sent = sender.send(7).is_ok();
    let late = (tried(&mut future), tried(&mut future));
    let empty = Err(TryRecvError::Empty);
    let closed = Err(TryRecvError::Disconnected);
    assert_same!(rt; (early, sent, late), (empty, true, (Ok(7), closed)));
}
