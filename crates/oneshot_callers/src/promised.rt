//! A channel with a user's own promise; docs/CALLING.md shows it.

ghost use Rattle.std.specs.Prelude.{◌<◌, IfSome};

use oneshot_asserts::assert_same;
use oneshot_channel::{Promise, Receiver, TryRecvError, channel_for};

/// Promises an index below this length.
#[derive(Drop)]
struct Below(usize);

impl Promise<usize> for Below {
    ghost keeps = { λ below index. index < below.0 };
}

/// Returns the index if it is there.
fn index_of<Rt: Drop>(receiver: &mut Receiver<usize, Rt, Below>) -> Option<usize>
    ensures { IfSome result (λ index. index < receiver.old.channel.about.0) }
{
    receiver.try_recv().ok()
}

#[test]
fn an_index_is_below_its_length(rt: HostRuntime) {
    let Ok((sender, mut receiver)) = channel_for((), rt.alloc(), &Below(3)) else {
        panic!(rt; "memory")
    };
    let early = index_of(&mut receiver);
    let sent = sender.send_kept(2).is_ok();
    let late = (index_of(&mut receiver), receiver.try_recv());
    let closed = Err(TryRecvError::Disconnected);
    assert_same!(rt; (early, sent, late), (None, true, (Some(2), closed)));
}
