//! What a channel carries.

ghost use Rattle.std.specs.Prelude.{◌≡◌};
ghost use Rattle.oneshot_machine.specs.Logs.{receiver_of};
ghost use Rattle.oneshot_machine.specs.Phases.{sending, finished};
ghost use Rattle.oneshot_machine.specs.Slots.{away};
ghost use Rattle.oneshot_machine.specs.Over.{FoundTheEnd};
ghost use Rattle.oneshot_ends.specs.Grounds.{state_of};
ghost use Rattle.oneshot_ends.specs.Woken.{HasEnded, phase};

use crate::ground::{ChannelReceiver, SenderBackend};
use oneshot_word::Promise;

/// The bound of a message in `send`, `recv`, and the `answer` and `wait` of requests. Every type that is `Drop`
/// implements it: write no `impl`. A function that knows only `T: Message` can neither drop nor forget a `T`, or an end
/// of its channel.
pub trait Message: Sized {
    /// Releases the sender of a `send` that returns `Ok`. `ground` is that sender's. Programs do not call this.
    fn sent<P: Promise<Self>>(ground: SenderBackend<Self, P>)
        requires ended { HasEnded sending ground }
        requires sent { phase ground ≡ finished sending };

    /// Releases the receiver of a `recv`. `ground` is that receiver's, without a message. Programs do not call this.
    fn received<P: Promise<Self>>(ground: ChannelReceiver<Self, P>)
        requires found { FoundTheEnd (receiver_of (state_of ground).log) }
        requires freed { ground.message ≡ away };
}

impl<T: Drop> Message for T {
    fn sent<P: Promise<T>>(ground: SenderBackend<T, P>)
        requires ended { HasEnded sending ground }
        requires sent { phase ground ≡ finished sending }
    {
        ground.sent();
    }

    fn received<P: Promise<T>>(ground: ChannelReceiver<T, P>)
        requires found { FoundTheEnd (receiver_of (state_of ground).log) }
        requires freed { ground.message ≡ away }
    {
        ground.received();
    }
}
