//! The waker that a receiver stores in its channel, and the evidence that its sender used it.

ghost use Rattle.std.specs.Prelude.{◌≡◌};
ghost use Rattle.oneshot_ends.specs.Woken.{IsWoken};

use crate::token::{Given, WakingHalf};
use futures::task::Waker;
use std::snapshot::Snapshot;

/// What the sender wakes a waiting receiver by: the waking half of its parker, or a copy of its task's waker,
/// which wakes the task when it is dropped.
pub(crate) type ChannelWaker = oneshot_word::AnyWaker<WakingHalf, Waker>;

/// Evidence of which waker was used, and of the token if the waker is a thread's. Only `wake` makes one.
#[derive(Drop)]
pub(crate) struct Used {
    waker: Snapshot<ChannelWaker>,
    given: Option<Given>,
}

/// Wakes the receiver by `waker`.
// Rattle's contracts state nothing of the wake of a task, so whether this body wakes one is read, and tested.
pub(crate) fn wake(waker: ChannelWaker) -> Used
    ensures used { result.waker.value ≡ waker }
    ensures woken { IsWoken waker result.given }
{
    let used = Snapshot::of(&waker);
    let given = match waker {
        ChannelWaker::Thread(half) => Some(half.wake()),
        ChannelWaker::Task(waker) => {
            waker.wake();
            None
        }
    };
    Used { waker: used, given }
}
