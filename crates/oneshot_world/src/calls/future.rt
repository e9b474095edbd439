//! The calls left to a future.

ghost use Rattle.std.specs.Prelude.{◌≡◌};
ghost use Rattle.std.specs.Option.{option_and_then};
ghost use Rattle.oneshot_world.specs.Calls.{first, rest, as_receiver_call, number_of};
ghost use Rattle.oneshot_world.specs.Scripts.{async_calls};

use crate::script::{AsyncCall, AsyncLast, AsyncScript, CallList};
use oneshot_machine::machine::ReceiverStart;
use std::marker::Model;

/// The calls left to the future, the one under way first.
#[derive(Drop)]
pub(crate) struct FutureCalls {
    calls: CallList<AsyncCall>,
    answered: usize,
    last: AsyncLast,
}

impl Model for FutureCalls {
    ghost use Rattle.std.specs.Prelude.{List, drop, length, ◌≤◌};
    ghost use Rattle.oneshot_world.specs.Calls.{Call};
    ghost use Rattle.oneshot_world.specs.Scripts.{async_calls};

    ghost Value = { List Call };

    ghost view = { λ c. async_calls (drop c.answered c.calls) c.last };

    ghost invariant = { λ c. c.answered ≤ length c.calls };
}

impl FutureCalls {
    /// All calls of `script`.
    pub(crate) fn new(script: AsyncScript) -> FutureCalls
        ensures { result ≡ async_calls script.calls script.last }
    {
        FutureCalls {
            calls: script.calls,
            answered: 0,
            last: script.last,
        }
    }

    /// The call under way or the next one; `None` if none is left.
    pub(crate) fn first(&self) -> Option<ReceiverStart>
        ensures { result ≡ option_and_then as_receiver_call (first self.now) }
    {
        let calls = self.calls.as_slice();
        if self.answered < calls.len() {
            match calls[self.answered] {
                AsyncCall::Poll(_) => Some(ReceiverStart::Poll),
                AsyncCall::TryRecv => Some(ReceiverStart::AsyncTryRecv),
                AsyncCall::HasMessage => Some(ReceiverStart::HasMessage),
                AsyncCall::IsClosed => Some(ReceiverStart::IsClosed),
            }
        } else {
            match self.last {
                AsyncLast::Drop => Some(ReceiverStart::DropAsync),
                AsyncLast::Stop => None,
            }
        }
    }

    /// The number of that call's waker, if it is a poll.
    pub(crate) fn number(&self) -> Option<u64>
        ensures { result ≡ option_and_then number_of (first self.now) }
    {
        let calls = self.calls.as_slice();
        if self.answered < calls.len() {
            match calls[self.answered] {
                AsyncCall::Poll(number) => Some(number),
                AsyncCall::TryRecv | AsyncCall::HasMessage | AsyncCall::IsClosed => None,
            }
        } else {
            None
        }
    }

    /// Removes that call, which has replied.
    pub(crate) fn answer(&mut self)
        ensures { self.new ≡ rest self.old }
    {
        if self.answered < self.calls.as_slice().len() {
            self.answered += 1;
        } else {
            self.last = AsyncLast::Stop;
        }
    }
}
