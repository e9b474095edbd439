//! The calls left to the receiver, or to the future that it became.

ghost use Rattle.std.specs.Prelude.{◌≡◌, []};
ghost use Rattle.std.specs.Option.{option_and_then};
ghost use Rattle.oneshot_machine.specs.declared.machine.End.TheVariants as Ends;
ghost use Rattle.oneshot_world.specs.Calls.{first, left_by, as_receiver_call, number_of};
ghost use Rattle.oneshot_world.specs.Scripts.{receiver_calls};

use crate::calls::future::FutureCalls;
use crate::script::{CallList, ReceiverCall, ReceiverLast, ReceiverScript};
use oneshot_machine::machine::{ReceiverStart, Reply};
use std::marker::Model;
use std::mem;

/// The calls left to the receiver, or to the future that it became, the one under way first.
#[derive(Drop)]
pub(crate) struct ReceiverCalls {
    calls: CallList<ReceiverCall>,
    answered: usize,
    last: ReceiverLast,
    future: Option<FutureCalls>,
}

impl Model for ReceiverCalls {
    ghost use Rattle.std.specs.Prelude.{[], drop, length, ◌≤◌};
    ghost use Rattle.std.specs.Option.{unwrap_or};
    ghost use Rattle.oneshot_world.specs.Calls.{Unanswered};
    ghost use Rattle.oneshot_world.specs.Scripts.{receiver_calls};

    ghost Value = { Unanswered };

    ghost view = { λ c. record {
      calls = unwrap_or c.future (receiver_calls (drop c.answered c.calls) c.last);
      error = [];
    } };

    ghost invariant = { λ c. c.answered ≤ length c.calls };
}

impl ReceiverCalls {
    /// All calls of `script`.
    pub(crate) fn new(script: ReceiverScript) -> ReceiverCalls
        ensures { result ≡ record { calls = receiver_calls script.calls script.last; error = [] } }
    {
        ReceiverCalls {
            calls: script.calls,
            answered: 0,
            last: script.last,
            future: None,
        }
    }

    /// The call under way or the next one; `None` if none is left.
    pub(crate) fn first(&self) -> Option<ReceiverStart>
        ensures { result ≡ option_and_then as_receiver_call (first self.now.calls) }
    {
        if let Some(future) = &self.future {
            return future.first();
        }
        let calls = self.calls.as_slice();
        if self.answered < calls.len() {
            match calls[self.answered] {
                ReceiverCall::TryRecv => Some(ReceiverStart::TryRecv),
                ReceiverCall::RecvRef => Some(ReceiverStart::RecvRef),
                ReceiverCall::RecvDeadline => Some(ReceiverStart::RecvDeadline),
                ReceiverCall::RecvTimeout { representable } => {
                    Some(ReceiverStart::RecvTimeout { representable })
                }
                ReceiverCall::HasMessage => Some(ReceiverStart::HasMessage),
                ReceiverCall::IsClosed => Some(ReceiverStart::IsClosed),
            }
        } else {
            match &self.last {
                ReceiverLast::Recv => Some(ReceiverStart::Recv),
                ReceiverLast::Drop => Some(ReceiverStart::Drop),
                ReceiverLast::IntoFuture(_) => Some(ReceiverStart::IntoFuture),
                ReceiverLast::Stop => None,
            }
        }
    }

    /// The number of that call's waker, if it is a poll.
    pub(crate) fn number(&self) -> Option<u64>
        ensures { result ≡ option_and_then number_of (first self.now.calls) }
    {
        match &self.future {
            Some(future) => future.number(),
            None => None,
        }
    }

    /// Removes that call if a step of it gave a `reply`. After `into_future` the future's calls are left.
    pub(crate) fn advance(&mut self, reply: Option<Reply>)
        ensures { self.new ≡ left_by Ends.Receiver reply self.old }
    {
        if reply.is_none() {
            return;
        }
        if let Some(future) = &mut self.future {
            future.answer();
            return;
        }
        if self.answered < self.calls.as_slice().len() {
            self.answered += 1;
            return;
        }
        if let ReceiverLast::IntoFuture(script) = mem::replace(&mut self.last, ReceiverLast::Stop) {
            self.future = Some(FutureCalls::new(script));
        }
    }
}
