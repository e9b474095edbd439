//! The ground of an error, which acts on the refused message and no longer on the shared word.

ghost use Rattle.std.specs.Prelude.{◌≡◌, false, true};
ghost use Rattle.oneshot_machine.specs.Slots.{away, held};
ghost use Rattle.oneshot_machine.specs.Phases.{sender_at};
ghost use Rattle.oneshot_machine.specs.Over.{IsLate};
ghost use Rattle.oneshot_drive.specs.BetweenCalls.{IsError};
ghost use Rattle.oneshot_ends.specs.Ends.{SenderIsOrdered, WasRefused, channel_at};
ghost use Rattle.oneshot_ends.specs.Grounds.{state_of};

use crate::freed::Freed;
use crate::token::WakingHalf;
use futures::task::Waker;
use oneshot_drive::ErrorGround;
use oneshot_word::laws::a_sender_is_in_an_order;
use oneshot_word::{AnyWaker, Promise, SenderSide};
use std::marker::Model;

/// A refused message, with the side of its sender, whose `send` found the receiver gone.
// It has no `Drop`, so that an error's last call runs on its ground.
pub(crate) struct Refused<T, H, K, P: Promise<T>> {
    message: T,
    side: SenderSide<T, H, K, P>,
}

impl<T, H, K, P: Promise<T>> Model for Refused<T, H, K, P> {
    ghost use Rattle.oneshot_machine.specs.Phases.{sender_at};
    ghost use Rattle.oneshot_machine.specs.Over.{IsLate};
    ghost use Rattle.oneshot_ends.specs.Ends.{RefusedView, WasRefused, channel_at};

    ghost Value = { RefusedView T P };

    ghost view = { λ e. record { message = e.message; channel = channel_at e.side; log = e.side.log } };

    ghost invariant = { λ e. IsLate (sender_at e.side.log) × WasRefused T e.side.log };
}

impl<T, H, K, P: Promise<T>> Refused<T, H, K, P> {
    pub(crate) fn new(message: T, side: SenderSide<T, H, K, P>) -> Refused<T, H, K, P>
        requires late { IsLate (sender_at side.log) }
        requires refused { WasRefused T side.log }
        ensures message { result.message ≡ message }
        ensures channel { result.channel ≡ channel_at side }
        ensures log { result.log ≡ side.log }
    {
        Refused { message, side }
    }

    pub(crate) fn message(&self) -> &T
        ensures { result.now ≡ self.now.message }
    {
        &self.message
    }

    // Mentions the side, so that the prover may use the type's invariant.
    pub(crate) fn was_refused(&self)
        ensures { WasRefused T self.now.log }
    {
        let _side = &self.side;
    }

    pub(crate) fn is_in_an_order(&self)
        ensures { SenderIsOrdered self.now.log }
    {
        a_sender_is_in_an_order(&self.side);
    }

    /// The ground of the error's last call.
    pub(crate) fn into_ground(self) -> RefusedSender<T, H, K, P>
        ensures { IsError (held self.message) (state_of result) }
    {
        let Refused { message, side } = self;
        RefusedSender::new(message, side)
    }
}

/// The ground of an error's last call, from which the message can be taken.
pub(crate) struct RefusedSender<T, H, K, P: Promise<T>> {
    message: Option<T>,
    side: SenderSide<T, H, K, P>,
    freed: Freed,
}

impl<T, H, K, P: Promise<T>> Model for RefusedSender<T, H, K, P> {
    ghost use Rattle.oneshot_machine.specs.Phases.{sender_at};
    ghost use Rattle.oneshot_machine.specs.Slots.{vacant};
    ghost use Rattle.oneshot_machine.specs.Over.{IsLate};
    ghost use Rattle.oneshot_word.specs.Side.{Side};
    ghost use Rattle.oneshot_word.specs.declared.any_waker.AnyWaker.{AnyWaker};
    ghost use Rattle.oneshot_ends.specs.Grounds.{unless_freed, slot_of};

    ghost Value = { Side T (AnyWaker H K) P };

    ghost view = { λ e. record e.side {
      message = unless_freed e.freed.value (slot_of e.message);
      waker = unless_freed e.freed.value vacant;
    } };

    ghost invariant = { λ e. IsLate (sender_at e.side.log) };
}

impl<T, H, K, P: Promise<T>> RefusedSender<T, H, K, P> {
    /// The ground of an error that has freed nothing.
    fn new(message: T, side: SenderSide<T, H, K, P>) -> RefusedSender<T, H, K, P>
        requires { IsLate (sender_at side.log) }
        ensures { IsError (held message) (state_of result) }
    {
        let freed = Freed::of(false);
        RefusedSender {
            message: Some(message),
            side,
            freed,
        }
    }
}

impl<T: Drop, P: Promise<T>> ErrorGround<T, AnyWaker<WakingHalf, Waker>>
    for RefusedSender<T, WakingHalf, Waker, P> {
    ghost use Rattle.oneshot_ends.specs.Grounds.{state_of};

    ghost state = { state_of };

    fn take_message(&mut self) -> T {
        self.message.take().unwrap()
    }

    fn drop_message(&mut self) {
        self.message = None;
    }

    fn free(&mut self) {
        self.freed = Freed::of(true);
    }
}

// It is released only once it has freed the block, before which it has given its message up.
impl<T: Drop, H: Drop, K: Drop, P: Promise<T>> Drop for RefusedSender<T, H, K, P> {
    fn drop(self)
        requires { self.message ≡ away }
    {
        let RefusedSender {
            message: _,
            side,
            freed: _,
        } = self;
        side.let_go();
    }
}
