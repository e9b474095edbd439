//! A sender's side before its one call, and its ground in that call.

ghost use Rattle.std.specs.Prelude.{◌≡◌, false, true, Some};
ghost use Rattle.oneshot_machine.specs.Phases.{sending, dropping, finished};
ghost use Rattle.oneshot_machine.specs.Slots.{held};
ghost use Rattle.oneshot_ends.specs.Ends.{SenderIsOrdered};

use crate::freed::Freed;
use crate::token::WakingHalf;
use crate::waker::{Used, wake};
use futures::task::Waker;
use oneshot_drive::SenderGround;
use oneshot_word::laws::a_sender_is_in_an_order;
use oneshot_word::{AnyWaker, Promise, SenderSide};
use std::marker::Model;

/// The side of a sender that has performed no operation.
pub(crate) struct Unsent<T, H, K, P: Promise<T>> {
    pub(super) side: SenderSide<T, H, K, P>,
}

impl<T, H, K, P: Promise<T>> Model for Unsent<T, H, K, P> {
    ghost use Rattle.oneshot_word.specs.Side.{Side};
    ghost use Rattle.oneshot_word.specs.declared.any_waker.AnyWaker.{AnyWaker};

    ghost Value = { Side T (AnyWaker H K) P };

    ghost view = { λ s. s.side };
}

impl<T, H, K, P: Promise<T>> Unsent<T, H, K, P> {
    pub(crate) fn new(side: SenderSide<T, H, K, P>) -> Unsent<T, H, K, P>
        ensures { result ≡ side }
    {
        Unsent { side }
    }

    pub(crate) fn is_in_an_order(&self)
        ensures { SenderIsOrdered self.now.log }
    {
        a_sender_is_in_an_order(&self.side);
    }
}

impl<T, P: Promise<T>> Unsent<T, WakingHalf, Waker, P> {
    /// The ground of the sender's one call.
    pub(crate) fn into_ground(self) -> SenderBackend<T, P>
        ensures { result.side ≡ self }
    {
        let Unsent { side } = self;
        SenderBackend::new(side)
    }
}

/// The ground of the sender's one call: its side, with evidence of whom the call has woken.
/// It has no `Drop`: `sent`, `dropped` or `into_refused` releases it, and all require that the call is over.
pub struct SenderBackend<T, P: Promise<T>> {
    side: SenderSide<T, WakingHalf, Waker, P>,
    // Whether `free` was called, for proofs alone: the block is freed with the last of both shares.
    freed: Freed,
    // Once it used a waker, evidence of it. Only proofs read it.
    used: Option<Used>,
}

impl<T, P: Promise<T>> Model for SenderBackend<T, P> {
    ghost use Rattle.oneshot_word.specs.declared.any_waker.AnyWaker.{AnyWaker};
    ghost use Rattle.oneshot_ends.specs.declared.token.WakingHalf.{WakingHalf};
    ghost use Rattle.futures.specs.declared.task.waker.Waker.{Waker};
    ghost use Rattle.oneshot_ends.specs.Grounds.{left_of};
    ghost use Rattle.oneshot_ends.specs.Woken.{Sending, sending_by};

    ghost Value = { Sending T (AnyWaker WakingHalf Waker) P };

    ghost view = { λ s. sending_by (left_of s.freed.value s.side) s.used };
}

impl<T, P: Promise<T>> SenderBackend<T, P> {
    /// The ground of a sender that has freed nothing.
    fn new(side: SenderSide<T, WakingHalf, Waker, P>) -> SenderBackend<T, P>
        ensures { result.side ≡ side }
    {
        let freed = Freed::of(false);
        SenderBackend {
            side,
            freed,
            used: None,
        }
    }
}

impl<T: Drop, P: Promise<T>> SenderBackend<T, P> {
    ghost use Rattle.oneshot_ends.specs.Woken.{HasEnded, phase};

    /// Releases the sender after a `send` to a receiver that was there.
    pub(crate) fn sent(self)
        requires ended { HasEnded sending self }
        requires sent { phase self ≡ finished sending }
    {
        let SenderBackend {
            side,
            freed: _,
            used: _,
        } = self;
        side.let_go();
    }

    /// Releases the sender after its drop.
    pub(crate) fn dropped(self)
        requires { HasEnded dropping self }
    {
        let SenderBackend {
            side,
            freed: _,
            used: _,
        } = self;
        side.let_go();
    }
}

impl<T, P: Promise<T>> SenderBackend<T, P> {
    ghost use Rattle.oneshot_ends.specs.Woken.{HasEnded};

    /// Takes the message out of its slot, and returns it with the side.
    pub(crate) fn into_refused(self) -> (T, SenderSide<T, WakingHalf, Waker, P>)
        requires ended { HasEnded sending self }
        requires full { (x : T) × (self.side.message ≡ held x) }
        ensures message { self.side.message ≡ held result.0 }
        ensures about { result.1.about ≡ self.side.about }
        ensures table { result.1.table ≡ self.side.table }
        ensures log { result.1.log ≡ self.side.log }
    {
        let SenderBackend {
            mut side,
            freed: _,
            used: _,
        } = self;
        let message = side.take_message();
        (message, side)
    }
}

impl<T, P: Promise<T>> SenderGround<T, AnyWaker<WakingHalf, Waker>> for SenderBackend<T, P> {
    ghost use Rattle.oneshot_ends.specs.Grounds.{state_of};
    ghost use Rattle.oneshot_ends.specs.Woken.{WokeBy, HasEnded};
    ghost use Rattle.std.proofs.Common.{◌∙◌};

    ghost state = { λ s. state_of s.side };

    // The channel stays about the same value.
    ghost keeps = { λ a b. b.side.about ≡ a.side.about };

    ghost keeps_on = { λ _ _ _ e f. f ∙ e };

    ghost admits = { λ s message. P.keeps s.side.about message };

    ghost owed = { λ s waker. s.side.handed ≡ Some waker };

    ghost woken = { λ s waker. WokeBy waker s };

    ghost gave = { λ s message. s.side.passed ≡ Some message };

    ghost ended = { λ by s. HasEnded by s };

    ghost ended_by = { λ _ _ over woke. record { over = over; woken = woke } };

    fn add(&mut self) -> u8 {
        self.side.add()
    }

    fn xor(&mut self) -> u8 {
        self.side.xor()
    }

    fn swap(&mut self, last: u8) -> u8 {
        self.side.swap(last)
    }

    fn write_message(&mut self, message: T) {
        self.side.write_message(message);
    }

    fn take_waker(&mut self) -> AnyWaker<WakingHalf, Waker> {
        self.side.take_waker()
    }

    fn wake(&mut self, waker: AnyWaker<WakingHalf, Waker>) {
        self.used = Some(wake(waker));
    }

    fn free(&mut self) {
        self.freed = Freed::of(true);
    }
}
