//! The ground of a receiver, which each of its calls lends to a driver.

ghost use Rattle.std.specs.Prelude.{◌≡◌, false, true, [], ◌∷◌};
ghost use Rattle.oneshot_machine.specs.declared.machine.Step.TheVariants.{WriteWaker};
ghost use Rattle.oneshot_machine.specs.Logs.{Grows, handed, receiver_of};
ghost use Rattle.oneshot_machine.specs.Slots.{away, vacant, held};
ghost use Rattle.oneshot_machine.specs.Over.{FoundTheEnd, HasLeft};
ghost use Rattle.oneshot_ends.specs.Ends.{ReceiverIsOrdered};

use crate::freed::Freed;
use crate::token::WakingHalf;
use futures::task::Waker;
use oneshot_drive::{DropGround, ReceiverGround};
use oneshot_word::laws::a_receiver_is_in_an_order;
use oneshot_word::{AnyWaker, Promise, ReceiverSide};
use std::marker::Model;

/// The ground of a channel's receiver.
pub type ChannelReceiver<T, P> = ReceiverBackend<T, WakingHalf, Waker, P>;

/// The receiver's ground, between its calls too: its side, with whether it has freed the block.
/// It has no `Drop`: `received` or `dropped` releases it, and both require that the last call is over.
pub struct ReceiverBackend<T, H, K, P: Promise<T>> {
    pub(super) side: ReceiverSide<T, H, K, P>,
    freed: Freed,
}

impl<T, H, K, P: Promise<T>> Model for ReceiverBackend<T, H, K, P> {
    ghost use Rattle.oneshot_word.specs.Side.{Side};
    ghost use Rattle.oneshot_word.specs.declared.any_waker.AnyWaker.{AnyWaker};
    ghost use Rattle.oneshot_ends.specs.Grounds.{left_of, MayBeFreed};
    ghost use Rattle.oneshot_machine.specs.Phases.{receiver_at};

    ghost Value = { Side T (AnyWaker H K) P };

    ghost view = { λ s. left_of s.freed.value s.side };

    ghost invariant = { λ s. MayBeFreed s.freed.value (receiver_at s.side.log) };
}

impl<T, H, K, P: Promise<T>> ReceiverBackend<T, H, K, P> {
    /// The ground of a receiver that has freed nothing.
    pub(crate) fn new(side: ReceiverSide<T, H, K, P>) -> ReceiverBackend<T, H, K, P>
        ensures { result ≡ side }
    {
        let freed = Freed::of(false);
        ReceiverBackend { side, freed }
    }

    pub(crate) fn is_in_an_order(&self)
        ensures { ReceiverIsOrdered self.now.log }
    {
        a_receiver_is_in_an_order(&self.side);
    }
}

impl<T: Drop, H: Drop, K: Drop, P: Promise<T>> ReceiverBackend<T, H, K, P> {
    ghost use Rattle.oneshot_ends.specs.Grounds.{state_of};

    /// Releases the receiver after its last receive, which leaves no message to it.
    pub(crate) fn received(self)
        requires found { FoundTheEnd (receiver_of (state_of self).log) }
        requires freed { self.message ≡ away }
    {
        let ReceiverBackend { side, freed: _ } = self;
        side.let_go();
    }

    /// Releases the receiver after its drop.
    pub(crate) fn dropped(self)
        requires { HasLeft (receiver_of (state_of self).log) }
    {
        let ReceiverBackend { side, freed: _ } = self;
        side.let_go();
    }
}

impl<T, P: Promise<T>> ReceiverBackend<T, WakingHalf, Waker, P> {
    ghost use Rattle.oneshot_machine.specs.Phases.{receiver_at};
    ghost use Rattle.oneshot_ends.specs.Grounds.{state_of};
    ghost use Rattle.oneshot_ends.specs.OwnWakers.{is_waiting};

    /// Writes `waker` into its slot. The receiver does not wait then.
    pub(super) fn give(&mut self, waker: AnyWaker<WakingHalf, Waker>)
        requires { self.old.waker ≡ vacant }
        ensures log { Grows (state_of self.old).log (state_of self.new).log (handed WriteWaker waker ∷ []) }
        ensures idle { is_waiting (receiver_at self.old.log) ≡ false }
        ensures rest { self.new ≡ record self.old { waker = held waker } }
    {
        self.side.owns_its_slots();
        self.side.write_waker(waker);
    }
}

impl<T, P: Promise<T>> ReceiverGround<T, AnyWaker<WakingHalf, Waker>>
    for ReceiverBackend<T, WakingHalf, Waker, P> {
    ghost use Rattle.std.proofs.Common.{subst, Some};
    ghost use Rattle.oneshot_ends.specs.Grounds.{state_of};
    ghost use Rattle.oneshot_ends.specs.Keeps.{KeepsOwn};
    ghost use Rattle.oneshot_ends.specs.Stays.{own_stays, own_stays_on};

    ghost state = { state_of };

    ghost keeps = { KeepsOwn };

    ghost keeps_same = { λ _. own_stays };

    ghost keeps_on = { λ _ _ _ e f. own_stays_on e f };

    // No call on the ground alone gives a waker: one lends it with what it waits by.
    ghost has = { λ _ _. ⊥ };

    ghost gives = { λ s message. P.keeps s.about message };

    ghost gives_on = { λ _ _ message e kept. subst (λ q. P.keeps q message) e.about kept };

    ghost had = { λ s message. s.passed ≡ Some message };

    ghost had_on = { λ _ _ message e had. e.taken.stays message had };

    fn load(&mut self) -> u8 {
        self.side.load()
    }

    fn store(&mut self, new: u8) -> u8 {
        self.side.store(new)
    }

    fn swap(&mut self, new: u8) -> u8 {
        self.side.swap(new)
    }

    fn exchange(&mut self, expected: u8, new: u8) -> u8 {
        self.side.exchange(expected, new)
    }

    fn take_message(&mut self) -> T {
        self.side.take_message()
    }

    fn withdraw(&mut self) -> AnyWaker<WakingHalf, Waker> {
        self.side.take_waker()
    }

    fn free(&mut self) {
        self.side.owns_its_slots();
        self.freed = Freed::of(true);
    }
}

impl<T: Drop, P: Promise<T>> DropGround<T, AnyWaker<WakingHalf, Waker>>
    for ReceiverBackend<T, WakingHalf, Waker, P> {
    fn drop_message(&mut self) {
        self.side.take_message();
    }
}
