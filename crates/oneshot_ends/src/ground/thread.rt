//! The ground of a call that blocks: the receiver's ground, with its parker, clock and patience.

ghost use Rattle.std.specs.Prelude.{◌≡◌};

use super::ChannelReceiver;
use crate::deadline::Deadline;
use crate::patience::Patience;
use crate::token::ParkingHalf;
use crate::waker::ChannelWaker;
use oneshot_drive::{BlockGround, ReceiverGround, WaitGround};
use oneshot_word::Promise;
use std::sync::Wait;
use std::time::Clock;

/// The ground of a receiver, lent for one call that blocks, with what it parks by.
// The ground's type is one parameter `G`: a derived `Drop` requires `Drop` of each parameter, and a channel
// holds no value of its `P`.
#[derive(Drop)]
pub(crate) struct Blocking<'g, 'p, 'r, G, Rt> {
    ground: &'g mut G,
    parker: &'p mut ParkingHalf,
    rt: &'r Rt,
    patience: Patience,
}

impl<'g, 'p, 'r, G, Rt> Blocking<'g, 'p, 'r, G, Rt> {
    /// Lends `ground` for a call with this patience.
    pub(crate) fn lend(
        ground: &'g mut G,
        parker: &'p mut ParkingHalf,
        rt: &'r Rt,
        patience: Patience,
    ) -> Blocking<'g, 'p, 'r, G, Rt>
        ensures ground { result.ground ≡ ground.entry }
        ensures parker { result.parker ≡ parker.entry }
        ensures patience { result.patience ≡ patience }
    {
        Blocking {
            ground,
            parker,
            rt,
            patience,
        }
    }
}

impl<'g, 'p, 'r, T, Rt, P: Promise<T>> ReceiverGround<T, ChannelWaker>
    for Blocking<'g, 'p, 'r, ChannelReceiver<T, P>, Rt> {
    ghost use Rattle.std.specs.Prelude.{[], ◌∷◌};
    ghost use Rattle.std.proofs.Common.{subst, Some};
    ghost use Rattle.oneshot_ends.specs.Grounds.{lent};
    ghost use Rattle.oneshot_ends.specs.Keeps.{KeepsLent};
    ghost use Rattle.oneshot_ends.specs.Stays.{lent_stays, lent_stays_on};
    ghost use Rattle.oneshot_ends.specs.OwnWakers.{BlockHas};

    // The state's channel also names what was lent, so that a caller recognizes it.
    ghost state = { λ b. lent (b.ground.ghost_name ∷ b.parker.ghost_name ∷ []) b.ground.now };

    ghost keeps = { λ a b. KeepsLent a.ground.now b.ground.now a.patience b.patience a.parker.now b.parker.now };

    ghost keeps_same = { λ _. lent_stays };

    ghost keeps_on = { λ _ _ _ e f. lent_stays_on e f };

    // Its wakers, with the one beside it, are those of its parker.
    ghost has = { λ b hand. BlockHas b.parker.now.parker b.ground.now hand };

    ghost gives = { λ b message. P.keeps b.ground.now.about message };

    ghost gives_on = { λ _ _ message e kept. subst (λ q. P.keeps q message) e.about kept };

    ghost had = { λ b message. b.ground.now.passed ≡ Some message };

    ghost had_on = { λ _ _ message e had. e.taken.stays message had };

    fn load(&mut self) -> u8 {
        self.ground.load()
    }

    fn store(&mut self, new: u8) -> u8 {
        self.ground.store(new)
    }

    fn swap(&mut self, new: u8) -> u8 {
        self.ground.swap(new)
    }

    fn exchange(&mut self, expected: u8, new: u8) -> u8 {
        self.ground.exchange(expected, new)
    }

    fn take_message(&mut self) -> T {
        self.ground.take_message()
    }

    fn withdraw(&mut self) -> ChannelWaker {
        self.ground.withdraw()
    }

    fn free(&mut self) {
        self.ground.free();
    }
}

impl<'g, 'p, 'r, T, Rt, P: Promise<T>> WaitGround<T, ChannelWaker>
    for Blocking<'g, 'p, 'r, ChannelReceiver<T, P>, Rt> {
    fn write_waker(&mut self, waker: ChannelWaker) {
        self.ground.give(waker);
    }
}

impl<'g, 'p, 'r, T, Rt: Wait + Clock, P: Promise<T>> BlockGround<T, ChannelWaker>
    for Blocking<'g, 'p, 'r, ChannelReceiver<T, P>, Rt> {
    ghost use Rattle.oneshot_ends.specs.Stays.{has_lent_on, has_lent_back};
    ghost use Rattle.oneshot_ends.specs.Patience.{Parked, Reads};

    ghost parks = { λ timed a b. Parked timed a.patience b.patience a.parker.now b.parker.now };

    ghost reads = { λ over a b. Reads over a.patience b.patience };

    ghost has_on = { λ _ _ hand k h. has_lent_on hand k h };

    ghost has_back = { λ _ _ waker slot k h. has_lent_back waker slot k h };

    fn park(&mut self, timed: bool) {
        // A park that spins ends without the token: the receiver then checks whether the sender has acted. If the token
        // was taken, it has, which the next load finds.
        if self.patience.try_spin(timed) || self.parker.has_taken() {
            return;
        }
        if !timed {
            return self.parker.park(self.rt, self.ground);
        }
        match self.patience.deadline() {
            Deadline::At(end) => {
                // Whether it was in time, the driver learns by its next load.
                let _in_time = self.parker.park_until(self.rt, end, self.ground);
            },
            Deadline::Passed => {}
            Deadline::Never => self.parker.park(self.rt, self.ground),
        }
    }

    fn over(&mut self) -> bool {
        self.patience.is_over(self.rt)
    }
}
