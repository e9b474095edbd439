//! The ground of a poll: the future's ground, with the poll's task and the copies of wakers.

ghost use Rattle.std.specs.Prelude.{◌≡◌, true, false, [], ◌∷◌, Some, IfSome, IfNone, IsSome, IsSomeAnd};
ghost use Rattle.futures.specs.Task.{IsArmed, Hears, Keeps};
ghost use Rattle.oneshot_machine.specs.Logs.{Grows, copied};
ghost use Rattle.oneshot_word.specs.declared.any_waker.AnyWaker.TheVariants.{Task};
ghost use Rattle.oneshot_ends.specs.Copies.{HasMade, HasNoneOf, HasCopyFor};
ghost use Rattle.oneshot_ends.specs.Keeps.{KeepsPolled};
ghost use Rattle.oneshot_ends.specs.Stays.{polled_stays, polled_stays_on};
ghost use Rattle.oneshot_ends.specs.Polling.{polled_state, token_of};

use super::ChannelReceiver;
use crate::copies::Copies;
use crate::waker::ChannelWaker;
use futures::task::{Context, Poll, Source, Waker};
use oneshot_drive::{ReceiverGround, TaskGround, WaitGround};
use oneshot_word::Promise;

/// Stands for a copy of a waker that the ground keeps. Dropping it drops no copy.
// A driver has a `Copied` for each copy. A copy whose `Copied` it drops stays among the copies.
#[derive(Drop)]
pub(crate) struct Copied;

/// The ground of a future, lent for one poll, with the poll's task.
// All borrows of the future share one lifetime: with two, the borrow checker would give up on its `poll`, and leave the
// whole proof to be written by hand.
#[derive(Drop)]
pub(crate) struct Polling<'g, 'c, 'x, G> {
    pub(crate) ground: &'g mut G,
    pub(crate) cx: &'c mut Context<'x>,
    pub(crate) source: &'g Source,
    pub(crate) copies: &'g mut Copies<Waker>,
}

impl<'g, 'c, 'x, T: Drop, P: Promise<T>> ReceiverGround<T, Copied>
    for Polling<'g, 'c, 'x, ChannelReceiver<T, P>> {
    ghost use Rattle.oneshot_ends.specs.Copies.{PollHas};
    ghost use Rattle.oneshot_ends.specs.Polling.{polled_state};
    ghost use Rattle.std.proofs.Common.{subst, Some};

    // The state's channel also names what was lent, so that a caller recognizes it.
    ghost state = { λ b.
        polled_state (b.ground.ghost_name ∷ b.cx.ghost_name ∷ b.copies.ghost_name ∷ []) b.ground.now };

    ghost keeps = { λ a b.
        KeepsPolled a.ground.now b.ground.now a.cx.now b.cx.now a.source.now.id b.source.now.id };

    ghost keeps_same = { λ _. polled_stays };

    ghost keeps_on = { λ _ _ _ f g. polled_stays_on f g };

    // A copy that was made is in hand, and it, or the one that was given last, wakes the poll's task.
    ghost has = { λ b hand. PollHas b.cx.now b.copies.now b.ground.now hand };

    ghost gives = { λ b message. P.keeps b.ground.now.about message };

    ghost gives_on = { λ _ _ message e kept. subst (λ q. P.keeps q message) e.about kept };

    ghost had = { λ b message. b.ground.now.passed ≡ Some message };

    ghost had_on = { λ _ _ message e had. e.taken.stays message had };

    fn load(&mut self) -> u8 {
        self.ground.load()
    }

    fn store(&mut self, new: u8) -> u8 {
        self.ground.store(new)
    }

    fn swap(&mut self, new: u8) -> u8 {
        self.ground.swap(new)
    }

    fn exchange(&mut self, expected: u8, new: u8) -> u8 {
        self.ground.exchange(expected, new)
    }

    fn take_message(&mut self) -> T {
        self.ground.take_message()
    }

    fn withdraw(&mut self) -> Copied {
        let copy = self.ground.withdraw();
        keep(self.copies, copy);
        Copied
    }

    fn free(&mut self) {
        self.ground.free();
    }
}

impl<'g, 'c, 'x, T: Drop, P: Promise<T>> WaitGround<T, Copied>
    for Polling<'g, 'c, 'x, ChannelReceiver<T, P>> {
    fn write_waker(&mut self, _: Copied) {
        let copy = given(self.copies);
        self.ground.give(copy);
    }
}

impl<'g, 'c, 'x, T: Drop, P: Promise<T>> TaskGround<T, Copied>
    for Polling<'g, 'c, 'x, ChannelReceiver<T, P>> {
    ghost use Rattle.std.proofs.Common.{subst};

    ghost heard = { λ b. IsArmed b.cx.now × Hears b.cx.now b.source.now.id };

    ghost woke_own = { λ b. b.cx.now.is_woken ≡ true };

    ghost heard_on = { λ a b h k. (k.task _ h.0, subst (λ id. Hears b.cx.now id) k.source (k.task _ h.1)) };

    /// As in any `TaskGround`. `Some`: the copy in hand has the task's number, and wakes the task if the
    /// context could make a waker. `None`: the copies are unchanged, unless one in hand has that number.
    /// Clauses `made` and `refused` state this; the other clauses are those of the trait.
    fn copy(&mut self) -> Option<Copied>
        ensures log { Grows
            (polled_state (self.old.ground.ghost_name ∷ self.old.cx.ghost_name ∷ self.old.copies.ghost_name ∷ [])
            self.old.ground.now).log
            (polled_state (self.new.ground.ghost_name ∷ self.new.cx.ghost_name ∷ self.new.copies.ghost_name ∷ [])
            self.new.ground.now).log
            (copied result ∷ []) }
        ensures message { self.new.ground.now.message ≡ self.old.ground.now.message }
        ensures waker { token_of self.new.ground.now.waker ≡ token_of self.old.ground.now.waker }
        ensures heard { IfSome result (λ _. IsArmed self.new.cx.now × Hears self.new.cx.now self.new.source.now.id) }
        ensures has { IfSome result (λ _. HasCopyFor self.new.cx.now self.new.copies.now) }
        ensures keeps { KeepsPolled self.old.ground.now self.new.ground.now self.old.cx.now self.new.cx.now
            self.old.source.now.id self.new.source.now.id }
        ensures made { IfSome result (λ _. HasMade self.old.cx.now self.new.cx.now self.new.copies.now) }
        ensures refused { IfNone result (HasNoneOf self.old.cx.now.turn.task self.old.copies.now
            → self.new.copies.now ≡ self.old.copies.now) }
    {
        if register(self.copies, self.cx, self.source) {
            Some(Copied)
        } else {
            None
        }
    }

    fn wake_own(&mut self) {
        // Always `Pending`: the driver decides what the poll returns.
        let _again: Poll<()> = self.cx.yield_now();
    }
}

/// Registers the task of the poll. `false`: no copy of its waker could be made; the task is woken, and the
/// copies of other tasks are unchanged.
fn register(copies: &mut Copies<Waker>, cx: &mut Context<'_>, source: &Source) -> bool
    ensures made { result ≡ true → HasMade cx.old cx.new copies.new }
    ensures refused { result ≡ false → HasNoneOf cx.old.turn.task copies.old → copies.new ≡ copies.old }
    ensures armed { IsArmed cx.new }
    ensures heard { Hears cx.new source.now.id }
    ensures kept { Keeps cx.old cx.new }
{
    let task = cx.task();
    let mut place = copies.take_of(task);
    // Always `Pending`: the driver decides what the poll returns.
    let _registered: Poll<()> = cx.register(source, &mut place);
    copies.keep_made(task, place)
}

/// Returns the copy in hand.
fn given(copies: &mut Copies<Waker>) -> ChannelWaker
    requires { IsSome copies.old.hand }
    ensures { IsSomeAnd copies.old.hand (λ copy. result ≡ Task copy.waker) }
{
    let Some(waker) = copies.give() else {
        unreachable!()
    };
    ChannelWaker::Task(waker)
}

/// Keeps a copy that was taken back. One that is in hand stays there.
fn keep(copies: &mut Copies<Waker>, copy: ChannelWaker)
    ensures { IfSome copies.old.hand (λ made. copies.new.hand ≡ Some made) }
{
    if let ChannelWaker::Task(waker) = copy {
        copies.take_back(waker);
    }
}
