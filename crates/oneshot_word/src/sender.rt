//! The sender's side: its operations on the shared word, and its slots.

ghost use Rattle.std.specs.Prelude.{◌≡◌, ◌≢◌, Some};
ghost use Rattle.std.specs.Arc.{arc_value};
ghost use Rattle.oneshot_machine.specs.declared.states.Op.TheVariants.{Swap, Add, Xor};
ghost use Rattle.oneshot_machine.specs.Over.{SenderIsOver};
ghost use Rattle.oneshot_machine.specs.Phases.{By, sender_at};
ghost use Rattle.oneshot_machine.specs.Slots.{away, vacant, held};
ghost use Rattle.oneshot_word.specs.declared.any_waker.AnyWaker.{AnyWaker};
ghost use Rattle.oneshot_word.specs.Seats.{IsAt, HoldsClaimed, Keeps, MessageSlot, SenderSeat, WakerSlot, message_of, waker_of};
ghost use Rattle.oneshot_word.specs.Side.{SenderCan, SenderDid, side_of};

use crate::any_waker::AnyWaker;
use crate::plays::{Adds, Finishes, Xors};
use crate::promise::Promise;
use crate::rule::Slot;
use crate::table::{WordSeat, WordTable};
use std::alloc::Global;
use std::marker::Model;
use std::sync::Arc;

/// The sender's seat, with its share of the table. Words are codes of `oneshot_machine`, 0 to 4. An operation on the
/// word requires that the end's phase permits it after the log, and appends itself to the log.
pub struct SenderSide<T, H, K, P: Promise<T> = ()> {
    pub(crate) table: Arc<WordTable<T, H, K, P>, Global>,
    pub(crate) seat: WordSeat<T, H, K, P>,
}

impl<T, H, K, P: Promise<T>> Model for SenderSide<T, H, K, P> {
    ghost use base.Fml.{ftrue};
    ghost use Rattle.std.specs.Arc.{arc_value};
    ghost use Rattle.oneshot_word.specs.Seats.{IsAt, SenderSeat};
    ghost use Rattle.oneshot_word.specs.Side.{Side, side_of};
    ghost use Rattle.oneshot_word.specs.declared.any_waker.AnyWaker.{AnyWaker};

    ghost Value = { Side T (AnyWaker H K) P };

    ghost view = { λ s. side_of s.seat.table_id s.seat.me };

    ghost invariant = { λ s.
        SenderSeat P.keeps s.seat.me × IsAt (arc_value s.table).shared.table_id s.seat.table_id };

    // Both add nothing (`ftrue`). The first is here because Rattle takes a proof of `Sync` by hand only for a struct
    // with `also_owns`. The second is here because `peek` can read the fields of such a struct through a `&` only if it
    // has `also_shares` too.
    ghost also_owns = { λ _. ftrue };

    ghost also_shares = { λ _ _ _. ftrue };
}

// Both are proved, in proofs/sender/SenderSide/TheSendSync. Rattle has no proof that a seat is `Sync`,
// so the checker finds none for this struct. No function reaches a waker through a `&` to a side, so a
// waker need not be `Sync`.
unsafe impl<T: Send, H: Send, K: Send, P: Promise<T>> Send for SenderSide<T, H, K, P> {}

unsafe impl<T: Send + Sync, H: Send, K: Send, P: Promise<T>> Sync for SenderSide<T, H, K, P> {}

impl<T, H, K, P: Promise<T>> SenderSide<T, H, K, P> {
    // Only this function makes a side, since `also_owns` requires a proof by hand of whatever makes one.
    pub(crate) fn new(
        table: Arc<WordTable<T, H, K, P>, Global>,
        seat: WordSeat<T, H, K, P>,
    ) -> SenderSide<T, H, K, P>
        requires { SenderSeat P.keeps seat.me × IsAt (arc_value table).shared.table_id seat.table_id }
        ensures { result ≡ side_of seat.table_id seat.me }
    {
        SenderSide { table, seat }
    }

    /// Adds 1 to the word, and returns the word before.
    pub fn add(&mut self) -> u8
        requires { SenderCan self.old Add }
        ensures { SenderDid self.old Add result self.new }
    {
        self.table.shared.fetch_add::<Adds>(&mut self.seat, 0, 1) as u8
    }

    /// Xors the word with one, and returns the word before.
    pub fn xor(&mut self) -> u8
        requires { SenderCan self.old Xor }
        ensures { SenderDid self.old Xor result self.new }
    {
        self.table.shared.fetch_xor::<Xors>(&mut self.seat, 0, 1) as u8
    }

    /// Puts `new` into the word, as the sender's last operation on it, and returns the word before.
    pub fn swap(&mut self, new: u8) -> u8
        requires { SenderCan self.old (Swap new) }
        ensures { SenderDid self.old (Swap new) result self.new }
    {
        self.table
            .shared
            .swap::<Finishes>(&mut self.seat, 0, new as u64) as u8
    }
}

impl<T, H: Drop, K: Drop, P: Promise<T>> SenderSide<T, H, K, P> {
    /// Puts `message`, which must keep the promise, into its slot, which must be the sender's and empty.
    pub fn write_message(&mut self, message: T)
        requires slot { self.old.message ≡ vacant }
        requires promise { P.keeps self.old.about message }
        ensures { self.new ≡ record self.old { message = held message } }
    {
        let old = self.trade_message(Slot::Message(message));
        let Slot::Empty = old else { unreachable!() };
    }

    /// Takes the message back out of its slot, which must be the sender's and full, and returns it.
    pub fn take_message(&mut self) -> T
        requires { (message : T) × (self.old.message ≡ held message) }
        ensures message { self.old.message ≡ held result }
        ensures promise { P.keeps self.old.about result }
        ensures rest { self.new ≡ record self.old { message = vacant } }
    {
        self.trade_message(Slot::Empty).into_message()
    }

    /// Takes the receiver's waker out of its slot, which must be the sender's and full, and returns it.
    pub fn take_waker(&mut self) -> AnyWaker<H, K>
        requires { (waker : AnyWaker H K) × (self.old.waker ≡ held waker) }
        ensures waker { self.old.waker ≡ held result }
        ensures handed { self.old.handed ≡ Some result }
        ensures rest { self.new ≡ record self.old { waker = vacant } }
    {
        self.trade_waker(Slot::Empty).into_waker()
    }
}

impl<T, H, K, P: Promise<T>> SenderSide<T, H, K, P> {
    // A seat reads only its slot in front: this turns the message's to the front, and back.
    fn trade_message(&mut self, new: Slot<T, H, K>) -> Slot<T, H, K>
        requires its_own { self.old.message ≢ away }
        requires no_waker { waker_of new ≡ vacant }
        requires promise { Keeps (P.keeps self.old.about) (message_of new) }
        ensures was { MessageSlot (P.keeps self.old.about) result self.old.message }
        ensures has { self.new ≡ record self.old { message = message_of new } }
    {
        self.seat.turn();
        let old = self.table.shared.exchange(&mut self.seat, 0, new);
        self.seat.turn();
        old
    }

    // If the waker's slot is the sender's, it is the one in front.
    fn trade_waker(&mut self, new: Slot<T, H, K>) -> Slot<T, H, K>
        requires its_own { self.old.waker ≢ away }
        requires no_message { message_of new ≡ vacant }
        requires handed { HoldsClaimed self.old.handed (waker_of new) }
        ensures was { WakerSlot result self.old.waker }
        ensures taken { HoldsClaimed self.old.handed self.old.waker }
        ensures has { self.new ≡ record self.old { waker = waker_of new } }
    {
        self.table.shared.exchange(&mut self.seat, 1, new)
    }
}

// It has no `Drop`, so that none can be forgotten.
impl<T: Drop, H: Drop, K: Drop, P: Promise<T>> SenderSide<T, H, K, P> {
    /// Releases the side's share of the table. Its sender has performed its last operation on the word.
    pub fn let_go(self)
        requires { (by : By) × SenderIsOver by (sender_at self.log) }
    {
        let SenderSide { table: _, seat: _ } = self;
    }
}
