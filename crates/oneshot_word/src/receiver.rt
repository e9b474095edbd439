//! The receiver's side: its operations on the shared word, and its slots.

ghost use Rattle.std.specs.Prelude.{◌≡◌, ◌≢◌, Some};
ghost use Rattle.oneshot_machine.specs.declared.states.Op.TheVariants.{Load, Store, Swap, Exchange};
ghost use Rattle.oneshot_machine.specs.Over.{ReceiverIsOver};
ghost use Rattle.oneshot_machine.specs.Phases.{receiver_at};
ghost use Rattle.oneshot_machine.specs.Slots.{ReceiverOwns, away, vacant, held};
ghost use Rattle.oneshot_word.specs.declared.any_waker.AnyWaker.{AnyWaker};
ghost use Rattle.oneshot_word.specs.Seats.{HoldsTaken, Keeps, MessageSlot, WakerSlot, message_of, waker_of};
ghost use Rattle.oneshot_word.specs.Side.{ReceiverCan, ReceiverDid};

use crate::any_waker::AnyWaker;
use crate::plays::{Exchanges, Loads, Stores, Swaps};
use crate::promise::Promise;
use crate::rule::Slot;
use crate::table::{WordSeat, WordTable};
use std::alloc::Global;
use std::marker::Model;
use std::sync::Arc;

/// The receiver's seat, with its share of the table. Words are codes of `oneshot_machine`, 0 to 4. An operation on the
/// word requires that the end's phase permits it after the log, and appends itself to the log.
pub struct ReceiverSide<T, H, K, P: Promise<T> = ()> {
    pub(crate) table: Arc<WordTable<T, H, K, P>, Global>,
    pub(crate) seat: WordSeat<T, H, K, P>,
}

impl<T, H, K, P: Promise<T>> Model for ReceiverSide<T, H, K, P> {
    ghost use Rattle.std.specs.Arc.{arc_value};
    ghost use Rattle.oneshot_word.specs.Seats.{IsAt, ReceiverSeat};
    ghost use Rattle.oneshot_word.specs.Side.{Side, side_of};
    ghost use Rattle.oneshot_word.specs.declared.any_waker.AnyWaker.{AnyWaker};

    ghost Value = { Side T (AnyWaker H K) P };

    ghost view = { λ s. side_of s.seat.table_id s.seat.me };

    ghost invariant = { λ s.
        ReceiverSeat P.keeps s.seat.me × IsAt (arc_value s.table).shared.table_id s.seat.table_id };
}

impl<T, H, K, P: Promise<T>> ReceiverSide<T, H, K, P> {
    /// Loads the word and returns it.
    pub fn load(&mut self) -> u8
        requires { ReceiverCan self.old Load }
        ensures { ReceiverDid self.old Load result self.new }
    {
        self.table.shared.load::<Loads>(&mut self.seat, 0) as u8
    }

    /// Stores `new`, and returns the word before, which the log does not have: in the transition table a store sees
    /// nothing.
    pub fn store(&mut self, new: u8) -> u8
        requires { ReceiverCan self.old (Store new) }
        ensures { ReceiverDid self.old (Store new) result self.new }
    {
        // By a swap, since a row of the receiver's phases names the word before. A `store` of `atomic_table` passes
        // only the number that it stores to its note.
        self.table
            .shared
            .swap::<Stores>(&mut self.seat, 0, new as u64) as u8
    }

    /// Puts `new` into the word, and returns the word before.
    pub fn swap(&mut self, new: u8) -> u8
        requires { ReceiverCan self.old (Swap new) }
        ensures { ReceiverDid self.old (Swap new) result self.new }
    {
        self.table
            .shared
            .swap::<Swaps>(&mut self.seat, 0, new as u64) as u8
    }

    /// Puts `new` into the word if it is `expected`, and returns the word before.
    pub fn exchange(&mut self, expected: u8, new: u8) -> u8
        requires { ReceiverCan self.old (Exchange expected new) }
        ensures { ReceiverDid self.old (Exchange expected new) result self.new }
    {
        self.table
            .shared
            .compare_exchange::<Exchanges>(&mut self.seat, 0, expected as u64, new as u64) as u8
    }

    /// Does nothing. Its contract states which slots the receiver owns after its log.
    pub fn owns_its_slots(&self)
        ensures { ReceiverOwns (receiver_at self.now.log) self.now.message self.now.waker }
    {
        let _seat = &self.seat;
    }
}

impl<T, H: Drop, K: Drop, P: Promise<T>> ReceiverSide<T, H, K, P> {
    /// Takes the message out of its slot, which must be the receiver's and full, and returns it.
    pub fn take_message(&mut self) -> T
        requires { (message : T) × (self.old.message ≡ held message) }
        ensures message { self.old.message ≡ held result }
        ensures passed { self.old.passed ≡ Some result }
        ensures promise { P.keeps self.old.about result }
        ensures rest { self.new ≡ record self.old { message = vacant } }
    {
        self.trade_message(Slot::Empty).into_message()
    }

    /// Puts `waker` into its slot, which must be the receiver's and empty.
    pub fn write_waker(&mut self, waker: AnyWaker<H, K>)
        requires { self.old.waker ≡ vacant }
        ensures { self.new ≡ record self.old { waker = held waker } }
    {
        let old = self.trade_waker(Slot::of(waker));
        let Slot::Empty = old else { unreachable!() };
    }

    /// Takes the waker back out of its slot, which must be the receiver's and full, and returns it.
    pub fn take_waker(&mut self) -> AnyWaker<H, K>
        requires { (waker : AnyWaker H K) × (self.old.waker ≡ held waker) }
        ensures waker { self.old.waker ≡ held result }
        ensures rest { self.new ≡ record self.old { waker = vacant } }
    {
        self.trade_waker(Slot::Empty).into_waker()
    }
}

impl<T, H, K, P: Promise<T>> ReceiverSide<T, H, K, P> {
    // If the message's slot is the receiver's, it is the one in front.
    fn trade_message(&mut self, new: Slot<T, H, K>) -> Slot<T, H, K>
        requires its_own { self.old.message ≢ away }
        requires no_waker { waker_of new ≡ vacant }
        requires promise { Keeps (P.keeps self.old.about) (message_of new) }
        requires passed { HoldsTaken self.old.passed (message_of new) }
        ensures was { MessageSlot (P.keeps self.old.about) result self.old.message }
        ensures taken { HoldsTaken self.old.passed self.old.message }
        ensures has { self.new ≡ record self.old { message = message_of new } }
    {
        self.table.shared.exchange(&mut self.seat, 0, new)
    }

    // A seat reads only its slot in front: this turns the waker's to the front, and back.
    fn trade_waker(&mut self, new: Slot<T, H, K>) -> Slot<T, H, K>
        requires its_own { self.old.waker ≢ away }
        requires no_message { message_of new ≡ vacant }
        ensures was { WakerSlot result self.old.waker }
        ensures has { self.new ≡ record self.old { waker = waker_of new } }
    {
        self.seat.turn();
        let old = self.table.shared.exchange(&mut self.seat, 1, new);
        self.seat.turn();
        old
    }
}

// It has no `Drop`, so that none can be forgotten.
impl<T: Drop, H: Drop, K: Drop, P: Promise<T>> ReceiverSide<T, H, K, P> {
    /// Releases the side's share of the table. Its receiver has found the message or that none will come, or has left.
    pub fn let_go(self)
        requires { ReceiverIsOver (receiver_at self.log) }
    {
        let ReceiverSide { table: _, seat: _ } = self;
    }
}
