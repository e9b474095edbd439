//! What the table's slots hold, what a seat knows, and the rule of the table.

ghost use Rattle.std.specs.Prelude.{◌≡◌};
ghost use Rattle.oneshot_machine.specs.Slots.{held};
ghost use Rattle.oneshot_word.specs.declared.any_waker.AnyWaker.{AnyWaker};
ghost use Rattle.oneshot_word.specs.Seats.{with_waker, message_of, waker_of};

use crate::any_waker::AnyWaker;
use crate::promise::Promise;
use atomic_table::TableRule;
use oneshot_machine::machine::Seen;
use oneshot_machine::states::Op;
use std::collections::LinkedList;

/// The content of a slot: nothing, a message, or the waker of a receiver that waits.
/// It is one flat enum, since a nested `Option` or `AnyWaker` would add a tag of its own.
#[derive(Drop)]
pub enum Slot<T, H, K> {
    /// Nothing.
    Empty,
    /// A message.
    Message(T),
    /// The waking half of a thread's parker.
    Thread(H),
    /// A copy of a task's waker.
    Task(K),
}

impl<T, H, K> Slot<T, H, K> {
    /// The slot that holds `waker`.
    pub(crate) fn of(waker: AnyWaker<H, K>) -> Slot<T, H, K>
        ensures { result ≡ with_waker waker }
    {
        match waker {
            AnyWaker::Thread(half) => Slot::Thread(half),
            AnyWaker::Task(copy) => Slot::Task(copy),
        }
    }
}

impl<T, H: Drop, K: Drop> Slot<T, H, K> {
    /// The message of a slot that holds one.
    pub(crate) fn into_message(self) -> T
        requires { (message : T) × (message_of self ≡ held message) }
        ensures { message_of self ≡ held result }
    {
        match self {
            Slot::Message(message) => message,
            Slot::Empty | Slot::Thread(_) | Slot::Task(_) => unreachable!(),
        }
    }

    /// The waker of a slot that holds one.
    pub(crate) fn into_waker(self) -> AnyWaker<H, K>
        requires { (waker : AnyWaker H K) × (waker_of self ≡ held waker) }
        ensures { waker_of self ≡ held result }
    {
        match self {
            Slot::Thread(half) => AnyWaker::Thread(half),
            Slot::Task(copy) => AnyWaker::Task(copy),
            Slot::Empty => unreachable!(),
            Slot::Message(_message) => unreachable!(),
        }
    }
}

/// Who has a seat: an end, or the maker of the table before there are ends.
pub enum Role {
    /// The maker of the table.
    Maker,
    /// The maker, once it has taken the message's slot.
    MakerWithSlot,
    /// The sender.
    Sender,
    /// The receiver.
    Receiver,
}

/// What a seat knows: its owner, its log (without looks), the message and the waker that passed, and the
/// value that the channel is about. For the proofs alone: no value of this type is made.
pub struct View<T, H, K, P> {
    /// The owner of the seat.
    pub role: Role,
    /// Its operations on the word, each with what it saw.
    pub log: LinkedList<(Op, Seen)>,
    /// The message that its end gave to the table or took from it, if it has.
    pub passed: Option<T>,
    /// The waker that its end last gave to the table, or took from it.
    pub handed: Option<AnyWaker<H, K>>,
    /// The value that the channel's promise is about.
    pub about: P,
}

/// The rule of the table, its invariant.
pub struct WordRule;

impl<T, H, K, P: Promise<T>> TableRule<Slot<T, H, K>, View<T, H, K, P>, P> for WordRule {
    ghost use Rattle.std.specs.Prelude.{[], None};
    ghost use Rattle.oneshot_word.specs.Rule.{Tied};
    ghost use Rattle.oneshot_word.specs.Seats.{view};
    ghost use Rattle.oneshot_word.specs.declared.rule.Role.TheVariants.{Maker};

    ghost holds = { λ q s. Tied P.keeps q s.words s.homes s.views };

    ghost first = { λ q. view q Maker [] None None };
}
