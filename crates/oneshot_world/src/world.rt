//! The world, which is the model's state between two moves, and its one move.

ghost use Rattle.std.specs.Prelude.{◌≡◌, Some};
ghost use Rattle.std.specs.Option.{option_and_then};
ghost use Rattle.oneshot_machine.specs.declared.machine.End.TheVariants as Ends;
ghost use Rattle.oneshot_world.specs.Calls.{first, as_sender_call, as_receiver_call};
ghost use Rattle.oneshot_world.specs.State.{position_of_sender, position_of_receiver};
ghost use Rattle.oneshot_world.specs.World.{opening, opening_place, turn, turn_of, no_input, receiver_answer, input_of};
ghost use Rattle.oneshot_world.specs.declared.script.Move.TheVariants as Moves;

use crate::calls::receiver::ReceiverCalls;
use crate::calls::sender::SenderCalls;
use crate::script::{Move, ReceiverScript, SenderLast, SenderScript};
use crate::state::{ReceiverState, SenderState, State};
use crate::trace::{Entry, Place, WakerName};
use crate::wakers::Input;
use oneshot_machine::machine::{End, FuturePos, ReceiverPos, ReceiverStart, SenderCall, SenderPos};
use std::marker::Model;

/// Both machines between two moves, and what each script has left.
#[derive(Drop)]
pub struct World {
    state: State,
    sender: SenderCalls,
    receiver: ReceiverCalls,
}

impl Model for World {
    ghost use Rattle.oneshot_world.specs.World.{World};
    ghost use Rattle.oneshot_world.specs.Reached.{IsReached};

    ghost Value = { World };

    ghost view = { λ w. record { state = w.state; sender = w.sender; receiver = w.receiver } };

    ghost invariant = { λ w. IsReached (record { state = w.state; sender = w.sender; receiver = w.receiver }) };
}

impl World {
    /// Returns the world of two scripts before the first move. The message stays in its script.
    pub fn new<T>(sender: &SenderScript<T>, receiver: ReceiverScript) -> World
        ensures { result ≡ opening sender.now receiver }
    {
        World {
            state: State::new(opening_place(sender)),
            sender: SenderCalls::new(sender),
            receiver: ReceiverCalls::new(receiver),
        }
    }

    /// Makes the move `m`, and returns its entry. `entry` is the number of that entry, from 1; a copy
    /// of a waker that the move makes is named by it.
    #[inline(always)]
    pub fn step(&mut self, m: Move, entry: usize) -> Entry
        ensures { turn entry self.old m ≡ Some (result, self.new) }
    {
        // Inlined, so that the entry is written where the caller keeps it.
        match m {
            Move::Sender => self.step_sender(),
            Move::Receiver { over, refuse } => self.step_receiver(over, refuse, entry),
        }
    }

    /// Returns the call that the sender has under way, or begins at its next move; `None` if none is left.
    pub fn sender_call(&self) -> Option<SenderCall>
        ensures { result ≡ option_and_then as_sender_call (first self.now.sender.calls) }
    {
        self.sender.first()
    }

    /// Returns the call that the receiver has under way, or begins at its next move; `None` if none is left.
    pub fn receiver_call(&self) -> Option<ReceiverStart>
        ensures { result ≡ option_and_then as_receiver_call (first self.now.receiver.calls) }
    {
        self.receiver.first()
    }

    /// Returns whether the block is freed.
    pub fn is_freed(&self) -> bool
        ensures { result ≡ self.now.state.freed }
    {
        self.state.freed
    }

    /// Returns the message's place; `None` if the script sends none.
    pub fn place(&self) -> Option<Place>
        ensures { result ≡ self.now.state.message }
    {
        self.state.message
    }

    /// The position of the sender's next step: in the call under way, or at the start of the next one.
    fn sender_position(&self) -> Option<SenderPos>
        ensures { result ≡ position_of_sender self.now.state (first self.now.sender.calls) }
    {
        match self.state.sender {
            SenderState::Ready | SenderState::Failed => {
                Some(SenderPos::start(self.sender.first()?))
            }
            SenderState::At(position) => Some(position),
            SenderState::Ended => None,
        }
    }

    /// The position of the receiver's next step: in the call under way, or at the start of the next one.
    fn receiver_position(&self) -> Option<ReceiverPos>
        ensures { result ≡ position_of_receiver self.now.state (first self.now.receiver.calls) }
    {
        match self.state.receiver {
            ReceiverState::Ready => Some(ReceiverPos::start(self.receiver.first()?)),
            ReceiverState::At(position) => Some(position),
            ReceiverState::Ended => None,
        }
    }

    #[inline(always)]
    fn step_sender(&mut self) -> Entry
        ensures { turn_of Ends.Sender no_input self.old ≡ Some (result, self.new) }
    {
        let Some(position) = self.sender_position() else {
            return Entry::Idle(End::Sender);
        };
        let input = Input {
            answer: false,
            copy: None,
            own: None,
        };
        let made = self.state.step_sender(position, input);
        self.sender.advance(made.reply);
        Entry::Made(made)
    }

    #[inline(always)]
    fn step_receiver(&mut self, over: bool, refuse: bool, entry: usize) -> Entry
        ensures { turn entry self.old (Moves.Receiver over refuse) ≡ Some (result, self.new) }
    {
        let Some(position) = self.receiver_position() else {
            return Entry::Idle(End::Receiver);
        };
        let answer = answer_at(position, over, refuse);
        let input = input_of(answer, entry, self.receiver.number());
        let made = self.state.step_receiver(position, input);
        self.receiver.advance(made.reply);
        Entry::Made(made)
    }
}

/// What a move decides at a position: whether a copy, which only a poll makes, is refused, or whether a
/// clock is past the deadline.
fn answer_at(position: ReceiverPos, over: bool, refuse: bool) -> bool
    ensures { result ≡ receiver_answer (Some position) over refuse }
{
    match position {
        ReceiverPos::Future(FuturePos::PollCopy | FuturePos::AgainCopy) => refuse,
        _ => over,
    }
}

/// The input that a move with this answer and entry gives its step. `own` is the number of the poll's own waker.
fn input_of(answer: bool, entry: usize, own: Option<u64>) -> Input
    ensures { result ≡ input_of answer entry own }
{
    let copy = match own {
        Some(number) => Some(WakerName::Copy { number, entry }),
        None => None,
    };
    Input { answer, copy, own }
}

/// The message's place before the first move; `None` if the script sends none.
fn opening_place<T>(sender: &SenderScript<T>) -> Option<Place>
    ensures { result ≡ opening_place sender.now.last }
{
    match sender.last {
        SenderLast::Send(_, _) => Some(Place::NotSent),
        SenderLast::Drop | SenderLast::Stop => None,
    }
}
