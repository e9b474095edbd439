//! The state of the world without its scripts' calls, and one step of one end.

ghost use Rattle.std.specs.Prelude.{◌≡◌, ◌≤◌, Some, IsSome};
ghost use Rattle.oneshot_world.specs.State.{opening_state, made, moved, sender_steps, receiver_steps};

use crate::effects::{
    future_left, is_future, move_of, own_of, place_left, receiver_goes, receiver_puts, seen_by,
    sender_goes, sender_puts, shown, word_left,
};
use crate::trace::{Made, Place};
use crate::wakers::{Input, Wakers};
use oneshot_machine::machine::{End, ReceiverPos, Reply, Seen, SenderPos, Step};
use oneshot_machine::states::EMPTY;

/// How far the sender is.
#[derive(Clone, Copy)]
pub enum SenderState {
    /// No call is under way.
    Ready,
    /// A call is under way, at this position.
    At(SenderPos),
    /// The `send` was refused, and its error is in the sender's place. No call of the error is under way.
    Failed,
    /// The sender has ended.
    Ended,
}

/// How far the receiver is.
#[derive(Clone, Copy)]
pub enum ReceiverState {
    /// No call is under way.
    Ready,
    /// A call is under way, at this position.
    At(ReceiverPos),
    /// The receiver has ended.
    Ended,
}

/// The world without the calls that its scripts have left. It is finite, except for the names of wakers.
#[derive(Clone, Copy)]
pub struct State {
    /// The shared word.
    pub word: u8,
    /// Whether the block is freed.
    pub freed: bool,
    /// How far the sender is.
    pub sender: SenderState,
    /// How far the receiver is.
    pub receiver: ReceiverState,
    /// Whether the receiver is a future.
    pub future: bool,
    /// The message's place; `None` if the script sends none.
    pub message: Option<Place>,
    /// The wakers, and the token on which the receiver parks.
    pub wakers: Wakers,
}

impl State {
    /// The state before the first move, with the message at this place if there is one.
    pub(crate) fn new(message: Option<Place>) -> State
        ensures { result ≡ opening_state message }
    {
        State {
            word: EMPTY,
            freed: false,
            sender: SenderState::Ready,
            receiver: ReceiverState::Ready,
            future: false,
            message,
            wakers: Wakers::new(),
        }
    }

    /// Makes and returns the sender's step at `position`, which must have a row. `input` is the
    /// move's input to it.
    #[inline(always)]
    pub(crate) fn step_sender(&mut self, position: SenderPos, input: Input) -> Made
        requires row { IsSome (sender_steps input self.old position) }
        requires code { self.old.word ≤ 4 }
        ensures { sender_steps input self.old position ≡ Some (result, self.new) }
    {
        let step = position.step();
        let seen = seen_by(input.answer, *self, step);
        let (next, reply) = position.next(seen);
        let puts = sender_puts(step, reply);
        let made = self.make(End::Sender, input, step, seen, reply, puts);
        self.sender = sender_goes(step, next, reply);
        made
    }

    /// Makes and returns the receiver's step at `position`, which must have a row. `input` is the
    /// move's input to it.
    #[inline(always)]
    pub(crate) fn step_receiver(&mut self, position: ReceiverPos, input: Input) -> Made
        requires row { IsSome (receiver_steps input self.old position) }
        requires code { self.old.word ≤ 4 }
        ensures { receiver_steps input self.old position ≡ Some (result, self.new) }
    {
        let step = position.step();
        let seen = seen_by(input.answer, *self, step);
        let (next, reply) = position.next(seen);
        let puts = receiver_puts(step);
        let made = self.make(End::Receiver, input, step, seen, reply, puts);
        self.receiver = receiver_goes(step, next, reply);
        self.future = future_left(self.future, reply);
        self.wakers.keep_hand(is_future(reply));
        made
    }

    /// What both ends' steps have in common: the word, the block, the message's place, which becomes
    /// `to`, and the wakers.
    #[inline(always)]
    fn make(
        &mut self,
        side: End,
        input: Input,
        step: Step,
        seen: Seen,
        reply: Option<Reply>,
        to: Option<Place>,
    ) -> Made
        requires { self.old.word ≤ 4 }
        ensures made { result ≡ record (made side input self.old step reply to) { seen = seen } }
        ensures moves { self.new ≡ moved input self.old step to }
    {
        let before = shown(self.freed, self.word);
        let message = move_of(self.message, to);
        let token_set = self.wakers.sets_token(step);
        let waker = self.wakers.moved(input, self.word, step);
        self.word = word_left(self.word, step);
        self.freed = self.freed || step == Step::Free;
        self.message = place_left(self.message, to);
        Made {
            side,
            step,
            seen,
            before,
            after: shown(self.freed, self.word),
            message,
            token_set,
            waker,
            own: own_of(input, step),
            reply,
        }
    }
}
