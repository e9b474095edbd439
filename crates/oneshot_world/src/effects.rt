//! What a step sees, and what it does to the word, the message's place and the state of its end. Each function equals
//! the definition of its name: the function is what runs, and the definition is what the laws are about.

ghost use Rattle.std.specs.Prelude.{◌≡◌, ◌≤◌, ◌||◌};
ghost use Rattle.oneshot_machine.specs.TableRows.{outcome};
ghost use Rattle.oneshot_world.specs.Effects.{is_future, seen_by, word_left, shown, sender_goes, receiver_goes, sender_puts, receiver_puts, place_left, move_of};
ghost use Rattle.oneshot_world.specs.Wakers.{own_of};

use crate::state::{ReceiverState, SenderState, State};
use crate::trace::Place;
use crate::wakers::Input;
use oneshot_machine::machine::{ReceiverPos, Reply, Seen, SenderPos, Step};
use oneshot_machine::states::Op;

/// The number of the poll's own waker, if this step wakes it.
#[inline(always)]
pub(crate) fn own_of(input: Input, step: Step) -> Option<u64>
    ensures { result ≡ own_of input step }
{
    match step {
        Step::WakeOwn => input.own,
        _ => None,
    }
}

/// What a step sees: an operation the word, unless it is a store; a park its token; a clock or a copy
/// the `answer` of the move.
#[inline(always)]
pub(crate) fn seen_by(answer: bool, state: State, step: Step) -> Seen
    ensures { result ≡ seen_by answer state step }
{
    match step {
        Step::Word(Op::Store(_)) => Seen::Done,
        Step::Word(_) => Seen::Word(state.word),
        Step::Park => Seen::Token(state.wakers.token),
        Step::Clock => Seen::Over(answer),
        Step::Copy => Seen::Refused(answer),
        _ => Seen::Done,
    }
}

/// The word after a step.
#[inline(always)]
pub(crate) fn word_left(word: u8, step: Step) -> u8
    requires { word ≤ 4 }
    ensures { result ≡ word_left word step }
{
    match step {
        Step::Word(op) => op.after(word),
        _ => word,
    }
}

/// The word as an entry shows it; `None` once the block is freed.
#[inline(always)]
pub(crate) fn shown(freed: bool, word: u8) -> Option<u8>
    ensures { result ≡ shown freed word }
{
    if freed { None } else { Some(word) }
}

/// Where a step of the sender puts the message, if it moves it.
#[inline(always)]
pub(crate) fn sender_puts(step: Step, reply: Option<Reply>) -> Option<Place>
    ensures { result ≡ sender_puts step reply }
{
    match (step, reply) {
        (Step::WriteMessage, _) => Some(Place::InCell),
        (Step::TakeMessage, _) => Some(Place::FromError),
        (Step::DropMessage, _) => Some(Place::Dropped),
        (_, Some(Reply::Refused)) => Some(Place::InError),
        _ => None,
    }
}

/// Where a step of the receiver puts the message, if it moves it.
#[inline(always)]
pub(crate) fn receiver_puts(step: Step) -> Option<Place>
    ensures { result ≡ receiver_puts step }
{
    match step {
        Step::TakeMessage => Some(Place::Delivered),
        Step::DropMessage => Some(Place::Dropped),
        _ => None,
    }
}

/// The message's place after a step that puts it at `to`.
#[inline(always)]
pub(crate) fn place_left(from: Option<Place>, to: Option<Place>) -> Option<Place>
    ensures { result ≡ place_left from to }
{
    match (from, to) {
        (Some(_), Some(to)) => Some(to),
        _ => from,
    }
}

/// The message's move, if there is a message and it moves.
#[inline(always)]
pub(crate) fn move_of(from: Option<Place>, to: Option<Place>) -> Option<(Place, Place)>
    ensures { result ≡ move_of from to }
{
    match (from, to) {
        (Some(from), Some(to)) => Some((from, to)),
        _ => None,
    }
}

/// The sender's state after a step that leads to `next`, or ends its call with `reply`.
#[inline(always)]
pub(crate) fn sender_goes(step: Step, next: SenderPos, reply: Option<Reply>) -> SenderState
    ensures { result ≡ sender_goes step (outcome (next, reply)) }
{
    match reply {
        None => SenderState::At(next),
        Some(Reply::Yes | Reply::No) => SenderState::Ready,
        Some(Reply::Refused) => SenderState::Failed,
        Some(Reply::Message) => {
            if step == Step::Plain {
                SenderState::Failed
            } else {
                SenderState::Ended
            }
        }
        Some(_) => SenderState::Ended,
    }
}

/// Whether a reply makes the receiver a future.
#[inline(always)]
pub(crate) fn is_future(reply: Option<Reply>) -> bool
    ensures { result ≡ is_future reply }
{
    match reply {
        Some(Reply::Future) => true,
        _ => false,
    }
}

/// Whether the receiver is a future after a step with this reply.
#[inline(always)]
pub(crate) fn future_left(future: bool, reply: Option<Reply>) -> bool
    ensures { result ≡ (future || is_future reply) }
{
    future || is_future(reply)
}

/// The receiver's state after a step that leads to `next`, or ends its call with `reply`.
#[inline(always)]
pub(crate) fn receiver_goes(step: Step, next: ReceiverPos, reply: Option<Reply>) -> ReceiverState
    ensures { result ≡ receiver_goes step (outcome (next, reply)) }
{
    match reply {
        None => ReceiverState::At(next),
        Some(Reply::Done) => ReceiverState::Ended,
        Some(_) => {
            if step == Step::Free {
                ReceiverState::Ended
            } else {
                ReceiverState::Ready
            }
        }
    }
}
