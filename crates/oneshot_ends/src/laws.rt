//! What always holds of the ends between their calls: each function's contract states a law, and its body does nothing.
//! A body that mentions a field does so for the invariant of the field's type, which its proof uses.

ghost use Rattle.atomic_table.specs.Seated.{TableId};
ghost use Rattle.futures.specs.declared.task.context.Context.{Context};
ghost use Rattle.std.specs.Prelude.{◌≡◌, [], None};
ghost use Rattle.oneshot_machine.specs.Called.{as_receiver, as_future};
ghost use Rattle.oneshot_ends.specs.Ends.{IsOpen, HasCalls, CallsAddUp, SenderIsOrdered, ReceiverIsOrdered, WasRefused};
ghost use Rattle.oneshot_ends.specs.DeadlineExamples.{DeadlinesThatAre, DeadlinesThatAreNot};
ghost use Rattle.oneshot_ends.specs.Moments.{TookWhatWasGiven};
ghost use Rattle.oneshot_ends.specs.NoLostWakeup.{EndedSendersGaveTokens, NoSleeperIsForgotten, FuturesWakeNoThread};
ghost use Rattle.oneshot_ends.specs.NoLostWakeup.{EndedSendersWokeTasks, NoTaskIsForgotten, GivenTokensStay};
ghost use Rattle.oneshot_ends.specs.PatienceExamples.{WaitsThatAre, WaitsThatAreNot};
ghost use Rattle.oneshot_ends.specs.Taken.{TookAsFound};
ghost use Rattle.oneshot_ends.specs.Tokens.{LivesLeadToStates, TokensAreGivenOnce, HasOneWakingHalf};

use crate::error::SendError;
use crate::future::AsyncReceiver;
use crate::receiver::Receiver;
use crate::sender::Sender;
use oneshot_word::Promise;

/// A sender has performed no operation: its one call consumes it.
pub fn a_sender_has_made_none<T, P: Promise<T>>(sender: &Sender<T, P>)
    ensures { sender.now.log ≡ [] }
{
    let _side = &sender.side;
}

/// The log of an error is that of one call, a refused `send`.
pub fn an_error_was_refused<T, P: Promise<T>>(error: &SendError<T, P>)
    ensures { WasRefused T error.now.log }
{
    error.was_refused();
}

/// A receiver's log is that of calls that have returned, whatever a program did with the receiver: it has the
/// operations of one run of each call.
pub fn a_receiver_has_its_calls<T, Rt, P: Promise<T>>(receiver: &Receiver<T, Rt, P>)
    ensures { HasCalls T as_receiver receiver.now.log }
{
    let _ground = &receiver.ground;
}

/// A future's log is that of calls that have returned, first those of a receiver and then those of a future.
pub fn a_future_has_its_calls<T, Rt, P: Promise<T>>(future: &AsyncReceiver<T, Rt, P>)
    ensures { HasCalls T as_future future.now.log }
{
    let _ground = &future.ground;
}

/// A receiver has taken a message exactly if an operation of its log found one.
pub fn a_receiver_took_what_it_found<T, Rt, P: Promise<T>>(receiver: &Receiver<T, Rt, P>)
    ensures { TookAsFound receiver.now.took receiver.now.log }
{
    let _ground = &receiver.ground;
}

/// The same of a future.
pub fn a_future_took_what_it_found<T, Rt, P: Promise<T>>(future: &AsyncReceiver<T, Rt, P>)
    ensures { TookAsFound future.now.took future.now.log }
{
    let _ground = &future.ground;
}

/// An open receiver has taken no message: so a receiver takes at most one, and is closed from then on.
pub fn an_open_receiver_took_none<T, Rt, P: Promise<T>>(receiver: &Receiver<T, Rt, P>)
    ensures { IsOpen receiver.now.log → receiver.now.took ≡ None }
{
    a_receiver_took_what_it_found(receiver);
}

/// The same of a future.
pub fn an_open_future_took_none<T, Rt, P: Promise<T>>(future: &AsyncReceiver<T, Rt, P>)
    ensures { IsOpen future.now.log → future.now.took ≡ None }
{
    a_future_took_what_it_found(future);
}

/// The message that a receiver or a future took is the one that its channel's sender gave, at each moment that the
/// rule of the shared table allows (`AtOneMoment`). The driver of a `send` guarantees that the sender gave the message
/// if the `send` returns `Ok` (`gave`). The driver of a receive guarantees that the receiver took the message that the
/// receive returns (`had`).
pub fn what_was_taken_was_given<T, P: Promise<T>>()
    ensures { TookWhatWasGiven P.keeps }
{}

/// Adds up the calls of a receiver or a future. If its log was that of some calls, and one more call left it
/// in place and appended the operations of one run that ends in its reply, the log is that of all the calls.
pub fn calls_add_up<T>()
    ensures { CallsAddUp T }
{}

/// A sender's log is its part of some order of both ends' operations, whatever a program did with either end.
pub fn a_sender_is_in_an_order<T, P: Promise<T>>(sender: &Sender<T, P>)
    ensures { SenderIsOrdered sender.now.log }
{
    sender.side.is_in_an_order();
}

/// A receiver's log is its part of such an order.
pub fn a_receiver_is_in_an_order<T, Rt, P: Promise<T>>(receiver: &Receiver<T, Rt, P>)
    ensures { ReceiverIsOrdered receiver.now.log }
{
    receiver.ground.is_in_an_order();
}

/// A future's log is the receiver's part of such an order.
pub fn a_future_is_in_an_order<T, Rt, P: Promise<T>>(future: &AsyncReceiver<T, Rt, P>)
    ensures { ReceiverIsOrdered future.now.log }
{
    future.ground.is_in_an_order();
}

/// The log of an error is the sender's part of such an order.
pub fn an_error_is_in_an_order<T, P: Promise<T>>(error: &SendError<T, P>)
    ensures { SenderIsOrdered error.now.log }
{
    error.is_in_an_order();
}

/// In each life that leads through the states of its rule, the token of a blocking receiver is given at most once,
/// taken at most once, and never taken before it is given. Once it is given, it is there until it is taken. The rule of
/// both halves of its parker has exactly the states that a token's life can lead to. A parker has one waking half.
pub fn a_token_is_given_once_and_then_taken()
    ensures states { LivesLeadToStates }
    ensures once { TokensAreGivenOnce }
    ensures stays { GivenTokensStay }
    ensures one_half { HasOneWakingHalf }
{}

/// No wakeup of a real receiver is lost. At each moment of a channel whose sender has ended:
///
/// - if the sender found its receiver waiting, it has given the token of the parker whose half the receiver gave;
/// - a receiver that sleeps on a parker has that parker's token there;
/// - from a future that waits, the sender took no thread's waker;
/// - if the sender found a future waiting, and the copy that the future gave last is for a poll's task, the sender has
///   used a copy for this task (clause `woken` of the poll names the task);
/// - if a future is registered, the sender has used its waker.
///
/// No contract states what the use of a task's waker does: `wake` of `src/waker.rt` calls `Waker::wake`.
///
/// The functions that release a sender require `HasEnded` of it. `park` and `park_until` of a parking half require
/// `SleepsOn` of the receiver. `AtOneMoment` and `ParkerAt` state that the rules of both tables allow what the ends and
/// the halves show. `atomic_table` promises this between any two steps, and no clause states it.
pub fn no_wakeup_is_lost<T, P: Promise<T>>()
    ensures tokens { EndedSendersGaveTokens P.keeps }
    ensures sleepers { NoSleeperIsForgotten P.keeps }
    ensures futures { FuturesWakeNoThread P.keeps }
    ensures tasks { EndedSendersWokeTasks P.keeps }
    ensures registered { NoTaskIsForgotten P.keeps }
{}

/// Examples of deadlines and of receives that wait, and counterexamples. No other crate can name their types; the other
/// examples of the ends are in `oneshot_contract_examples`.
pub(crate) fn examples_are_so()
    ensures deadlines { DeadlinesThatAre }
    ensures no_deadlines { DeadlinesThatAreNot }
    ensures waits { WaitsThatAre }
    ensures no_waits { WaitsThatAreNot }
{}
