//! Laws of the values that a program holds, each a function's contract: their logs are those of runs of the model.
//! `both_ends` has the laws of what one end of a channel leaves for the other.
#![tactic(auto)]

pub mod both_ends;

ghost use Rattle.oneshot_machine.specs.Called.{as_receiver, as_future};
ghost use Rattle.oneshot_values.specs.Examples.{WorkedValues, WrongValues};
ghost use Rattle.oneshot_values.specs.Values.{ReceiverRuns, ErrorRuns};

use oneshot_ends::laws::{
    a_future_has_its_calls, a_future_is_in_an_order, a_future_took_what_it_found,
    a_receiver_has_its_calls, a_receiver_is_in_an_order, a_receiver_took_what_it_found,
    an_error_is_in_an_order,
};
use oneshot_ends::{AsyncReceiver, Promise, Receiver, SendError};
use oneshot_reply::laws::{
    a_ticket_has_its_calls, a_ticket_is_in_an_order, a_ticket_took_what_it_found,
};
use oneshot_reply::{Answer, Ticket};

/// For a receiver between two of its calls, whatever a program did with it and wherever the sender is, some
/// run of the model has this receiver's log, and exactly its calls with the replies that the program got.
/// The run keeps every law of a trace. Whichever message it sends, exactly one call returned it if the receiver took
/// one, and otherwise none did. If `T` has no values, there is no run: the log is that of some
/// calls, and belongs to an order of both ends' operations.
pub fn a_receiver_runs<T, Rt, P: Promise<T>>(receiver: &Receiver<T, Rt, P>)
    ensures { ReceiverRuns T as_receiver receiver.now.took receiver.now.log }
{
    a_receiver_took_what_it_found(receiver);
    a_receiver_has_its_calls(receiver);
    a_receiver_is_in_an_order(receiver);
}

/// The same of a future. Its calls are the receiver's before, and the future's since.
pub fn a_future_runs<T, Rt, P: Promise<T>>(future: &AsyncReceiver<T, Rt, P>)
    ensures { ReceiverRuns T as_future future.now.took future.now.log }
{
    a_future_took_what_it_found(future);
    a_future_has_its_calls(future);
    a_future_is_in_an_order(future);
}

/// The same of a ticket.
pub fn a_ticket_runs<Q: Eq, A: Answer<Q>, Rt>(ticket: &Ticket<Q, A, Rt>)
    ensures { ReceiverRuns A as_receiver ticket.now.took ticket.now.log }
{
    a_ticket_took_what_it_found(ticket);
    a_ticket_has_its_calls(ticket);
    a_ticket_is_in_an_order(ticket);
}

/// For the error of a refused `send`, some run of the model has its sender's log, sends its message, and
/// keeps every law of a trace.
pub fn an_error_runs<T, P: Promise<T>>(error: &SendError<T, P>)
    ensures { ErrorRuns error.now.message error.now.log }
{
    an_error_is_in_an_order(error);
}

/// States, by worked and wrong logs, what the definitions accept and refuse.
pub fn examples_are_so<T>()
    ensures worked { (m : T) → WorkedValues m }
    ensures wrong { (m : T) → WrongValues m }
{}
