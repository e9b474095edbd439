//! Laws of tickets and requests, from the laws of the ends in them.

ghost use Rattle.std.specs.Prelude.{◌≡◌, []};
ghost use Rattle.oneshot_ends.specs.Called.{as_receiver};
ghost use Rattle.oneshot_ends.specs.Ends.{HasCalls, ReceiverIsOrdered};
ghost use Rattle.oneshot_ends.specs.Taken.{TookAsFound};

use crate::answer::Answer;
use crate::requests::Request;
use crate::ticket::Ticket;
use oneshot_ends::laws::{
    a_receiver_has_its_calls, a_receiver_is_in_an_order, a_receiver_took_what_it_found,
    a_sender_has_made_none,
};

/// A request has performed no operation: the call that performs one consumes it.
pub fn a_request_has_made_none<Q: Eq, A: Answer<Q>>(request: &Request<Q, A>)
    ensures { request.now.log ≡ [] }
{
    a_sender_has_made_none(&request.reply);
}

/// A ticket's log is that of calls that have returned, whatever a program did with the ticket.
pub fn a_ticket_has_its_calls<Q: Eq, A: Answer<Q>, Rt>(ticket: &Ticket<Q, A, Rt>)
    ensures { HasCalls A as_receiver ticket.now.log }
{
    a_receiver_has_its_calls(&ticket.replies);
}

/// A ticket's log belongs to an order of both ends' operations.
pub fn a_ticket_is_in_an_order<Q: Eq, A: Answer<Q>, Rt>(ticket: &Ticket<Q, A, Rt>)
    ensures { ReceiverIsOrdered ticket.now.log }
{
    a_receiver_is_in_an_order(&ticket.replies);
}

/// A ticket has taken a reply exactly if an operation of its log found one.
pub fn a_ticket_took_what_it_found<Q: Eq, A: Answer<Q>, Rt>(ticket: &Ticket<Q, A, Rt>)
    ensures { TookAsFound ticket.now.took ticket.now.log }
{
    a_receiver_took_what_it_found(&ticket.replies);
}
