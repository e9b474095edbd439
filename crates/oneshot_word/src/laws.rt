//! Laws of the definitions: each function's contract states the law, and its body does nothing.
//! A body that mentions a seat does so for the invariant of its side, which the proof uses.

ghost use Rattle.std.specs.Prelude.{ℕ, List};
ghost use Rattle.oneshot_machine.specs.Noted.{Noted};
ghost use Rattle.oneshot_machine.specs.Orders.{Reaches};
ghost use Rattle.oneshot_word.specs.OneOrder.{OrderIsOne};
ghost use Rattle.oneshot_word.specs.Ordered.{RuleOrders};
ghost use Rattle.oneshot_word.specs.Promised.{RuleKeeps};
ghost use Rattle.oneshot_word.specs.Received.{ReceivedIsSent, WokenIsPut};

use crate::promise::Promise;
use crate::receiver::ReceiverSide;
use crate::sender::SenderSide;

/// In every state that the table's rule allows, the operations of both ends have an order in which each
/// finds the word that the one before it left.
pub fn every_state_is_reached<T, H, K, P: Promise<T>>()
    ensures { RuleOrders H K P.keeps }
{}

/// The logs of both ends have only one order: in any two orders of them, in which each operation finds
/// the word that the one before it left, the ends operate in the same sequence. So if the operations happened in
/// such an order, it is the one of `every_state_is_reached`.
pub fn order_is_one()
    ensures { OrderIsOne }
{}

/// In every state that the table's rule allows, a message in the table keeps its channel's promise. Any
/// message that keeps it may be there.
pub fn messages_keep_their_promise<T, H, K, P: Promise<T>>()
    ensures { RuleKeeps H K P.keeps }
{}

/// In every state that the table's rule allows, a message that the receiver took is the one that the
/// sender gave, and so is a message in the table.
pub fn what_is_received_was_sent<T, H, K, P: Promise<T>>()
    ensures { ReceivedIsSent H K P.keeps }
{}

/// In every state that the table's rule allows, a waker that the sender took is the one that the receiver gave
/// last, and so is a waker in the table.
pub fn what_is_woken_was_put<T, H, K, P: Promise<T>>()
    ensures { WokenIsPut H K P.keeps }
{}

/// Whatever a program did with the receiver's side `side`, its log is part of an order of both ends'
/// operations.
pub fn a_receiver_is_in_an_order<T, H, K, P: Promise<T>>(side: &ReceiverSide<T, H, K, P>)
    ensures { (xs : List Noted) × (word : ℕ) × Reaches xs side.now.log word }
{
    let _seat = &side.seat;
}

/// The same for the sender's side `side`.
pub fn a_sender_is_in_an_order<T, H, K, P: Promise<T>>(side: &SenderSide<T, H, K, P>)
    ensures { (ys : List Noted) × (word : ℕ) × Reaches side.now.log ys word }
{
    let _seat = &side.seat;
}
