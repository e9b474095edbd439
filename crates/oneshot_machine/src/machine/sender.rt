//! The sender's transition table: the positions of its calls, the step at each, and where each row leads.

ghost use Rattle.std.specs.Prelude.{◌≡◌, Some, IsTrue, IfSome, is_some};
ghost use Rattle.std.specs.Option.{option_map};
ghost use Rattle.oneshot_machine.specs.TableRows.{leads, outcome};
ghost use Rattle.oneshot_machine.specs.Sender.{sender_start, sender_step, sender_row};

use crate::machine::RowEnd::{Answers, Goes};
use crate::machine::{Reply, RowEnd, Seen, Step};
use crate::states::{DISCONNECTED, EMPTY, MESSAGE, Op, RECEIVING, UNPARKING};

/// A call of the sender, or of the error of its refused `send`.
#[derive(Clone, Copy, Debug, Eq, PartialEq)]
pub enum SenderCall {
    /// `Sender::is_closed`.
    IsClosed,
    /// `Sender::send`.
    Send,
    /// The sender is dropped.
    Drop,
    /// `SendError::as_inner`.
    AsInner,
    /// `SendError::into_inner`.
    IntoInner,
    /// The error is dropped.
    DropError,
}

/// A position of the sender's table, in a call of the sender or of its error.
#[derive(Clone, Copy)]
pub enum SenderPos {
    /// `is_closed` is about to read the word.
    LookClosed,
    /// `send` is about to write its message.
    SendWrite,
    /// `send` is about to add one to the word.
    SendAdd,
    /// `send` is about to take the waker of the waiting receiver.
    SendTakeWaker,
    /// `send` is about to swap `MESSAGE` in.
    SendFinal,
    /// `send` is about to wake the receiver.
    SendWake,
    /// The swap of `send` found the receiver gone, and `send` is about to use the waker.
    SendLateWake,
    /// The drop is about to xor the word with one.
    DropXor,
    /// The drop is about to take the waker of the waiting receiver.
    DropTakeWaker,
    /// The drop is about to swap `DISCONNECTED` in.
    DropFinal,
    /// The drop is about to wake the receiver.
    DropWake,
    /// The drop's swap found the receiver gone, and the drop is about to use the waker.
    DropLateWake,
    /// The drop is about to free the block.
    DropFree,
    /// `as_inner` is about to lend the refused message.
    ErrorLook,
    /// `into_inner` is about to take the refused message.
    IntoTake,
    /// `into_inner` is about to free the block.
    IntoFree,
    /// The error's drop is about to drop the refused message.
    ErrorDrop,
    /// The error's drop is about to free the block.
    ErrorFree,
}

impl SenderPos {
    /// Returns the first position of `call`.
    pub fn start(call: SenderCall) -> SenderPos
        ensures { result ≡ sender_start call }
    {
        match call {
            SenderCall::IsClosed => SenderPos::LookClosed,
            SenderCall::Send => SenderPos::SendWrite,
            SenderCall::Drop => SenderPos::DropXor,
            SenderCall::AsInner => SenderPos::ErrorLook,
            SenderCall::IntoInner => SenderPos::IntoTake,
            SenderCall::DropError => SenderPos::ErrorDrop,
        }
    }

    /// Returns the step at this position: an operation on the word, or another step.
    pub fn step(&self) -> Step
        ensures { result ≡ sender_step self.now }
    {
        match self {
            SenderPos::LookClosed => Step::Word(Op::Load),
            SenderPos::SendWrite => Step::WriteMessage,
            SenderPos::SendAdd => Step::Word(Op::Add),
            SenderPos::SendTakeWaker => Step::TakeWaker,
            SenderPos::SendFinal => Step::Word(Op::Swap(MESSAGE)),
            SenderPos::SendWake => Step::Wake,
            SenderPos::SendLateWake => Step::Wake,
            SenderPos::DropXor => Step::Word(Op::Xor),
            SenderPos::DropTakeWaker => Step::TakeWaker,
            SenderPos::DropFinal => Step::Word(Op::Swap(DISCONNECTED)),
            SenderPos::DropWake => Step::Wake,
            SenderPos::DropLateWake => Step::Wake,
            SenderPos::DropFree => Step::Free,
            SenderPos::ErrorLook => Step::Plain,
            SenderPos::IntoTake => Step::TakeMessage,
            SenderPos::IntoFree => Step::Free,
            SenderPos::ErrorDrop => Step::DropMessage,
            SenderPos::ErrorFree => Step::Free,
        }
    }

    /// Returns whether the table has a row here for `seen`.
    pub fn accepts(&self, seen: Seen) -> bool
        ensures { result ≡ is_some (sender_row self.now seen) }
    {
        self.row(seen).is_some()
    }

    /// Follows the row for `seen`, which the position has to accept. Returns the next position; or this
    /// position, with the reply that ends the call.
    pub fn next(&self, seen: Seen) -> (SenderPos, Option<Reply>)
        requires { IsTrue (is_some (sender_row self.now seen)) }
        ensures row { sender_row self.now seen ≡ Some (outcome result) }
        ensures stays { IfSome result.1 (λ _. result.0 ≡ self.now) }
    {
        match self.row(seen) {
            Some(Goes(next)) => (next, None),
            Some(Answers(reply)) => (*self, Some(reply)),
            None => unreachable!(),
        }
    }

    fn row(&self, seen: Seen) -> Option<RowEnd<SenderPos>>
        ensures { option_map leads result ≡ sender_row self.now seen }
    {
        let end = match (self, seen) {
            (SenderPos::LookClosed, Seen::Word(DISCONNECTED)) => Answers(Reply::Yes),
            (SenderPos::LookClosed, Seen::Word(RECEIVING)) => Answers(Reply::No),
            (SenderPos::LookClosed, Seen::Word(EMPTY)) => Answers(Reply::No),
            (SenderPos::SendWrite, Seen::Done) => Goes(SenderPos::SendAdd),
            (SenderPos::SendAdd, Seen::Word(EMPTY)) => Answers(Reply::Sent),
            (SenderPos::SendAdd, Seen::Word(RECEIVING)) => Goes(SenderPos::SendTakeWaker),
            (SenderPos::SendAdd, Seen::Word(DISCONNECTED)) => Answers(Reply::Refused),
            (SenderPos::SendTakeWaker, Seen::Done) => Goes(SenderPos::SendFinal),
            (SenderPos::SendFinal, Seen::Word(UNPARKING)) => Goes(SenderPos::SendWake),
            (SenderPos::SendFinal, Seen::Word(EMPTY)) => Goes(SenderPos::SendWake),
            (SenderPos::SendFinal, Seen::Word(DISCONNECTED)) => Goes(SenderPos::SendLateWake),
            (SenderPos::SendWake, Seen::Done) => Answers(Reply::Sent),
            (SenderPos::SendLateWake, Seen::Done) => Answers(Reply::Refused),
            (SenderPos::DropXor, Seen::Word(EMPTY)) => Answers(Reply::Done),
            (SenderPos::DropXor, Seen::Word(RECEIVING)) => Goes(SenderPos::DropTakeWaker),
            (SenderPos::DropXor, Seen::Word(DISCONNECTED)) => Goes(SenderPos::DropFree),
            (SenderPos::DropTakeWaker, Seen::Done) => Goes(SenderPos::DropFinal),
            (SenderPos::DropFinal, Seen::Word(UNPARKING)) => Goes(SenderPos::DropWake),
            (SenderPos::DropFinal, Seen::Word(EMPTY)) => Goes(SenderPos::DropWake),
            (SenderPos::DropFinal, Seen::Word(DISCONNECTED)) => Goes(SenderPos::DropLateWake),
            (SenderPos::DropWake, Seen::Done) => Answers(Reply::Done),
            (SenderPos::DropLateWake, Seen::Done) => Goes(SenderPos::DropFree),
            (SenderPos::DropFree, Seen::Done) => Answers(Reply::Done),
            (SenderPos::ErrorLook, Seen::Done) => Answers(Reply::Message),
            (SenderPos::IntoTake, Seen::Done) => Goes(SenderPos::IntoFree),
            (SenderPos::IntoFree, Seen::Done) => Answers(Reply::Message),
            (SenderPos::ErrorDrop, Seen::Done) => Goes(SenderPos::ErrorFree),
            (SenderPos::ErrorFree, Seen::Done) => Answers(Reply::Done),
            _ => return None,
        };
        Some(end)
    }
}
