//! The receive by value, `recv`, which frees the block itself.

ghost use Rattle.std.specs.Prelude.{◌≡◌};
ghost use Rattle.std.specs.Option.{option_map};
ghost use Rattle.oneshot_machine.specs.TableRows.{leads, row_for};
ghost use Rattle.oneshot_machine.specs.Value.{value_step, value_rows};

use crate::machine::RowEnd::{Answers, Goes};
use crate::machine::receiver::ReceiverPos;
use crate::machine::receiver::ReceiverPos::Value;
use crate::machine::{Reply, RowEnd, Seen, Step};
use crate::states::{DISCONNECTED, EMPTY, MESSAGE, Op, RECEIVING, UNPARKING};

/// A position of `recv`.
#[derive(Clone, Copy)]
pub enum ValuePos {
    /// `recv` is about to read the word.
    RecvLoad,
    /// `recv` is about to store its waker.
    RecvWrite,
    /// `recv` is about to swap `RECEIVING` in.
    RecvSwap,
    /// The swap of `recv` found the message, and `recv` is about to take its waker back.
    RecvBackFull,
    /// The swap of `recv` found no sender, and `recv` is about to take its waker back.
    RecvBackClosed,
    /// `recv` is about to park.
    RecvPark,
    /// `recv` parked, and is about to read the word.
    RecvParkLoad,
    /// `recv` is about to take its message.
    RecvTake,
    /// `recv` has its message, and is about to free the block.
    RecvFreeGot,
    /// `recv` found no sender, and is about to free the block.
    RecvFreeGone,
}

impl ValuePos {
    pub(crate) fn step(&self) -> Step
        ensures { result ≡ value_step self.now }
    {
        match self {
            ValuePos::RecvLoad => Step::Word(Op::Load),
            ValuePos::RecvWrite => Step::WriteWaker,
            ValuePos::RecvSwap => Step::Word(Op::Swap(RECEIVING)),
            ValuePos::RecvBackFull => Step::Withdraw,
            ValuePos::RecvBackClosed => Step::Withdraw,
            ValuePos::RecvPark => Step::Park,
            ValuePos::RecvParkLoad => Step::Word(Op::Load),
            ValuePos::RecvTake => Step::TakeMessage,
            ValuePos::RecvFreeGot => Step::Free,
            ValuePos::RecvFreeGone => Step::Free,
        }
    }

    pub(crate) fn row(&self, seen: Seen) -> Option<RowEnd<ReceiverPos>>
        ensures { option_map leads result ≡ row_for seen (value_rows self.now) }
    {
        let end = match (self, seen) {
            (ValuePos::RecvLoad, Seen::Word(MESSAGE)) => Goes(Value(ValuePos::RecvTake)),
            (ValuePos::RecvLoad, Seen::Word(DISCONNECTED)) => Goes(Value(ValuePos::RecvFreeGone)),
            (ValuePos::RecvLoad, Seen::Word(EMPTY)) => Goes(Value(ValuePos::RecvWrite)),
            (ValuePos::RecvWrite, Seen::Done) => Goes(Value(ValuePos::RecvSwap)),
            (ValuePos::RecvSwap, Seen::Word(EMPTY)) => Goes(Value(ValuePos::RecvPark)),
            (ValuePos::RecvSwap, Seen::Word(MESSAGE)) => Goes(Value(ValuePos::RecvBackFull)),
            (ValuePos::RecvSwap, Seen::Word(DISCONNECTED)) => Goes(Value(ValuePos::RecvBackClosed)),
            (ValuePos::RecvBackFull, Seen::Done) => Goes(Value(ValuePos::RecvTake)),
            (ValuePos::RecvBackClosed, Seen::Done) => Goes(Value(ValuePos::RecvFreeGone)),
            (ValuePos::RecvPark, Seen::Token(true)) => Goes(Value(ValuePos::RecvParkLoad)),
            (ValuePos::RecvPark, Seen::Token(false)) => Goes(Value(ValuePos::RecvParkLoad)),
            (ValuePos::RecvParkLoad, Seen::Word(MESSAGE)) => Goes(Value(ValuePos::RecvTake)),
            (ValuePos::RecvParkLoad, Seen::Word(DISCONNECTED)) => Goes(Value(
                ValuePos::RecvFreeGone,
            )),
            (ValuePos::RecvParkLoad, Seen::Word(RECEIVING)) => Goes(Value(ValuePos::RecvPark)),
            (ValuePos::RecvParkLoad, Seen::Word(UNPARKING)) => Goes(Value(ValuePos::RecvPark)),
            (ValuePos::RecvTake, Seen::Done) => Goes(Value(ValuePos::RecvFreeGot)),
            (ValuePos::RecvFreeGot, Seen::Done) => Answers(Reply::Message),
            (ValuePos::RecvFreeGone, Seen::Done) => Answers(Reply::Disconnected),
            _ => return None,
        };
        Some(end)
    }
}
