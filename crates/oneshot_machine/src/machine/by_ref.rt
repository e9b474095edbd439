//! The receives by reference: `recv_ref`, and the start of a receive with a deadline.

ghost use Rattle.std.specs.Prelude.{◌≡◌};
ghost use Rattle.std.specs.Option.{option_map};
ghost use Rattle.oneshot_machine.specs.TableRows.{leads, row_for};
ghost use Rattle.oneshot_machine.specs.ByRef.{ref_step, ref_rows};

use crate::machine::RowEnd::{Answers, Goes};
use crate::machine::receiver::ReceiverPos;
use crate::machine::receiver::ReceiverPos::{Ref, Timed, Try};
use crate::machine::timed::TimedPos;
use crate::machine::try_recv::TryPos;
use crate::machine::{Reply, RowEnd, Seen, Step};
use crate::states::{DISCONNECTED, EMPTY, MESSAGE, Op, RECEIVING, UNPARKING};

/// A position of a receive by reference.
#[derive(Clone, Copy)]
pub enum RefPos {
    /// `recv_ref`, or a receive with a deadline, is about to read the word.
    StartLoad {
        /// Whether it has a deadline.
        timed: bool,
    },
    /// It is about to store its waker.
    StartWrite {
        /// Whether it has a deadline.
        timed: bool,
    },
    /// It is about to swap `RECEIVING` in.
    StartSwap {
        /// Whether it has a deadline.
        timed: bool,
    },
    /// Its swap found the message, and it is about to take its waker back.
    BackFull,
    /// Its swap found no sender, and it is about to take its waker back.
    BackClosed,
    /// `recv_ref` is about to park.
    Park,
    /// `recv_ref` parked, and is about to read the word.
    ParkLoad,
}

impl RefPos {
    pub(crate) fn step(&self) -> Step
        ensures { result ≡ ref_step self.now }
    {
        match self {
            RefPos::StartLoad { .. } => Step::Word(Op::Load),
            RefPos::StartWrite { .. } => Step::WriteWaker,
            RefPos::StartSwap { .. } => Step::Word(Op::Swap(RECEIVING)),
            RefPos::BackFull => Step::Withdraw,
            RefPos::BackClosed => Step::Withdraw,
            RefPos::Park => Step::Park,
            RefPos::ParkLoad => Step::Word(Op::Load),
        }
    }

    pub(crate) fn row(&self, seen: Seen) -> Option<RowEnd<ReceiverPos>>
        ensures { option_map leads result ≡ row_for seen (ref_rows self.now) }
    {
        let end = match (self, seen) {
            (RefPos::StartLoad { .. }, Seen::Word(MESSAGE)) => Goes(Try(TryPos::Close)),
            (RefPos::StartLoad { .. }, Seen::Word(DISCONNECTED)) => Answers(Reply::Disconnected),
            (RefPos::StartLoad { timed }, Seen::Word(EMPTY)) => Goes(Ref(RefPos::StartWrite {
                timed: *timed,
            })),
            (RefPos::StartWrite { timed }, Seen::Done) => Goes(Ref(RefPos::StartSwap {
                timed: *timed,
            })),
            (RefPos::StartSwap { timed: false }, Seen::Word(EMPTY)) => Goes(Ref(RefPos::Park)),
            (RefPos::StartSwap { timed: true }, Seen::Word(EMPTY)) => Goes(Timed(TimedPos::Clock)),
            (RefPos::StartSwap { .. }, Seen::Word(MESSAGE)) => Goes(Ref(RefPos::BackFull)),
            (RefPos::StartSwap { .. }, Seen::Word(DISCONNECTED)) => Goes(Ref(RefPos::BackClosed)),
            (RefPos::BackFull, Seen::Done) => Goes(Try(TryPos::Close)),
            (RefPos::BackClosed, Seen::Done) => Goes(Try(TryPos::CloseOnly)),
            (RefPos::Park, Seen::Token(true)) => Goes(Ref(RefPos::ParkLoad)),
            (RefPos::Park, Seen::Token(false)) => Goes(Ref(RefPos::ParkLoad)),
            (RefPos::ParkLoad, Seen::Word(MESSAGE)) => Goes(Try(TryPos::Close)),
            (RefPos::ParkLoad, Seen::Word(DISCONNECTED)) => Answers(Reply::Disconnected),
            (RefPos::ParkLoad, Seen::Word(RECEIVING)) => Goes(Ref(RefPos::Park)),
            (RefPos::ParkLoad, Seen::Word(UNPARKING)) => Goes(Ref(RefPos::Park)),
            _ => return None,
        };
        Some(end)
    }
}
