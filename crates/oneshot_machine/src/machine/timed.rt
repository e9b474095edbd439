//! The receives with a deadline, where they differ from `recv_ref`.

ghost use Rattle.std.specs.Prelude.{◌≡◌};
ghost use Rattle.std.specs.Option.{option_map};
ghost use Rattle.oneshot_machine.specs.TableRows.{leads, row_for};
ghost use Rattle.oneshot_machine.specs.Timed.{timed_step, timed_rows};

use crate::machine::RowEnd::{Answers, Goes};
use crate::machine::by_ref::RefPos;
use crate::machine::receiver::ReceiverPos;
use crate::machine::receiver::ReceiverPos::{Ref, Timed, Try};
use crate::machine::try_recv::TryPos;
use crate::machine::{Reply, RowEnd, Seen, Step};
use crate::states::{DISCONNECTED, EMPTY, MESSAGE, Op, RECEIVING, UNPARKING};

/// A position of a receive with a deadline.
#[derive(Clone, Copy)]
pub enum TimedPos {
    /// `recv_timeout` is about to read the clock, to compute its deadline.
    SumClock {
        /// Whether the call has a deadline: an `Instant` can represent it, or the reading failed.
        representable: bool,
    },
    /// The receive is about to read the clock, to see whether its deadline is over.
    Clock,
    /// It is about to park until its deadline.
    TimedPark,
    /// Its park ended, and it is about to read the word.
    TimedLoad,
    /// Its deadline is over, and it is about to swap `EMPTY` in.
    EndSwap,
    /// It found its waker in the slot, and is about to take it back.
    EndBack,
    /// It found a sender that is about to finish, and is about to park for it.
    LatePark,
    /// It parked for that sender, and is about to read the word.
    LateLoad,
}

impl TimedPos {
    pub(crate) fn step(&self) -> Step
        ensures { result ≡ timed_step self.now }
    {
        match self {
            TimedPos::SumClock { .. } => Step::Clock,
            TimedPos::Clock => Step::Clock,
            TimedPos::TimedPark => Step::Park,
            TimedPos::TimedLoad => Step::Word(Op::Load),
            TimedPos::EndSwap => Step::Word(Op::Swap(EMPTY)),
            TimedPos::EndBack => Step::Withdraw,
            TimedPos::LatePark => Step::Park,
            TimedPos::LateLoad => Step::Word(Op::Load),
        }
    }

    pub(crate) fn row(&self, seen: Seen) -> Option<RowEnd<ReceiverPos>>
        ensures { option_map leads result ≡ row_for seen (timed_rows self.now) }
    {
        let end = match (self, seen) {
            (TimedPos::SumClock { representable }, Seen::Over(true)) => Goes(Ref(
                RefPos::StartLoad {
                    timed: *representable,
                },
            )),
            (TimedPos::SumClock { representable }, Seen::Over(false)) => Goes(Ref(
                RefPos::StartLoad {
                    timed: *representable,
                },
            )),
            (TimedPos::Clock, Seen::Over(false)) => Goes(Timed(TimedPos::TimedPark)),
            (TimedPos::Clock, Seen::Over(true)) => Goes(Timed(TimedPos::EndSwap)),
            (TimedPos::TimedPark, Seen::Token(true)) => Goes(Timed(TimedPos::TimedLoad)),
            (TimedPos::TimedPark, Seen::Token(false)) => Goes(Timed(TimedPos::TimedLoad)),
            (TimedPos::TimedLoad, Seen::Word(MESSAGE)) => Goes(Try(TryPos::Close)),
            (TimedPos::TimedLoad, Seen::Word(DISCONNECTED)) => Answers(Reply::Disconnected),
            (TimedPos::TimedLoad, Seen::Word(RECEIVING)) => Goes(Timed(TimedPos::Clock)),
            (TimedPos::TimedLoad, Seen::Word(UNPARKING)) => Goes(Timed(TimedPos::Clock)),
            (TimedPos::EndSwap, Seen::Word(RECEIVING)) => Goes(Timed(TimedPos::EndBack)),
            (TimedPos::EndSwap, Seen::Word(MESSAGE)) => Goes(Try(TryPos::Close)),
            (TimedPos::EndSwap, Seen::Word(DISCONNECTED)) => Goes(Try(TryPos::CloseOnly)),
            (TimedPos::EndSwap, Seen::Word(UNPARKING)) => Goes(Timed(TimedPos::LatePark)),
            (TimedPos::EndBack, Seen::Done) => Answers(Reply::Timeout),
            (TimedPos::LatePark, Seen::Token(true)) => Goes(Timed(TimedPos::LateLoad)),
            (TimedPos::LatePark, Seen::Token(false)) => Goes(Timed(TimedPos::LateLoad)),
            (TimedPos::LateLoad, Seen::Word(MESSAGE)) => Goes(Try(TryPos::Close)),
            (TimedPos::LateLoad, Seen::Word(DISCONNECTED)) => Answers(Reply::Disconnected),
            (TimedPos::LateLoad, Seen::Word(EMPTY)) => Goes(Timed(TimedPos::LatePark)),
            _ => return None,
        };
        Some(end)
    }
}
