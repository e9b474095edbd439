//! The receiver as a future: `into_future`, `poll` and its `try_recv`.

ghost use Rattle.std.specs.Prelude.{◌≡◌};
ghost use Rattle.std.specs.Option.{option_map};
ghost use Rattle.oneshot_machine.specs.TableRows.{leads, row_for};
ghost use Rattle.oneshot_machine.specs.Future.{future_step, future_rows};

use crate::machine::RowEnd::{Answers, Goes};
use crate::machine::receiver::ReceiverPos;
use crate::machine::receiver::ReceiverPos::{Future, Try};
use crate::machine::try_recv::TryPos;
use crate::machine::{Reply, RowEnd, Seen, Step};
use crate::states::{DISCONNECTED, EMPTY, MESSAGE, Op, RECEIVING, UNPARKING};

/// A position of `into_future`, or of a future's `poll` or `try_recv`.
#[derive(Clone, Copy)]
pub enum FuturePos {
    /// `into_future` is about to return the future.
    IntoFuture,
    /// `poll` is about to read the word.
    PollLoad,
    /// `poll` is about to copy its task's waker, since none is stored.
    PollCopy,
    /// `poll` is about to store the copy.
    PollWrite,
    /// `poll` is about to exchange `EMPTY` for `RECEIVING`.
    PollExchange,
    /// The exchange of `poll` found the message, and `poll` is about to take its copy back.
    PollBackFull,
    /// The exchange of `poll` found no sender, and `poll` is about to take its copy back.
    PollBackClosed,
    /// `poll` is about to copy its task's waker, to replace the stored one.
    AgainCopy,
    /// `poll` is about to exchange `RECEIVING` for `EMPTY`.
    AgainExchange,
    /// `poll` is about to take back the copy of an earlier poll.
    AgainBack,
    /// `poll` is about to wake its own task.
    PollOwn,
    /// `try_recv` of a future is about to read the word.
    AsyncTryLoad,
}

impl FuturePos {
    pub(crate) fn step(&self) -> Step
        ensures { result ≡ future_step self.now }
    {
        match self {
            FuturePos::IntoFuture => Step::Plain,
            FuturePos::PollLoad => Step::Word(Op::Load),
            FuturePos::PollCopy => Step::Copy,
            FuturePos::PollWrite => Step::WriteWaker,
            FuturePos::PollExchange => Step::Word(Op::Exchange(EMPTY, RECEIVING)),
            FuturePos::PollBackFull => Step::Withdraw,
            FuturePos::PollBackClosed => Step::Withdraw,
            FuturePos::AgainCopy => Step::Copy,
            FuturePos::AgainExchange => Step::Word(Op::Exchange(RECEIVING, EMPTY)),
            FuturePos::AgainBack => Step::Withdraw,
            FuturePos::PollOwn => Step::WakeOwn,
            FuturePos::AsyncTryLoad => Step::Word(Op::Load),
        }
    }

    pub(crate) fn row(&self, seen: Seen) -> Option<RowEnd<ReceiverPos>>
        ensures { option_map leads result ≡ row_for seen (future_rows self.now) }
    {
        let end = match (self, seen) {
            (FuturePos::IntoFuture, Seen::Done) => Answers(Reply::Future),
            (FuturePos::PollLoad, Seen::Word(EMPTY)) => Goes(Future(FuturePos::PollCopy)),
            (FuturePos::PollLoad, Seen::Word(RECEIVING)) => Goes(Future(FuturePos::AgainCopy)),
            (FuturePos::PollLoad, Seen::Word(MESSAGE)) => Goes(Try(TryPos::Close)),
            (FuturePos::PollLoad, Seen::Word(DISCONNECTED)) => Answers(Reply::Disconnected),
            (FuturePos::PollLoad, Seen::Word(UNPARKING)) => Goes(Future(FuturePos::PollOwn)),
            (FuturePos::PollCopy, Seen::Refused(false)) => Goes(Future(FuturePos::PollWrite)),
            (FuturePos::PollCopy, Seen::Refused(true)) => Goes(Future(FuturePos::PollOwn)),
            (FuturePos::PollWrite, Seen::Done) => Goes(Future(FuturePos::PollExchange)),
            (FuturePos::PollExchange, Seen::Word(EMPTY)) => Answers(Reply::Pending),
            (FuturePos::PollExchange, Seen::Word(MESSAGE)) => Goes(Future(FuturePos::PollBackFull)),
            (FuturePos::PollExchange, Seen::Word(DISCONNECTED)) => Goes(Future(
                FuturePos::PollBackClosed,
            )),
            (FuturePos::PollBackFull, Seen::Done) => Goes(Try(TryPos::Close)),
            (FuturePos::PollBackClosed, Seen::Done) => Answers(Reply::Disconnected),
            (FuturePos::AgainCopy, Seen::Refused(false)) => Goes(Future(FuturePos::AgainExchange)),
            (FuturePos::AgainCopy, Seen::Refused(true)) => Goes(Future(FuturePos::PollOwn)),
            (FuturePos::AgainExchange, Seen::Word(RECEIVING)) => Goes(Future(FuturePos::AgainBack)),
            (FuturePos::AgainExchange, Seen::Word(MESSAGE)) => Goes(Try(TryPos::Close)),
            (FuturePos::AgainExchange, Seen::Word(DISCONNECTED)) => Answers(Reply::Disconnected),
            (FuturePos::AgainExchange, Seen::Word(UNPARKING)) => Goes(Future(FuturePos::PollOwn)),
            (FuturePos::AgainBack, Seen::Done) => Goes(Future(FuturePos::PollWrite)),
            (FuturePos::PollOwn, Seen::Done) => Answers(Reply::Pending),
            (FuturePos::AsyncTryLoad, Seen::Word(MESSAGE)) => Goes(Try(TryPos::Close)),
            (FuturePos::AsyncTryLoad, Seen::Word(DISCONNECTED)) => Answers(Reply::Disconnected),
            (FuturePos::AsyncTryLoad, Seen::Word(EMPTY)) => Answers(Reply::Empty),
            (FuturePos::AsyncTryLoad, Seen::Word(RECEIVING)) => Answers(Reply::Empty),
            (FuturePos::AsyncTryLoad, Seen::Word(UNPARKING)) => Answers(Reply::Empty),
            _ => return None,
        };
        Some(end)
    }
}
