//! A run of the model with the position of each end, so that its next step is known before it is made.

use crate::differs::Differs;
use crate::kept::Kept;
use crate::order::Order;
use crate::tasks::Tasks;
use oneshot_machine::machine::{
    End, ReceiverPos, ReceiverStart, Seen, SenderCall, SenderPos, Step,
};
use oneshot_machine::states::EMPTY;
use oneshot_replay::{Entry, Made, Move, Replayer};
use oneshot_text::Request;
use std::alloc::{AllocError, Global};

/// The most moves of a run, and the most steps of one end in a row that no word reports.
const MOST_MOVES: usize = 4096;

pub(crate) const MOST_SILENT: usize = 16;

/// What the receiver's next step gets.
#[derive(Clone, Copy)]
pub(crate) enum Given {
    /// A reading of the clock that is in time, or a copy of its task's waker, if it asks for one.
    Usual,
    /// A reading past the deadline.
    Over,
    /// No copy.
    Refusal,
}

/// A run of the model between two moves.
#[derive(Drop)]
pub(crate) struct Model {
    run: Replayer<u64>,
    moves: Vec<Move>,
    order: Order,
    tasks: Tasks,
    kept: Kept,
    message: u64,
    sender_at: Option<SenderPos>,
    receiver_at: Option<ReceiverPos>,
    /// The word; `None` once the block is freed.
    word: Option<u8>,
    parks: usize,
    operations: usize,
}

impl Model {
    pub(crate) fn new(alloc: Global, asked: Request) -> Result<Model, Differs> {
        let message = asked.message();
        let tasks = Tasks::new(alloc, &asked.receiver.last)?;
        let Request {
            sender,
            receiver,
            ..
        } = asked;
        Ok(Model {
            run: Replayer::new(sender, receiver),
            moves: Vec::new(alloc),
            order: Order::new(alloc),
            tasks,
            kept: Kept::new(),
            message,
            sender_at: None,
            receiver_at: None,
            word: Some(EMPTY),
            parks: 0,
            operations: 0,
        })
    }

    pub(crate) fn moves(&self) -> &[Move] {
        self.moves.as_slice()
    }

    pub(crate) fn digest(&self) -> u64 {
        self.order.digest()
    }

    pub(crate) fn tasks(&self) -> &Tasks {
        &self.tasks
    }

    /// Whether a poll whose copy is refused stores an older copy, which the future keeps.
    pub(crate) fn has_older_copy(&self) -> bool {
        self.kept.has_copy()
    }

    pub(crate) fn message(&self) -> u64 {
        self.message
    }

    /// The word; `None` once the block is freed.
    pub(crate) fn word(&self) -> Option<u8> {
        self.word
    }

    /// How often the receiver has parked.
    pub(crate) fn parks(&self) -> usize {
        self.parks
    }

    /// How many operations on the word were made.
    pub(crate) fn operations(&self) -> usize {
        self.operations
    }

    pub(crate) fn block_freed(&self) -> bool {
        self.run.block_freed()
    }

    /// Whether a call of this end is under way or left.
    pub(crate) fn has_call(&self, end: End) -> bool {
        match end {
            End::Sender => self.run.sender_call().is_some(),
            End::Receiver => self.run.receiver_call().is_some(),
        }
    }

    /// Whether a call of this end is under way.
    pub(crate) fn is_under_way(&self, end: End) -> bool {
        match end {
            End::Sender => self.sender_at.is_some(),
            End::Receiver => self.receiver_at.is_some(),
        }
    }

    /// Whether the sender is dropped at its next step, or about to be.
    pub(crate) fn drops_sender(&self) -> bool {
        matches!(self.run.sender_call(), Some(SenderCall::Drop))
    }

    /// Whether the receiver's next step reads the clock to compute a deadline.
    pub(crate) fn computes_deadline(&self) -> bool {
        let call = self.run.receiver_call();
        self.receiver_at.is_none() && matches!(call, Some(ReceiverStart::RecvTimeout { .. }))
    }

    /// The next step of an end; `None` if its script is finished.
    pub(crate) fn next_step(&self, end: End) -> Option<Step> {
        match end {
            End::Sender => Some(self.sender_position()?.step()),
            End::Receiver => Some(self.receiver_position()?.step()),
        }
    }

    /// Where the sender is: in the call under way, or at the first position of its next.
    fn sender_position(&self) -> Option<SenderPos> {
        match self.sender_at {
            Some(at) => Some(at),
            None => Some(SenderPos::start(self.run.sender_call()?)),
        }
    }

    /// Where the receiver is: in the call under way, or at the first position of its next.
    fn receiver_position(&self) -> Option<ReceiverPos> {
        match self.receiver_at {
            Some(at) => Some(at),
            None => Some(ReceiverPos::start(self.run.receiver_call()?)),
        }
    }

    /// Makes the next step of an end.
    pub(crate) fn advance(&mut self, end: End, given: Given) -> Result<Made, Differs> {
        self.take_position(end);
        if self.moves.len() >= MOST_MOVES || self.run.count() == usize::MAX {
            return Err(Differs::TooLong);
        }
        let m = move_of(end, given);
        let Entry::Made(made) = self.run.step(m) else {
            return Err(Differs::NothingLeft(end));
        };
        self.moves.push(m)?;
        self.note(&made)?;
        Ok(made)
    }

    /// An end that begins a call is at the call's first position. A poll's task begins it there.
    fn take_position(&mut self, end: End) {
        match end {
            End::Sender => self.sender_at = self.sender_position(),
            End::Receiver => {
                if self.begins_poll() {
                    self.tasks.begin_poll();
                }
                self.receiver_at = self.receiver_position();
            }
        }
    }

    /// Whether the receiver's next step is the first of a poll.
    fn begins_poll(&self) -> bool {
        let call = self.run.receiver_call();
        self.receiver_at.is_none() && matches!(call, Some(ReceiverStart::Poll))
    }

    /// Notes what a step did, and where it leads.
    fn note(&mut self, made: &Made) -> Result<(), AllocError> {
        self.order.note(made)?;
        self.tasks.note(made)?;
        self.kept.note(made);
        self.word = made.after;
        self.count(made.step);
        match made.reply {
            Some(_) => self.end_call(made.side),
            None => self.go_on(made.side, made.seen),
        }
        Ok(())
    }

    /// Counts a park or an operation on the word.
    fn count(&mut self, step: Step) {
        match step {
            Step::Park => self.parks = self.parks.saturating_add(1),
            Step::Word(_) => self.operations = self.operations.saturating_add(1),
            _ => {}
        }
    }

    /// The call under way has replied.
    fn end_call(&mut self, end: End) {
        match end {
            End::Sender => self.sender_at = None,
            End::Receiver => self.receiver_at = None,
        }
    }

    /// The call under way goes on, by what its step saw.
    fn go_on(&mut self, end: End, seen: Seen) {
        match end {
            End::Sender => self.sender_at = sender_after(self.sender_at, seen),
            End::Receiver => self.receiver_at = receiver_after(self.receiver_at, seen),
        }
    }
}

/// The move that makes the next step of an end.
fn move_of(end: End, given: Given) -> Move {
    match end {
        End::Sender => Move::Sender,
        End::Receiver => Move::Receiver {
            over: matches!(given, Given::Over),
            refuse: matches!(given, Given::Refusal),
        },
    }
}

/// The position of a sender after a step that saw this.
fn sender_after(at: Option<SenderPos>, seen: Seen) -> Option<SenderPos> {
    match at {
        Some(at) if at.accepts(seen) => Some(at.next(seen).0),
        _ => None,
    }
}

/// The position of a receiver after a step that saw this.
fn receiver_after(at: Option<ReceiverPos>, seen: Seen) -> Option<ReceiverPos> {
    match at {
        Some(at) if at.accepts(seen) => Some(at.next(seen).0),
        _ => None,
    }
}
