//! The entries of a trace, one for each move of a run.

use oneshot_machine::machine::{End, Reply, Seen, Step};

/// Where the message is.
#[derive(Clone, Copy, Debug, Eq, PartialEq)]
pub enum Place {
    /// Still in its script.
    NotSent,
    /// In the channel's cell.
    InCell,
    /// In the error of a refused `send`.
    InError,
    /// Returned by a receive.
    Delivered,
    /// Returned by the error's `into_inner`.
    FromError,
    /// Dropped by an end.
    Dropped,
}

/// A waker that an entry moves.
#[derive(Clone, Copy, Debug, Eq, PartialEq)]
pub enum WakerName {
    /// The waking half of the parker on which a blocking receive waits.
    Parker,
    /// A copy (clone) of a task's waker.
    Copy {
        /// The number of the task's waker.
        number: u64,
        /// The entry in which the copy was made, counted from 1.
        entry: usize,
    },
}

/// Where a waker is.
#[derive(Clone, Copy, Debug, Eq, PartialEq)]
pub enum WakerPlace {
    /// With its task, before the copy is made.
    New,
    /// In the receiver's hand.
    Hand,
    /// In the channel's cell.
    Cell,
    /// With the sender, which took it from the cell.
    SenderHand,
    /// Used for a wake.
    Used,
    /// Dropped without a wake.
    Dropped,
}

/// What one move did.
#[derive(Clone, Copy, Debug, Eq, PartialEq)]
pub enum Entry {
    /// This end had no call under way and none left. Nothing changed.
    Idle(End),
    /// One step of one end.
    Made(Made),
}

/// One step of one end.
#[derive(Clone, Copy, Debug, Eq, PartialEq)]
pub struct Made {
    /// The end that moved.
    pub side: End,
    /// What it did.
    pub step: Step,
    /// What the step saw.
    pub seen: Seen,
    /// The word before the step; `None` once the block is freed.
    pub before: Option<u8>,
    /// The word after the step; `None` once the block is freed.
    pub after: Option<u8>,
    /// The message's move, if it moved: the place that it left, and the place that it went to.
    pub message: Option<(Place, Place)>,
    /// Whether the step set the token on which the receiver parks.
    pub token_set: bool,
    /// A waker's move, if one moved: the waker, the place that it left, and the place that it went to.
    pub waker: Option<(WakerName, WakerPlace, WakerPlace)>,
    /// The number of the poll's own waker, if the poll woke it.
    pub own: Option<u64>,
    /// The reply, if the step ended its call.
    pub reply: Option<Reply>,
}
