//! What is wrong with a trace.

use oneshot_machine::machine::{End, Reply};
use oneshot_replay::{Place, WakerPlace};

/// The number of the entry where a fault shows, and the fault.
pub(crate) type Finding = (usize, Fault);

/// What is wrong with a trace.
#[derive(Clone, Copy, Debug, PartialEq)]
pub(crate) enum Fault {
    /// An idle end has a call under way or left.
    IdleTooEarly(End),
    /// A step belongs to no call.
    NoCallLeft(End),
    /// An end uses the block, but does not hold it.
    NotHolder(End),
    /// An end frees the block while the other end holds it.
    FreedTooEarly(End),
    /// A step that must move the message or a waker moves nothing.
    MovesNothing,
    /// A message moves, but the script has none.
    NoMessage,
    /// The message leaves a place where it is not.
    MessageElsewhere { from: Place, place: Place },
    /// No message moves this way.
    MessageMove { from: Place, to: Place },
    /// This call may not put the message there.
    MessagePut { to: Place },
    /// The message is not where the reply implies.
    ReplyWithoutMessage { wanted: Place },
    /// A waker leaves a place where it is not.
    WakerElsewhere { from: WakerPlace, place: WakerPlace },
    /// No waker of this kind moves this way.
    WakerMove { from: WakerPlace, to: WakerPlace },
    /// Only the other end may move the waker.
    WakerOfOther(End),
    /// A copy's name has another task or entry.
    MisnamedWaker,
    /// A waker is put into a full cell.
    WakerCellFull,
    /// A call that is a step of the object replies before it acts.
    DidNotAct,
    /// The reply is not the object's.
    WrongReply { reply: Reply, wanted: Option<Reply> },
    /// The entry is wrong about the token: whether it sets it, or whether its park finds it.
    ToldToken,
    /// The sender has replied, and the receiver's next step is a park without its token.
    UnwokenPark,
    /// The sender has replied, and nothing has woken the task of the last poll, which is pending.
    UnwokenTask(u64),
    /// All have ended, and the message is neither taken nor dropped.
    MessageLeft(Place),
    /// All have ended, and a waker is in a place where it may not end.
    WakerLeft(WakerPlace),
    /// All have ended, and the block is not freed.
    NeverFreed,
    /// The trace is wrong about whether the block is freed.
    ToldFreed { block_freed: bool },
    /// The trace is wrong about the message or its place.
    ToldRest { rest: Option<(Place, u64)> },
}

/// Reads a step that moves nothing, which is a fault if it has to.
pub(crate) fn no_move(has_to: bool) -> Result<(), Fault> {
    if has_to {
        Err(Fault::MovesNothing)
    } else {
        Ok(())
    }
}
