//! Why a run is none of the model's.

use oneshot_machine::machine::{End, Reply, Step};
use std::alloc::{AllocError, AllocFailed};
use std::fmt;

/// Where a run and the model differ first.
#[derive(Drop)]
pub(crate) enum Differs {
    /// No run has this word.
    UnknownWord,
    /// The scheduler saw a fault, which this text tells.
    Fault(&'static str),
    /// In the model this end has no call left.
    NothingLeft(End),
    /// In the model this end makes another step first.
    OtherStep(Step),
    /// The operation finds or leaves another word in the model.
    OtherWord(Option<u8>, Option<u8>),
    /// In the model the call has ended.
    HasReplied(Reply),
    /// The model's call replies otherwise.
    OtherReply(Reply),
    /// The message is another.
    OtherMessage(u64),
    /// In the model the script has a call left.
    CallLeft(End),
    /// The block is freed in the one and kept in the other.
    OtherBlock(bool),
    /// A task is not woken that the model wakes.
    OtherTask(u64),
    /// A copy of a waker is refused where the model copies none.
    NoCopy,
    /// Nothing wakes the end, although the sender has acted.
    LostWakeup,
    /// The run is longer than any that is read.
    TooLong,
    /// Out of memory.
    OutOfMemory(AllocError),
}

impl fmt::Display for Differs {
    fn fmt<W: fmt::Write>(&self, f: &mut fmt::Formatter<W>) -> fmt::Result {
        match self {
            Differs::UnknownWord => f.write_str("the word is unknown"),
            Differs::Fault(fault) => f.write_str(fault),
            Differs::NothingLeft(end) => write_calls(f, *end, "no call left"),
            Differs::OtherStep(step) => write_value(f, "the model's step is", step),
            Differs::OtherWord(before, after) => {
                write_value(f, "the model's word goes from", before)?;
                write_value(f, " to", after)
            }
            Differs::HasReplied(reply) => write_value(f, "the model's call has replied", reply),
            Differs::OtherReply(reply) => write_value(f, "the model replies", reply),
            Differs::OtherMessage(message) => write_value(f, "the model's message is", message),
            Differs::CallLeft(end) => write_calls(f, *end, "a call left"),
            Differs::OtherBlock(freed) => write_value(f, "the model's block is freed:", freed),
            Differs::OtherTask(number) => write_value(f, "the model wakes task", number),
            Differs::NoCopy => f.write_str("the model copies no waker"),
            Differs::LostWakeup => f.write_str("a wakeup is lost"),
            Differs::TooLong => f.write_str("too long"),
            Differs::OutOfMemory(_) => f.write_str("out of memory"),
        }
    }
}

/// Writes a value of the model behind what is said of it.
fn write_value<W: fmt::Write, V: fmt::Debug>(
    f: &mut fmt::Formatter<W>,
    said: &str,
    value: &V,
) -> fmt::Result {
    write!(f, "{said} {value:?}")
}

/// Writes which calls an end has in the model.
fn write_calls<W: fmt::Write>(f: &mut fmt::Formatter<W>, end: End, calls: &str) -> fmt::Result {
    write!(f, "the model's {end:?} has {calls}")
}

impl<T: Drop> From<AllocFailed<T>> for Differs {
    fn from(_: AllocFailed<T>) -> Differs {
        Differs::OutOfMemory(AllocError)
    }
}

impl From<AllocError> for Differs {
    fn from(refused: AllocError) -> Differs {
        Differs::OutOfMemory(refused)
    }
}
