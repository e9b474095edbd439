//! The changes by which tests damage a trace.

ghost use Rattle.std.specs.Prelude.{◌<◌, vec_len};

use crate::auditor::DrawnTrace;
use oneshot_asserts::{Asserts, assert_that, tell};
use oneshot_machine::machine::{End, Reply, Seen, Step};
use oneshot_replay::{Entry, Made, Place, WakerName, WakerPlace};

/// A change to a trace. Entries are counted from 1.
#[derive(Clone, Copy)]
pub(crate) enum Edit {
    /// Removes an entry.
    Remove(usize),
    /// Repeats an entry.
    Double(usize),
    /// Moves the first of these entries before the second, an earlier one.
    MoveBefore(usize, usize),
    /// Replaces an entry with an idle one of this end.
    Idle(usize, End),
    /// Changes an entry's end.
    Side(usize, End),
    /// Changes an entry's step.
    Step(usize, Step),
    /// Changes what an entry sees.
    Seen(usize, Seen),
    /// Changes the word that an entry finds.
    Before(usize, u8),
    /// Changes where an entry moves the message.
    Message(usize, Option<(Place, Place)>),
    /// Changes which waker an entry moves, and where.
    Waker(usize, Option<(WakerName, WakerPlace, WakerPlace)>),
    /// Changes whether an entry sets the token.
    Token(usize, bool),
    /// Changes the number of the waker by which a poll wakes its own task.
    Own(usize, Option<u64>),
    /// Changes the reply in an entry.
    Reply(usize, Option<Reply>),
    /// Changes whether the block is freed.
    BlockFreed(bool),
    /// Changes the message and its last place.
    Rest(Option<(Place, u64)>),
}

/// Applies a change to a trace. Panics if the trace has no entry that it names.
pub(crate) fn apply(rt: &impl Asserts, trace: &mut DrawnTrace, change: Edit) {
    match change {
        Edit::Remove(number) => {
            // The entry is not put anywhere else.
            let _ = remove(rt, trace, number);
        }
        Edit::Double(number) => {
            let entry = entry_of(rt, trace, number);
            insert(rt, trace, number, entry);
        }
        Edit::MoveBefore(from, number) => {
            let entry = remove(rt, trace, from);
            insert(rt, trace, number, entry);
        }
        Edit::Idle(number, end) => replace(rt, trace, number, Entry::Idle(end)),
        Edit::BlockFreed(block_freed) => trace.block_freed = block_freed,
        Edit::Rest(rest) => trace.rest = rest,
        Edit::Side(number, _)
        | Edit::Step(number, _)
        | Edit::Seen(number, _)
        | Edit::Before(number, _)
        | Edit::Message(number, _)
        | Edit::Waker(number, _)
        | Edit::Token(number, _)
        | Edit::Own(number, _)
        | Edit::Reply(number, _) => {
            let made = step_of(rt, trace, number);
            replace(rt, trace, number, Entry::Made(changed(made, change)));
        }
    }
}

/// Returns the step with one field changed.
fn changed(made: Made, change: Edit) -> Made {
    match change {
        Edit::Side(_, side) => Made { side, ..made },
        Edit::Step(_, step) => Made { step, ..made },
        Edit::Seen(_, seen) => Made { seen, ..made },
        Edit::Before(_, word) => Made {
            before: Some(word),
            ..made
        },
        Edit::Message(_, message) => Made { message, ..made },
        Edit::Waker(_, waker) => Made { waker, ..made },
        Edit::Token(_, token_set) => Made { token_set, ..made },
        Edit::Own(_, own) => Made { own, ..made },
        Edit::Reply(_, reply) => Made { reply, ..made },
        _ => made,
    }
}

fn entry_of(rt: &impl Asserts, trace: &DrawnTrace, number: usize) -> Entry {
    let at = index_of(rt, trace, number);
    trace.entries[at]
}

fn step_of(rt: &impl Asserts, trace: &DrawnTrace, number: usize) -> Made {
    match entry_of(rt, trace, number) {
        Entry::Made(made) => made,
        Entry::Idle(end) => {
            tell(rt, &("entry", number, end, "is idle"));
            rt.abort()
        }
    }
}

fn remove(rt: &impl Asserts, trace: &mut DrawnTrace, number: usize) -> Entry {
    let at = index_of(rt, trace, number);
    trace.entries.remove(at)
}

fn insert(rt: &impl Asserts, trace: &mut DrawnTrace, number: usize, entry: Entry) {
    let at = index_of(rt, trace, number);
    trace.entries.insert(at, entry).expect(rt, "memory");
}

fn replace(rt: &impl Asserts, trace: &mut DrawnTrace, number: usize, entry: Entry) {
    let at = index_of(rt, trace, number);
    trace.entries[at] = entry;
}

/// Returns the index of an entry. Panics if there is none.
fn index_of(rt: &impl Asserts, trace: &DrawnTrace, number: usize) -> usize
    ensures { result < vec_len trace.now.entries }
{
    assert_that!(rt;
        0 < number && number <= trace.entries.len(),
        ("no entry", number)
    );
    number - 1
}
