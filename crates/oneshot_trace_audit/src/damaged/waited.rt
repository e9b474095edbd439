//! The trace of a future's drop that waits until its sender has finished, entry by entry. No run has it.

use crate::auditor::DrawnTrace;
use crate::scripts::MESSAGE as SENT;
use oneshot_machine::machine::{End, Reply, Seen, Step};
use oneshot_machine::states::{DISCONNECTED, EMPTY, MESSAGE, Op, RECEIVING, UNPARKING};
use oneshot_replay::{Entry, Made, Place, WakerName, WakerPlace};
use std::alloc::{AllocError, Global};

/// The lines of the trace.
pub(crate) const LINES: &str = "1 R plain 3>3 = future
2 R load 3>3
3 R copy 3>3 w1@3:New>Hand
4 R write-waker 3>3 w1@3:Hand>Cell
5 R exchange 3>0 = Pending
6 S write-message 0>0 m:NotSent>InCell
7 S add 0>1
8 R load 1>1
9 R load 1>1
10 S take-waker 1>1 w1@3:Cell>SenderHand
11 S swap 1>4
12 R load 4>4
13 R swap 4>2
14 R drop-message 2>2 m:InCell>Dropped
15 R free 2>- = dropped
16 S wake ->- w1@3:SenderHand>Used = Ok
";

/// The copy of the task's waker.
const COPY: WakerName = WakerName::Copy {
    number: 1,
    entry: 3,
};

/// A step that finds one word and leaves another.
fn made(side: End, step: Step, before: u8, after: u8) -> Made {
    let seen = match step {
        Step::Word(_) => Seen::Word(before),
        Step::Copy => Seen::Refused(false),
        _ => Seen::Done,
    };
    Made {
        side,
        step,
        seen,
        before: Some(before),
        after: Some(after),
        message: None,
        token_set: false,
        waker: None,
        own: None,
        reply: None,
    }
}

/// A step that leaves the word as it finds it.
fn at(side: End, step: Step, word: u8) -> Made {
    made(side, step, word, word)
}

fn moving(from: Place, to: Place, made: Made) -> Made {
    Made {
        message: Some((from, to)),
        ..made
    }
}

fn carrying(from: WakerPlace, to: WakerPlace, made: Made) -> Made {
    Made {
        waker: Some((COPY, from, to)),
        ..made
    }
}

fn replying(reply: Reply, made: Made) -> Made {
    Made {
        reply: Some(reply),
        ..made
    }
}

/// The future is made and polled: its task's waker is stored.
fn polled() -> [Made; 5] {
    let r = End::Receiver;
    [
        replying(Reply::Future, at(r, Step::Plain, EMPTY)),
        at(r, Step::Word(Op::Load), EMPTY),
        carrying(WakerPlace::New, WakerPlace::Hand, at(r, Step::Copy, EMPTY)),
        carrying(
            WakerPlace::Hand,
            WakerPlace::Cell,
            at(r, Step::WriteWaker, EMPTY),
        ),
        replying(
            Reply::Pending,
            made(
                r,
                Step::Word(Op::Exchange(EMPTY, RECEIVING)),
                EMPTY,
                RECEIVING,
            ),
        ),
    ]
}

/// The drop loads the word twice while the sender is about to finish, and a third time once it has.
fn waited() -> [Made; 7] {
    let (r, s) = (End::Receiver, End::Sender);
    [
        moving(
            Place::NotSent,
            Place::InCell,
            at(s, Step::WriteMessage, RECEIVING),
        ),
        made(s, Step::Word(Op::Add), RECEIVING, UNPARKING),
        at(r, Step::Word(Op::Load), UNPARKING),
        at(r, Step::Word(Op::Load), UNPARKING),
        carrying(
            WakerPlace::Cell,
            WakerPlace::SenderHand,
            at(s, Step::TakeWaker, UNPARKING),
        ),
        made(s, Step::Word(Op::Swap(MESSAGE)), UNPARKING, MESSAGE),
        at(r, Step::Word(Op::Load), MESSAGE),
    ]
}

/// The drop takes the message out and frees the block, and the sender wakes the task.
fn ended() -> [Made; 4] {
    let (r, s) = (End::Receiver, End::Sender);
    let free = at(r, Step::Free, DISCONNECTED);
    let wake = at(s, Step::Wake, DISCONNECTED);
    [
        made(r, Step::Word(Op::Swap(DISCONNECTED)), MESSAGE, DISCONNECTED),
        moving(
            Place::InCell,
            Place::Dropped,
            at(r, Step::DropMessage, DISCONNECTED),
        ),
        replying(
            Reply::Done,
            Made {
                after: None,
                ..free
            },
        ),
        replying(
            Reply::Sent,
            carrying(
                WakerPlace::SenderHand,
                WakerPlace::Used,
                Made {
                    before: None,
                    after: None,
                    ..wake
                },
            ),
        ),
    ]
}

/// The trace, of `S send 7` beside `R future poll 1 drop`.
pub(crate) fn trace(alloc: Global) -> Result<DrawnTrace, AllocError> {
    let mut entries = Vec::new(alloc);
    push_all(&mut entries, &polled())?;
    push_all(&mut entries, &waited())?;
    push_all(&mut entries, &ended())?;
    Ok(DrawnTrace {
        entries,
        block_freed: true,
        rest: Some((Place::Dropped, SENT)),
    })
}

fn push_all(entries: &mut Vec<Entry>, steps: &[Made]) -> Result<(), AllocError> {
    for made in steps {
        entries.push(Entry::Made(*made))?;
    }
    Ok(())
}
