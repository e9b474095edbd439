//! The words of a run: each reports what an end did.

use crate::fault::fault_of;
use oneshot_machine::machine::End;
use oneshot_machine::states::Op;

/// The kinds of instructions that make an operation on the word.
#[derive(Clone, Copy)]
pub(crate) enum Kind {
    Load,
    Store,
    Swap,
    Exchange,
    Add,
    Xor,
}

/// An operation on the word: what it found there, and what it left.
#[derive(Clone, Copy)]
pub(crate) struct Operation {
    pub(crate) end: End,
    pub(crate) kind: Kind,
    pub(crate) found: u8,
    pub(crate) left: u8,
}

/// What one word of a run reports.
pub(crate) enum Event {
    /// An operation on the word.
    Operation(Operation),
    /// The receiver read its clock, which is past the deadline, or not.
    Clock { over: bool },
    /// The receiver's copy of its task's waker is refused.
    Refusal,
    /// A call replied, with this code.
    Reply { end: End, code: u64 },
    /// An end has made each call of its script.
    Done(End),
    /// An end freed the message.
    MessageFreed(End),
    /// An end freed the block.
    BlockFreed,
    /// An end sleeps, and nothing will wake it.
    Stuck(End),
    /// Whether a task was woken, by a code.
    Task(u64),
    /// The scheduler saw a fault, which this text tells.
    Fault(&'static str),
    /// What the model does not have: a sleep, its end, a wake, the free of another block.
    Silent,
}

/// Reads a word; `None` if no run has it.
pub(crate) fn event_of(word: &str) -> Option<Event> {
    match word.as_bytes() {
        [b'!', ..] => Some(Event::Fault(fault_of(word)?)),
        [b'T', b'=', ..] => Some(Event::Task(code_of(word)?)),
        [end, b'=', ..] => Some(Event::Reply {
            end: end_of(*end)?,
            code: code_of(word)?,
        }),
        [end, deed @ ..] => deed_of(end_of(*end)?, deed),
        [] => None,
    }
}

/// What an end did, by the letters behind its own.
fn deed_of(end: End, deed: &[u8]) -> Option<Event> {
    match deed {
        [letter] => short_deed_of(end, *letter),
        [b'f', block] => freed_of(end, *block),
        [b'c', reading] => clock_of(*reading),
        [kind, found, left] => Some(Event::Operation(Operation {
            end,
            kind: kind_of(*kind)?,
            found: digit_of(*found)?,
            left: digit_of(*left)?,
        })),
        _ => None,
    }
}

/// What an end did that has one letter.
fn short_deed_of(end: End, letter: u8) -> Option<Event> {
    match letter {
        b'.' => Some(Event::Done(end)),
        b'z' => Some(Event::Stuck(end)),
        b'n' => Some(Event::Refusal),
        b'b' | b'k' | b's' | b't' | b'w' => Some(Event::Silent),
        _ => None,
    }
}

/// What an end freed.
fn freed_of(end: End, block: u8) -> Option<Event> {
    match block {
        b'm' => Some(Event::MessageFreed(end)),
        b'W' => Some(Event::BlockFreed),
        b'C' | b'D' | b'L' | b'P' | b'h' | b'o' => Some(Event::Silent),
        _ => None,
    }
}

/// A reading of the clock.
fn clock_of(reading: u8) -> Option<Event> {
    match reading {
        b'-' | b'0' => Some(Event::Clock { over: false }),
        b'1' => Some(Event::Clock { over: true }),
        _ => None,
    }
}

fn end_of(letter: u8) -> Option<End> {
    match letter {
        b'S' => Some(End::Sender),
        b'R' => Some(End::Receiver),
        _ => None,
    }
}

fn kind_of(letter: u8) -> Option<Kind> {
    match letter {
        b'l' => Some(Kind::Load),
        b's' => Some(Kind::Store),
        b'x' => Some(Kind::Swap),
        b'e' => Some(Kind::Exchange),
        b'a' => Some(Kind::Add),
        b'o' => Some(Kind::Xor),
        _ => None,
    }
}

fn digit_of(letter: u8) -> Option<u8> {
    match letter {
        b'0'..=b'9' => Some(letter - b'0'),
        _ => None,
    }
}

/// The number behind the equals sign.
fn code_of(word: &str) -> Option<u64> {
    let (_, digits) = word.split_once('=')?;
    digits.parse().ok()
}

impl Event {
    /// The same of a thread that has the other end of this channel.
    pub(crate) fn by_other_thread(self) -> Event {
        match self {
            Event::Operation(told) => Event::Operation(Operation {
                end: other(told.end),
                ..told
            }),
            Event::Reply { end, code } => Event::Reply {
                end: other(end),
                code,
            },
            Event::Done(end) => Event::Done(other(end)),
            Event::MessageFreed(end) => Event::MessageFreed(other(end)),
            Event::Stuck(end) => Event::Stuck(other(end)),
            Event::Clock { .. }
            | Event::Refusal
            | Event::BlockFreed
            | Event::Task(_)
            | Event::Fault(_)
            | Event::Silent => self,
        }
    }
}

fn other(end: End) -> End {
    match end {
        End::Sender => End::Receiver,
        End::Receiver => End::Sender,
    }
}

impl Operation {
    /// Whether an instruction of this kind makes `op`. An xor is an exchange that succeeds. A store is a swap: a plain
    /// one would not be ordered before the loads that follow it.
    pub(crate) fn makes(self, op: Op) -> bool {
        match op {
            Op::Load => matches!(self.kind, Kind::Load),
            Op::Store(_) | Op::Swap(_) => matches!(self.kind, Kind::Swap),
            Op::Exchange(_, _) => matches!(self.kind, Kind::Exchange),
            Op::Add => matches!(self.kind, Kind::Add),
            Op::Xor => self.is_xor(),
        }
    }

    fn is_xor(self) -> bool {
        match self.kind {
            Kind::Xor => true,
            Kind::Exchange => self.left == self.found ^ 1,
            Kind::Load | Kind::Store | Kind::Swap | Kind::Add => false,
        }
    }

    /// Whether it belongs to the loop of an xor: its first load, or an exchange that failed.
    pub(crate) fn tries_to_xor(self) -> bool {
        match self.kind {
            Kind::Load => true,
            Kind::Exchange => self.left == self.found,
            Kind::Store | Kind::Swap | Kind::Add | Kind::Xor => false,
        }
    }
}
