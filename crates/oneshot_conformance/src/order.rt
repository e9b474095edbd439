//! The order of a run, by which runs are compared: what each operation found, each reading of a clock and each reply,
//! of the one end and then of the other. What a call repeats while it waits counts once.

use oneshot_machine::machine::{End, Seen, Step};
use oneshot_machine::states::Op;
use oneshot_replay::Made;
use std::alloc::{AllocError, Global};

/// Added to a reply's place among the replies.
const FIRST_REPLY: u64 = 1000;

/// What one end did, as numbers, and where those of its call under way begin.
#[derive(Drop)]
struct Steps {
    numbers: Vec<u64>,
    call: usize,
}

/// What both ends did.
#[derive(Drop)]
pub(crate) struct Order {
    sender: Steps,
    receiver: Steps,
}

impl Steps {
    fn new(alloc: Global) -> Steps {
        Steps {
            numbers: Vec::new(alloc),
            call: 0,
        }
    }

    fn note(&mut self, made: &Made) -> Result<(), AllocError> {
        if let Some(number) = number_of(made.step, made.seen) {
            self.add(number)?;
        }
        if let Some(reply) = made.reply {
            self.numbers.push(FIRST_REPLY.wrapping_add(reply as u64))?;
            self.call = self.numbers.len();
        }
        Ok(())
    }

    /// Adds a number, unless the call under way has it.
    fn add(&mut self, number: u64) -> Result<(), AllocError> {
        for other in self.numbers.iter().skip(self.call) {
            if *other == number {
                return Ok(());
            }
        }
        Ok(self.numbers.push(number)?)
    }

    /// Mixes each number into the state of a digest.
    fn mixed_into(&self, mut state: u64) -> u64 {
        for number in self.numbers.as_slice() {
            state = mixed(state, *number);
        }
        mixed(state, u64::MAX)
    }
}

impl Order {
    pub(crate) fn new(alloc: Global) -> Order {
        Order {
            sender: Steps::new(alloc),
            receiver: Steps::new(alloc),
        }
    }

    /// Adds an entry.
    pub(crate) fn note(&mut self, made: &Made) -> Result<(), AllocError> {
        match made.side {
            End::Sender => self.sender.note(made),
            End::Receiver => self.receiver.note(made),
        }
    }

    /// A digest of both ends' numbers, which distinguishes orders: it mixes each number in at once, with the constants
    /// of FNV-1a.
    pub(crate) fn digest(&self) -> u64 {
        let state = self.sender.mixed_into(0xcbf2_9ce4_8422_2325);
        self.receiver.mixed_into(state)
    }
}

fn mixed(state: u64, number: u64) -> u64 {
    (state ^ number).wrapping_mul(0x0100_0000_01b3)
}

/// The number of a step that others can observe, with what it sees.
fn number_of(step: Step, seen: Seen) -> Option<u64> {
    match step {
        Step::Word(op) => Some(kind_of(op).wrapping_add(found_by(seen))),
        Step::Clock => Some(60_u64.wrapping_add(found_by(seen))),
        Step::WriteMessage
        | Step::TakeMessage
        | Step::DropMessage
        | Step::WriteWaker
        | Step::TakeWaker
        | Step::Withdraw
        | Step::Park
        | Step::Copy
        | Step::Wake
        | Step::WakeOwn
        | Step::Free
        | Step::Plain => None,
    }
}

fn kind_of(op: Op) -> u64 {
    match op {
        Op::Load => 0,
        Op::Store(_) => 10,
        Op::Swap(_) => 20,
        Op::Exchange(_, _) => 30,
        Op::Add => 40,
        Op::Xor => 50,
    }
}

fn found_by(seen: Seen) -> u64 {
    match seen {
        Seen::Word(word) => u64::from(word),
        Seen::Over(over) => u64::from(over),
        Seen::Done | Seen::Refused(_) | Seen::Token(_) => 9,
    }
}
