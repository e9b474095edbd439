//! Writes the steps of a ground in memory as a line of text: the name of each step as `oneshot-run` prints it, its
//! operands, and what it saw.

use oneshot_machine::machine::{Seen, Step};
use oneshot_machine::states::Op;
use oneshot_memory::Event;
use std::alloc::{AllocError, Global};

/// The steps, separated by commas, each with what it saw.
pub(crate) fn steps_of<T, W>(alloc: Global, events: &[Event<T, W>]) -> Result<String, AllocError> {
    let mut text = String::new(alloc);
    for event in events {
        if !text.is_empty() {
            text.push_str(", ")?;
        }
        push_step(&mut text, event.step)?;
        push_seen(&mut text, event.seen)?;
    }
    Ok(text)
}

fn push_step(text: &mut String, step: Step) -> Result<(), AllocError> {
    match step {
        Step::Word(op) => push_operation(text, op),
        Step::WriteMessage => text.push_str("write-message"),
        Step::TakeMessage => text.push_str("take-message"),
        Step::DropMessage => text.push_str("drop-message"),
        Step::WriteWaker => text.push_str("write-waker"),
        Step::TakeWaker => text.push_str("take-waker"),
        Step::Withdraw => text.push_str("withdraw"),
        Step::Park => text.push_str("park"),
        Step::Clock => text.push_str("clock"),
        Step::Copy => text.push_str("copy"),
        Step::Wake => text.push_str("wake"),
        Step::WakeOwn => text.push_str("wake own"),
        Step::Free => text.push_str("free"),
        Step::Plain => text.push_str("plain"),
    }
}

fn push_operation(text: &mut String, op: Op) -> Result<(), AllocError> {
    match op {
        Op::Load => text.push_str("load"),
        Op::Store(new) => write!(text, "store {new}"),
        Op::Swap(new) => write!(text, "swap {new}"),
        Op::Exchange(expected, new) => write!(text, "exchange {expected} {new}"),
        Op::Add => text.push_str("add"),
        Op::Xor => text.push_str("xor"),
    }
}

fn push_seen(text: &mut String, seen: Seen) -> Result<(), AllocError> {
    match seen {
        Seen::Done | Seen::Refused(false) => Ok(()),
        Seen::Word(word) => write!(text, ":{word}"),
        Seen::Over(true) => text.push_str(" over"),
        Seen::Over(false) => text.push_str(" left"),
        Seen::Refused(true) => text.push_str(" refused"),
        Seen::Token(true) => text.push_str(" token-"),
        Seen::Token(false) => text.push_str(" spurious"),
    }
}
