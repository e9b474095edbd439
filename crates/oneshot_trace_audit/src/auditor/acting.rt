//! The acting entry of a call: its linearization point.

use crate::auditor::calls::Call;
use crate::auditor::mark::is_word;
use oneshot_machine::machine::{End, Reply, Step};
use oneshot_machine::states::{DISCONNECTED, EMPTY, MESSAGE, Op};
use oneshot_replay::{Entry, Made, ReceiverCall};

/// Whether a call that has not acted yet acts at its step `made`. `later` has the entries after it.
pub(crate) fn acts(call: Call, made: &Made, later: &[Entry]) -> bool {
    match call {
        Call::SenderIsClosed
        | Call::Receiver(ReceiverCall::HasMessage)
        | Call::Receiver(ReceiverCall::IsClosed) => made.step == Step::Word(Op::Load),
        Call::Send | Call::DropSender => finishes(made),
        Call::Receiver(_) | Call::Recv | Call::Poll(_) => receives(made, later),
        Call::DropReceiver => made.step == Step::Word(Op::Swap(DISCONNECTED)),
        Call::AsInner | Call::IntoInner | Call::DropError | Call::IntoFuture => false,
    }
}

/// A `send` or a sender's drop acts at its add or xor if that finds no waiting receiver, and otherwise at
/// its swap.
fn finishes(made: &Made) -> bool {
    match made.step {
        Step::Word(Op::Add | Op::Xor) => has_found(made, EMPTY) || has_found(made, DISCONNECTED),
        Step::Word(Op::Swap(_)) => true,
        _ => false,
    }
}

/// A receive that replies "nothing yet" acts at its last operation on the word. Any other, also one without
/// a reply yet, acts at its first operation that finds `MESSAGE` or `DISCONNECTED`.
fn receives(made: &Made, later: &[Entry]) -> bool {
    if !is_word(made.step) {
        return false;
    }
    match answer_of(made, later) {
        Some(Reply::Empty | Reply::Timeout | Reply::Pending) => is_last_word(made, later),
        _ => has_found(made, MESSAGE) || has_found(made, DISCONNECTED),
    }
}

fn has_found(made: &Made, word: u8) -> bool {
    made.before == Some(word)
}

/// The reply of this step's call, here or later.
fn answer_of(made: &Made, later: &[Entry]) -> Option<Reply> {
    if made.reply.is_some() {
        return made.reply;
    }
    for entry in later {
        if let Some(next) = step_of(made.side, entry) {
            if next.reply.is_some() {
                return next.reply;
            }
        }
    }
    None
}

/// Whether this step's call performs no later operation on the word.
fn is_last_word(made: &Made, later: &[Entry]) -> bool {
    let mut last = *made;
    for entry in later {
        if last.reply.is_some() {
            return true;
        }
        if let Some(next) = step_of(made.side, entry) {
            if is_word(next.step) {
                return false;
            }
            last = *next;
        }
    }
    true
}

fn step_of(end: End, entry: &Entry) -> Option<&Made> {
    match entry {
        Entry::Made(made) if made.side == end => Some(made),
        _ => None,
    }
}
