//! The calls of both ends, and the word of each.

use crate::limits::{far, limit, short};
use std::time::Duration;

/// A call that a word names.
pub trait Word: Sized {
    /// Returns the call of this word; `None` if there is no such word.
    fn of_word(word: &str) -> Option<Self>;
}

/// A call of a sender, or of the error of its refused message. Each is named as its word.
#[derive(Clone, Copy, Debug, PartialEq, Eq)]
pub enum SenderCall {
    Closed,
    Send,
    /// `as_inner`.
    Inner,
    /// `into_inner`.
    Into,
    /// The drop of the sender, or of the error.
    Drop,
    /// `into_raw`, and `from_raw`.
    Raw,
    /// The drop of the sender's `into_raw`.
    DropRaw,
}

/// A call of a receiver, or of the future that it became. Each is named as its word.
#[derive(Clone, Copy, Debug)]
pub enum ReceiverCall {
    /// A call after which the end is still there.
    Ask(Ask),
    Recv,
    /// The drop of the receiver, or of the future.
    Drop,
    /// `into_raw`, and `from_raw`.
    Raw,
    /// The drop of the receiver's `into_raw`.
    DropRaw,
    /// `into_future`.
    Future,
    /// A poll by this task.
    Poll(Task),
    /// Polls by the first task, until one is `Ready`.
    Polls,
    /// `block_on` of the future.
    Await,
}

/// A call after which the end is still there.
#[derive(Clone, Copy, Debug)]
pub enum Ask {
    Closed,
    /// `has_message`.
    Full,
    Try,
    /// `try_recv` until it does not return `Empty`.
    Tries,
    Ref,
    /// `recv_deadline` with an instant this long after now.
    Deadline(Duration),
    /// `recv_deadline` with an instant an hour ago; if the clock has none, 50 milliseconds ago; if it has none, now.
    PastDeadline,
    /// `recv_timeout`.
    Timeout(Duration),
}

/// A task that polls.
#[derive(Clone, Copy, Debug)]
pub enum Task {
    One,
    Two,
}

/// A call of either end.
#[derive(Clone, Copy)]
pub enum Call {
    /// A call of the sender.
    Sender(SenderCall),
    /// A call of the receiver.
    Receiver(ReceiverCall),
}

impl Word for SenderCall {
    fn of_word(word: &str) -> Option<SenderCall> {
        let call = match word {
            "closed" => SenderCall::Closed,
            "send" => SenderCall::Send,
            "inner" => SenderCall::Inner,
            "into" => SenderCall::Into,
            "drop" => SenderCall::Drop,
            "raw" => SenderCall::Raw,
            "dropraw" => SenderCall::DropRaw,
            _ => return None,
        };
        Some(call)
    }
}

impl Word for ReceiverCall {
    fn of_word(word: &str) -> Option<ReceiverCall> {
        let call = match word {
            "recv" => ReceiverCall::Recv,
            "drop" => ReceiverCall::Drop,
            "raw" => ReceiverCall::Raw,
            "dropraw" => ReceiverCall::DropRaw,
            "future" => ReceiverCall::Future,
            "poll1" => ReceiverCall::Poll(Task::One),
            "poll2" => ReceiverCall::Poll(Task::Two),
            "polls" => ReceiverCall::Polls,
            "await" => ReceiverCall::Await,
            _ => ReceiverCall::Ask(ask_of(word)?),
        };
        Some(call)
    }
}

// `deadline` and `timeout` alone last 50 milliseconds. A prefix names another time.
fn ask_of(word: &str) -> Option<Ask> {
    let call = match word {
        "closed" => Ask::Closed,
        "full" => Ask::Full,
        "try" => Ask::Try,
        "tries" => Ask::Tries,
        "ref" => Ask::Ref,
        "deadline" => Ask::Deadline(short()),
        "zerodeadline" => Ask::Deadline(Duration::ZERO),
        "longdeadline" => Ask::Deadline(limit()),
        "fardeadline" => Ask::Deadline(far()),
        "pastdeadline" => Ask::PastDeadline,
        "timeout" => Ask::Timeout(short()),
        "zerotimeout" => Ask::Timeout(Duration::ZERO),
        "longtimeout" => Ask::Timeout(limit()),
        "fartimeout" => Ask::Timeout(far()),
        // Its deadline is later than every instant.
        "forever" => Ask::Timeout(Duration::MAX),
        _ => return None,
    };
    Some(call)
}

impl Call {
    /// Returns the call of this text, as of `S send`; `None` if there is no such call.
    pub fn of_text(text: &str) -> Option<Call> {
        match text.split_once(' ')? {
            ("S", word) => Some(Call::Sender(SenderCall::of_word(word)?)),
            ("R", word) => Some(Call::Receiver(ReceiverCall::of_word(word)?)),
            _ => None,
        }
    }
}
