//! What a call returns, and its text.

use crate::numbered::Numbered;
use futures::task::Poll;
use oneshot_channel::{RecvError, RecvTimeoutError, TryRecvError};
use std::fmt;
use std::fmt::{Debug, Display, Formatter, Write};

/// What a call returns.
#[derive(Clone, Copy, Drop)]
pub enum Reply<T> {
    /// The message, which the text shows in this form.
    Message(Form, T),
    /// The number of the message that stays in the error of a refused `send`.
    Inner(u64),
    /// No message.
    Bare(Bare),
}

/// How a text shows a message.
#[derive(Clone, Copy)]
pub enum Form {
    /// `7`, by `into_inner`.
    Back,
    /// `Ok(7)`, by a receive.
    Received,
    /// `Ready(Ok(7))`, by a poll.
    Ready,
}

/// A reply without a message. `text` shows each.
#[derive(Clone, Copy)]
pub enum Bare {
    Sent,
    /// The error of the `send` owns the message.
    Refused,
    Yes,
    No,
    Empty,
    Timeout,
    Disconnected,
    /// `RecvError`.
    Ended,
    Pending,
    /// `RecvError` of a poll.
    ReadyEnded,
    Future,
    /// The end, or the error, is dropped.
    Dropped,
    /// The end was raw, and is an end again.
    Raw,
    /// `block_on` failed: out of memory.
    NotAwaited,
    /// No call was made: the end is gone, or has no such call.
    Nothing,
}

impl Bare {
    /// The reply's text, which for a call of the program `oneshot-run` is the program's.
    pub fn text(self) -> &'static str {
        match self {
            Bare::Sent => "Ok",
            Bare::Refused => "Err",
            Bare::Yes => "true",
            Bare::No => "false",
            Bare::Empty => "Err(Empty)",
            Bare::Timeout => "Err(Timeout)",
            Bare::Disconnected => "Err(Disconnected)",
            Bare::Ended => "Err(RecvError)",
            Bare::Pending => "Pending",
            Bare::ReadyEnded => "Ready(Err(RecvError))",
            Bare::Future => "future",
            Bare::Dropped => "dropped",
            Bare::Raw => "raw",
            Bare::NotAwaited => "not awaited",
            Bare::Nothing => "nothing",
        }
    }
}

impl Display for Reply<u64> {
    fn fmt<W: Write>(&self, f: &mut Formatter<W>) -> fmt::Result {
        match self {
            Reply::Message(Form::Back, number) | Reply::Inner(number) => write!(f, "{number}"),
            Reply::Message(Form::Received, number) => write!(f, "Ok({number})"),
            Reply::Message(Form::Ready, number) => write!(f, "Ready(Ok({number}))"),
            Reply::Bare(reply) => f.write_str(reply.text()),
        }
    }
}

impl Debug for Reply<u64> {
    fn fmt<W: Write>(&self, f: &mut Formatter<W>) -> fmt::Result {
        write!(f, "{self}")
    }
}

impl<T> Reply<T> {
    pub(crate) fn look(is_so: bool) -> Reply<T> {
        Reply::Bare(if is_so { Bare::Yes } else { Bare::No })
    }

    /// The reply of `try_recv`.
    pub fn tried(tried: Result<T, TryRecvError>) -> Reply<T> {
        match tried {
            Ok(message) => Reply::Message(Form::Received, message),
            Err(TryRecvError::Empty) => Reply::Bare(Bare::Empty),
            Err(TryRecvError::Disconnected) => Reply::Bare(Bare::Disconnected),
        }
    }

    /// The reply of a receive with a deadline.
    pub fn timed(received: Result<T, RecvTimeoutError>) -> Reply<T> {
        match received {
            Ok(message) => Reply::Message(Form::Received, message),
            Err(RecvTimeoutError::Timeout) => Reply::Bare(Bare::Timeout),
            Err(RecvTimeoutError::Disconnected) => Reply::Bare(Bare::Disconnected),
        }
    }

    /// The reply of a receive that waits without end.
    pub fn received(received: Result<T, RecvError>) -> Reply<T> {
        match received {
            Ok(message) => Reply::Message(Form::Received, message),
            Err(RecvError) => Reply::Bare(Bare::Ended),
        }
    }

    /// The reply of a poll.
    pub fn polled(polled: Poll<Result<T, RecvError>>) -> Reply<T> {
        match polled {
            Poll::Ready(Ok(message)) => Reply::Message(Form::Ready, message),
            Poll::Ready(Err(RecvError)) => Reply::Bare(Bare::ReadyEnded),
            Poll::Pending => Reply::Bare(Bare::Pending),
        }
    }
}

impl<T: Drop> Reply<T> {
    /// This reply and then another: the later one, unless no call was made.
    pub(crate) fn then(self, later: Reply<T>) -> Reply<T> {
        match later {
            Reply::Bare(Bare::Nothing) => self,
            later => later,
        }
    }

    /// Returns the message, if the reply has one.
    pub fn message(self) -> Option<T> {
        match self {
            Reply::Message(_, message) => Some(message),
            Reply::Inner(_) | Reply::Bare(_) => None,
        }
    }
}

impl<T: Numbered + Drop> Reply<T> {
    /// Drops the message, and returns the reply with its number.
    pub fn numbered(self) -> Reply<u64> {
        match self {
            Reply::Message(form, message) => Reply::Message(form, message.number()),
            Reply::Inner(number) => Reply::Inner(number),
            Reply::Bare(reply) => Reply::Bare(reply),
        }
    }
}

/// What is left of a text. Each write removes its own text from the front, and fails if the front differs.
#[derive(Drop)]
struct Rest<'a>(&'a str);

impl Write for Rest<'_> {
    fn write_str(&mut self, text: &str) -> fmt::Result {
        self.0 = self.0.strip_prefix(text).ok_or(fmt::Error)?;
        Ok(())
    }
}

/// Whether `value` displays as `text`.
pub fn shows<D: Display>(value: &D, text: &str) -> bool {
    let mut rest = Rest(text);
    write!(rest, "{value}").is_ok() && rest.0.is_empty()
}
