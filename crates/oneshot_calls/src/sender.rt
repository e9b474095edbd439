//! Makes the calls of a real sender, and of the error of its refused message.

use crate::numbered::Numbered;
use crate::reply::{Bare, Form, Reply};
use crate::sends::{Refuses, Sends};
use crate::words::SenderCall;

/// A sender and its message, and then the error of the refused message.
#[derive(Drop)]
pub struct Sending<T, S: Sends<T>> {
    sender: Option<S>,
    message: Option<T>,
    error: Option<S::Refused>,
}

impl<T: Numbered + Drop, S: Sends<T>> Sending<T, S> {
    /// A sender that sends this message; with `None` it sends none.
    pub fn new(sender: S, message: Option<T>) -> Sending<T, S> {
        Sending {
            sender: Some(sender),
            message,
            error: None,
        }
    }

    /// Gives the sender the message that it sends.
    pub fn load(&mut self, message: T) {
        self.message = Some(message);
    }

    /// Whether an error has the message.
    pub fn has_error(&self) -> bool {
        self.error.is_some()
    }

    /// Makes the calls in their order. Returns the reply of the last call that was made, and drops what is left.
    pub fn make_all(mut self, calls: &[SenderCall]) -> Reply<T> {
        let mut last = Reply::Bare(Bare::Nothing);
        for call in calls {
            last = last.then(self.make(*call));
        }
        last
    }

    /// Makes a call, and returns its reply.
    pub fn make(&mut self, call: SenderCall) -> Reply<T> {
        match call {
            SenderCall::Closed => match self.sender.as_ref() {
                Some(sender) => Reply::look(sender.is_closed()),
                None => Reply::Bare(Bare::Nothing),
            },
            SenderCall::Send => Reply::Bare(self.send()),
            SenderCall::Inner => match self.error.as_ref() {
                Some(error) => Reply::Inner(error.number()),
                None => Reply::Bare(Bare::Nothing),
            },
            SenderCall::Into => match self.error.take() {
                Some(error) => Reply::Message(Form::Back, error.into_message()),
                None => Reply::Bare(Bare::Nothing),
            },
            SenderCall::Drop => Reply::Bare(self.drop_one()),
            SenderCall::Raw => Reply::Bare(self.be_raw()),
            SenderCall::DropRaw => Reply::Bare(self.drop_raw()),
        }
    }

    fn send(&mut self) -> Bare {
        let (Some(sender), Some(message)) = (self.sender.take(), self.message.take()) else {
            return Bare::Nothing;
        };
        match sender.send(message) {
            Ok(()) => Bare::Sent,
            Err(Some(error)) => {
                self.error = Some(error);
                Bare::Refused
            }
            Err(None) => Bare::Nothing,
        }
    }

    /// Drops the sender, or the error of its message.
    fn drop_one(&mut self) -> Bare {
        if let Some(sender) = self.sender.take() {
            drop(sender);
            return Bare::Dropped;
        }
        if let Some(error) = self.error.take() {
            drop(error);
            return Bare::Dropped;
        }
        Bare::Nothing
    }

    fn be_raw(&mut self) -> Bare {
        let Some(sender) = self.sender.take() else {
            return Bare::Nothing;
        };
        self.sender = Some(sender.there_and_back());
        Bare::Raw
    }

    fn drop_raw(&mut self) -> Bare {
        let Some(sender) = self.sender.take() else {
            return Bare::Nothing;
        };
        sender.drop_raw();
        Bare::Dropped
    }
}
