//! What is read of a pair before its runs: both scripts, and what the model may do beside them.

use crate::differs::Differs;
use crate::model::Model;
use oneshot_text::{ParseError, Request, parse_request};
use std::alloc::{AllocError, Global};

/// The channels that both threads of a pair have ends of.
#[derive(Clone, Copy)]
pub(crate) enum Channels {
    One,
    /// Two, each with these scripts: each thread sends on the one, and then receives on the other.
    Two,
    /// The message of the first brings the sender of the second, which has these scripts.
    SentSender,
    /// The message of the first brings the receiver of the second, which has these scripts.
    SentReceiver,
}

/// The scripts of a channel whose message brings an end of another.
const BRINGING: &str = "S send 7\nR recv\nX\n";

/// Both scripts of a pair.
#[derive(Drop)]
pub(crate) struct Scripts {
    text: String,
    channels: Channels,
    may_refuse: bool,
}

impl Scripts {
    pub(crate) fn new(alloc: Global) -> Scripts {
        Scripts {
            text: String::new(alloc),
            channels: Channels::One,
            may_refuse: false,
        }
    }

    /// Adds a line: `two`, `sent-sender` or `sent-receiver` if each thread has an end of two channels, `refused` if a
    /// copy of a waker may be refused, or the script of an end. The receiver's is the last; a line without moves
    /// follows it.
    pub(crate) fn add(&mut self, line: &str) -> Result<(), AllocError> {
        match line {
            "two" => self.channels = Channels::Two,
            "sent-sender" => self.channels = Channels::SentSender,
            "sent-receiver" => self.channels = Channels::SentReceiver,
            "refused" => self.may_refuse = true,
            _ => self.add_script(line)?,
        }
        Ok(())
    }

    fn add_script(&mut self, line: &str) -> Result<(), AllocError> {
        let end = if line.starts_with('R') { "\nX\n" } else { "\n" };
        self.text.push_str(line)?;
        self.text.push_str(end)
    }

    pub(crate) fn channels(&self) -> Channels {
        self.channels
    }

    /// Whether a copy of a waker may be refused.
    pub(crate) fn may_refuse(&self) -> bool {
        self.may_refuse
    }

    /// Reads the scripts.
    pub(crate) fn read(&self, alloc: Global) -> Result<Request, Differs> {
        read(alloc, self.text.as_str())
    }

    /// Begins a run of the model by these scripts.
    pub(crate) fn begin(&self, alloc: Global) -> Result<Model, Differs> {
        Model::new(alloc, self.read(alloc)?)
    }

    /// Reads the scripts of the first channel.
    pub(crate) fn read_first(&self, alloc: Global) -> Result<Request, Differs> {
        match self.channels {
            Channels::One | Channels::Two => self.read(alloc),
            Channels::SentSender | Channels::SentReceiver => read(alloc, BRINGING),
        }
    }

    /// Begins a run of the model by the scripts of the first channel.
    pub(crate) fn begin_first(&self, alloc: Global) -> Result<Model, Differs> {
        Model::new(alloc, self.read_first(alloc)?)
    }
}

fn read(alloc: Global, text: &str) -> Result<Request, Differs> {
    match parse_request(alloc, text) {
        Ok(asked) => Ok(asked),
        Err(ParseError::Malformed(_)) => Err(Differs::UnknownWord),
        Err(ParseError::OutOfMemory(error)) => Err(Differs::OutOfMemory(error)),
    }
}
