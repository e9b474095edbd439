//! What the arguments ask for: the kind of the channel, and both scripts.

use crate::run::{Kind, Scripts};
use oneshot_calls::{ReceiverCall, SenderCall, Word};
use std::alloc::{AllocError, Global};
use std::rt::Env;
use std::{env, io};

/// The arguments so far.
#[derive(Drop)]
pub struct Asked {
    pub kind: Kind,
    pub scripts: Scripts,
    of: Part,
}

/// What an argument is read as.
#[derive(Clone, Copy)]
enum Part {
    Kind,
    Sender,
    Receiver,
}

impl Asked {
    /// Reads the arguments. `None`: one is not allowed where it stands, or a script is missing.
    pub fn read<R: Env + AllocGlobal>(rt: &R) -> io::Result<Option<Asked>> {
        let mut asked = Asked::new(rt.alloc());
        for arg in env::args(rt)?.skip(1) {
            if !asked.add(arg.as_str())? {
                return Ok(None);
            }
        }
        Ok(match asked.of {
            Part::Receiver => Some(asked),
            Part::Kind | Part::Sender => None,
        })
    }

    /// No arguments: a plain channel, and a script of no call for each end.
    fn new(alloc: Global) -> Asked {
        Asked {
            kind: Kind::Plain,
            scripts: Scripts {
                sends: Vec::new(alloc),
                receives: Vec::new(alloc),
            },
            of: Part::Kind,
        }
    }

    /// Adds an argument. Returns whether it is allowed there.
    fn add(&mut self, text: &str) -> Result<bool, AllocError> {
        match (self.of, text) {
            (Part::Kind, "S") => self.of = Part::Sender,
            (Part::Sender, "R") => self.of = Part::Receiver,
            (Part::Kind, _) => return Ok(self.add_kind(text)),
            (Part::Sender, _) => return self.add_send(text),
            (Part::Receiver, _) => return self.add_receive(text),
        }
        Ok(true)
    }

    fn add_kind(&mut self, text: &str) -> bool {
        let Some(kind) = kind_of(text) else {
            return false;
        };
        self.kind = kind;
        true
    }

    fn add_send(&mut self, text: &str) -> Result<bool, AllocError> {
        let Some(call) = SenderCall::of_word(text) else {
            return Ok(false);
        };
        self.scripts.sends.push(call)?;
        Ok(true)
    }

    fn add_receive(&mut self, text: &str) -> Result<bool, AllocError> {
        let Some(call) = ReceiverCall::of_word(text) else {
            return Ok(false);
        };
        self.scripts.receives.push(call)?;
        Ok(true)
    }
}

fn kind_of(text: &str) -> Option<Kind> {
    let kind = match text {
        "promise" => Kind::Promise,
        "request" => Kind::Request,
        "nested" => Kind::Nested,
        "watch" => Kind::Watch,
        "two" => Kind::TwoChannels,
        "sent-sender" => Kind::SentSender,
        "sent-receiver" => Kind::SentReceiver,
        _ => return None,
    };
    Some(kind)
}
