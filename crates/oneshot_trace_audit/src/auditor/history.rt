//! The history: the calls in the order of their acting entries, with their replies.

use crate::auditor::Scripts;
use crate::auditor::acting::acts;
use crate::auditor::calls::{Call, receiver_call, sender_call};
use crate::auditor::fault::Fault;
use crate::auditor::mark::Mark;
use crate::auditor::object::Object;
use oneshot_machine::machine::{End, Reply};
use oneshot_replay::{Entry, Made};

/// The progress of an end's calls.
#[derive(Clone, Copy)]
struct Progress {
    /// How many have replied.
    answered: usize,
    /// The last of them.
    last: Option<Call>,
    /// Whether one was a refused `send`.
    is_refused: bool,
    /// Whether another is under way.
    is_under_way: bool,
    /// Whether the call under way has acted.
    has_acted: bool,
    /// The object's reply to it.
    given: Option<Reply>,
}

impl Progress {
    fn new() -> Progress {
        Progress {
            answered: 0,
            last: None,
            is_refused: false,
            is_under_way: false,
            has_acted: false,
            given: None,
        }
    }

    /// Whether the end, and the error of a refused `send`, have ended.
    fn has_ended(&self) -> bool {
        match self.last {
            Some(Call::Send) => !self.is_refused,
            Some(
                Call::DropSender
                | Call::IntoInner
                | Call::DropError
                | Call::Recv
                | Call::DropReceiver,
            ) => true,
            _ => false,
        }
    }

    /// The reply that the call under way must have: its fixed one, or the object's.
    fn wanted_reply(&self, call: Call) -> Result<Option<Reply>, Fault> {
        let fixed = call.fixed_reply();
        if fixed.is_some() {
            Ok(fixed)
        } else if self.has_acted {
            Ok(self.given)
        } else {
            Err(Fault::DidNotAct)
        }
    }

    /// Reads the reply of the call under way, which ends it.
    fn read_reply(&mut self, call: Call, reply: Reply) -> Result<(), Fault> {
        let wanted = self.wanted_reply(call)?;
        if wanted != Some(reply) {
            return Err(Fault::WrongReply { reply, wanted });
        }
        *self = Progress {
            answered: self.answered.saturating_add(1),
            last: Some(call),
            is_refused: self.is_refused || reply == Reply::Refused,
            is_under_way: false,
            has_acted: false,
            given: None,
        };
        Ok(())
    }
}

/// The object, and the progress of both ends.
#[derive(Drop)]
pub(crate) struct History {
    object: Object,
    sender: Progress,
    receiver: Progress,
}

impl History {
    /// The history before any entry.
    pub(crate) fn new() -> History {
        History {
            object: Object::new(),
            sender: Progress::new(),
            receiver: Progress::new(),
        }
    }

    /// The call that an end has under way, or begins next. `None`: it has none left.
    pub(crate) fn call_of(&self, scripts: &Scripts, end: End) -> Option<Call> {
        match end {
            End::Sender => {
                let Progress {
                    answered,
                    is_refused,
                    ..
                } = self.sender;
                sender_call(&scripts.sender, answered, is_refused)
            }
            End::Receiver => receiver_call(&scripts.receiver, self.receiver.answered),
        }
    }

    /// The mark of a step. `later` has the entries after it.
    pub(crate) fn mark(&self, number: usize, made: Made, call: Call, later: &[Entry]) -> Mark {
        let progress = self.progress(made.side);
        Mark {
            number,
            made,
            call,
            begins: !progress.is_under_way,
            acts: !progress.has_acted && acts(call, &made, later),
            object: self.object,
        }
    }

    /// Reads a step: its call may act here, and may reply.
    pub(crate) fn read(&mut self, mark: Mark) -> Result<(), Fault> {
        let mut progress = *self.progress(mark.made.side);
        progress.is_under_way = true;
        if mark.acts {
            progress.has_acted = true;
            progress.given = self.object.act(mark.call);
        }
        if let Some(reply) = mark.made.reply {
            progress.read_reply(mark.call, reply)?;
        }
        match mark.made.side {
            End::Sender => self.sender = progress,
            End::Receiver => self.receiver = progress,
        }
        Ok(())
    }

    /// Whether the sender's `send` or drop has replied.
    pub(crate) fn has_sender_answered(&self) -> bool {
        !matches!(self.sender.last, None | Some(Call::SenderIsClosed))
    }

    /// Whether both ends, and any error, have ended.
    pub(crate) fn have_all_ended(&self) -> bool {
        self.sender.has_ended() && self.receiver.has_ended()
    }

    fn progress(&self, end: End) -> &Progress {
        match end {
            End::Sender => &self.sender,
            End::Receiver => &self.receiver,
        }
    }
}
