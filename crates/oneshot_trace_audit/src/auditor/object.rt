//! The sequential object with one message: what each call does to it, and the call's reply.

use crate::auditor::calls::Call;
use oneshot_machine::machine::{End, Reply};
use oneshot_replay::ReceiverCall;

/// What the object holds.
#[derive(Clone, Copy, PartialEq)]
enum Content {
    /// Nothing yet.
    Open,
    /// The message.
    Full,
    /// Nothing, and no message will come.
    Closed,
}

/// The object, and whether both ends are here.
#[derive(Clone, Copy)]
pub(crate) struct Object {
    content: Content,
    sender_here: bool,
    receiver_here: bool,
}

impl Object {
    /// The object before any call.
    pub(crate) fn new() -> Object {
        Object {
            content: Content::Open,
            sender_here: true,
            receiver_here: true,
        }
    }

    /// Whether an end is here.
    pub(crate) fn is_here(&self, end: End) -> bool {
        match end {
            End::Sender => self.sender_here,
            End::Receiver => self.receiver_here,
        }
    }

    /// Performs a call, and returns its reply. `None`: the call has no reply for this content, or is no step
    /// of the object.
    pub(crate) fn act(&mut self, call: Call) -> Option<Reply> {
        match call {
            Call::SenderIsClosed => Some(yes_if(!self.receiver_here)),
            Call::Send => Some(self.send()),
            Call::DropSender => Some(self.end_sender()),
            Call::Receiver(ReceiverCall::HasMessage) => Some(yes_if(self.content == Content::Full)),
            Call::Receiver(ReceiverCall::IsClosed) => Some(yes_if(self.content == Content::Closed)),
            Call::Receiver(_) | Call::Poll(_) => self.take(call),
            Call::Recv => {
                let reply = self.take(call);
                self.receiver_here = false;
                reply
            }
            Call::DropReceiver => Some(self.end_receiver()),
            Call::AsInner | Call::IntoInner | Call::DropError | Call::IntoFuture => None,
        }
    }

    fn send(&mut self) -> Reply {
        self.sender_here = false;
        if !self.receiver_here {
            return Reply::Refused;
        }
        self.content = Content::Full;
        Reply::Sent
    }

    fn end_sender(&mut self) -> Reply {
        self.sender_here = false;
        if self.content == Content::Open {
            self.content = Content::Closed;
        }
        Reply::Done
    }

    fn take(&mut self, call: Call) -> Option<Reply> {
        match self.content {
            Content::Open => call.nothing_yet(),
            Content::Full => {
                self.content = Content::Closed;
                Some(Reply::Message)
            }
            Content::Closed => Some(Reply::Disconnected),
        }
    }

    fn end_receiver(&mut self) -> Reply {
        self.receiver_here = false;
        if self.content == Content::Full {
            self.content = Content::Closed;
        }
        Reply::Done
    }
}

fn yes_if(fact: bool) -> Reply {
    if fact { Reply::Yes } else { Reply::No }
}
