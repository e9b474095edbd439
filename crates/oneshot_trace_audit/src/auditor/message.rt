//! The message's place: the message is always in one place, and moves only from there.

use crate::auditor::calls::Call;
use crate::auditor::fault::{Fault, no_move};
use crate::auditor::mark::{Mark, moves_message};
use oneshot_machine::machine::Reply;
use oneshot_replay::{Place, SenderLast, SenderScript};

/// The script's message with its place, if the script sends one.
#[derive(Drop)]
pub(crate) struct Message {
    at: Option<(Place, u64)>,
}

impl Message {
    /// The script's message, which is not sent yet.
    pub(crate) fn new(script: &SenderScript<u64>) -> Message {
        let at = match &script.last {
            SenderLast::Send(message, _) => Some((Place::NotSent, *message)),
            SenderLast::Drop | SenderLast::Stop => None,
        };
        Message { at }
    }

    /// Reads a step: a message that moves leaves its place, by an allowed move, in a call that may make it.
    pub(crate) fn read(&mut self, mark: Mark) -> Result<(), Fault> {
        let Some((from, to)) = mark.made.message else {
            return no_move(moves_message(mark.made.step));
        };
        let Some((place, message)) = self.at else {
            return Err(Fault::NoMessage);
        };
        if place != from {
            return Err(Fault::MessageElsewhere { from, place });
        }
        if !may_go(from, to) {
            return Err(Fault::MessageMove { from, to });
        }
        if !may_put(mark, to) {
            return Err(Fault::MessagePut { to });
        }
        self.at = Some((to, message));
        Ok(())
    }

    /// Reads a step's reply: if it has the message, the message is where the reply implies.
    pub(crate) fn read_reply(&self, mark: Mark) -> Result<(), Fault> {
        let Some(wanted) = mark.made.reply.and_then(|reply| place_of(mark.call, reply)) else {
            return Ok(());
        };
        match self.at {
            Some((place, _)) if place == wanted => Ok(()),
            _ => Err(Fault::ReplyWithoutMessage { wanted }),
        }
    }

    /// Checks, after all have ended, that a message was taken or dropped.
    pub(crate) fn read_end(&self) -> Result<(), Fault> {
        match self.at {
            Some((place, _)) if !may_end(place) => Err(Fault::MessageLeft(place)),
            _ => Ok(()),
        }
    }

    /// Checks what the trace reports of the message and its last place.
    pub(crate) fn read_told(&self, rest: Option<(Place, u64)>) -> Result<(), Fault> {
        if rest == self.at {
            Ok(())
        } else {
            Err(Fault::ToldRest { rest })
        }
    }
}

fn may_go(from: Place, to: Place) -> bool {
    matches!(
        (from, to),
        (Place::NotSent, Place::InCell)
            | (
                Place::InCell,
                Place::InError | Place::Delivered | Place::Dropped
            )
            | (Place::InError, Place::FromError | Place::Dropped)
    )
}

/// Whether the mark's call may put the message there. Only a refused `send` puts it into the error.
fn may_put(mark: Mark, to: Place) -> bool {
    let Mark { call, made, .. } = mark;
    match to {
        Place::NotSent => false,
        Place::InCell => matches!(call, Call::Send),
        Place::InError => matches!(call, Call::Send) && made.reply == Some(Reply::Refused),
        Place::Delivered => call.is_receive(),
        Place::FromError => matches!(call, Call::IntoInner),
        Place::Dropped => matches!(call, Call::DropReceiver | Call::DropError),
    }
}

fn may_end(place: Place) -> bool {
    matches!(place, Place::Delivered | Place::FromError | Place::Dropped)
}

/// Where the message is, if a call's reply has it.
fn place_of(call: Call, reply: Reply) -> Option<Place> {
    match (call, reply) {
        (_, Reply::Refused) | (Call::AsInner, _) => Some(Place::InError),
        (Call::IntoInner, _) => Some(Place::FromError),
        (_, Reply::Message) => Some(Place::Delivered),
        _ => None,
    }
}
