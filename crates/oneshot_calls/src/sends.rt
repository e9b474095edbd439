//! The senders that a script may be of.

use crate::numbered::Numbered;
use oneshot_channel::reply::{Answer, Asked, Request};
use oneshot_channel::{Promise, SendError, Sender};

/// A sender, or a request, which has no raw value.
pub trait Sends<T>: Drop + Sized {
    /// The error of a refused message.
    type Refused: Refuses<T>;

    /// Whether the receiver is gone.
    fn is_closed(&self) -> bool;

    /// Sends the message. `Err(None)`: it was not sent, since it answers another question, and is dropped.
    fn send(self, message: T) -> Result<(), Option<Self::Refused>>;

    /// The sender as a raw value, and back.
    fn there_and_back(self) -> Self;

    /// Drops the sender's raw value.
    fn drop_raw(self);
}

/// The error of a refused message.
pub trait Refuses<T>: Drop + Sized {
    /// The number of the message, which stays in the error.
    fn number(&self) -> u64;

    /// The message.
    fn into_message(self) -> T;
}

impl<T: Numbered + Drop, P: Promise<T>> Refuses<T> for SendError<T, P> {
    fn number(&self) -> u64 {
        self.as_inner().number()
    }

    fn into_message(self) -> T {
        self.into_inner()
    }
}

impl<T: Numbered + Drop> Sends<T> for Sender<T> {
    type Refused = SendError<T>;

    fn is_closed(&self) -> bool {
        self.is_closed()
    }

    fn send(self, message: T) -> Result<(), Option<SendError<T>>> {
        Sender::send(self, message).map_err(Some)
    }

    fn there_and_back(self) -> Sender<T> {
        Sender::from_raw(self.into_raw())
    }

    fn drop_raw(self) {
        drop(self.into_raw());
    }
}

impl<Q: Eq + Drop, A: Answer<Q> + Numbered + Drop> Sends<A> for Request<Q, A> {
    type Refused = SendError<A, Asked<Q>>;

    fn is_closed(&self) -> bool {
        self.is_cancelled()
    }

    fn send(self, reply: A) -> Result<(), Option<SendError<A, Asked<Q>>>> {
        if !self.fits(&reply) {
            return Err(None);
        }
        self.answer(reply).map_err(Some)
    }

    fn there_and_back(self) -> Request<Q, A> {
        self
    }

    fn drop_raw(self) {
        drop(self);
    }
}
