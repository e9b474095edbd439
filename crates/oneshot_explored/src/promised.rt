//! The sender of a channel under a promise that every message keeps.

ghost use Rattle.std.specs.Prelude.{⊤};

use crate::parcel::Parcel;
use oneshot_calls::{Numbered, Refuses, Sends};
use oneshot_channel::{Promise, SendError, Sender};

/// A promise that every message keeps.
#[derive(Drop)]
pub struct Any;

impl Promise<Parcel> for Any {
    ghost keeps = { λ _ _. ⊤ };
}

/// The sender of a channel under that promise.
#[derive(Drop)]
pub struct Promised(pub Sender<Parcel, Any>);

/// The error of its refused message.
#[derive(Drop)]
pub struct Refusal(SendError<Parcel, Any>);

impl Refuses<Parcel> for Refusal {
    fn number(&self) -> u64 {
        self.0.as_inner().number()
    }

    fn into_message(self) -> Parcel {
        let Refusal(error) = self;
        error.into_inner()
    }
}

impl Sends<Parcel> for Promised {
    type Refused = Refusal;

    fn is_closed(&self) -> bool {
        self.0.is_closed()
    }

    fn send(self, parcel: Parcel) -> Result<(), Option<Refusal>> {
        let Promised(sender) = self;
        match sender.send_kept(parcel) {
            Ok(()) => Ok(()),
            Err(error) => Err(Some(Refusal(error))),
        }
    }

    fn there_and_back(self) -> Promised {
        let Promised(sender) = self;
        Promised(Sender::from_raw(sender.into_raw()))
    }

    fn drop_raw(self) {
        let Promised(sender) = self;
        drop(sender.into_raw());
    }
}
