//! The error of a refused `send`, which owns the message and the sender's share of the channel's memory.

ghost use Rattle.std.specs.Prelude.{◌≡◌};
ghost use Rattle.oneshot_machine.specs.Phases.{sending, sender_at};
ghost use Rattle.oneshot_machine.specs.Slots.{held};
ghost use Rattle.oneshot_machine.specs.Over.{IsLate};
ghost use Rattle.oneshot_ends.specs.Ends.{SenderIsOrdered, WasRefused, channel_at};
ghost use Rattle.oneshot_ends.specs.Woken.{HasEnded};

use crate::ground::{Refused, SenderBackend};
use crate::token::WakingHalf;
use futures::task::Waker;
use oneshot_drive::{drop_error, into_inner};
use oneshot_word::Promise;
use std::error::Error;
use std::fmt;
use std::fmt::{Debug, Display, Formatter};
use std::marker::Model;

/// The error of a `send` that was refused. The receiver was gone, or was a future that was dropped while `send` was
/// about to wake its task.
///
/// It owns the message, and the sender's share of the channel's memory. Dropping it drops both; `into_inner` returns
/// the message and drops the share. No call of it allocates or blocks, except that the drop blocks if that of the
/// message does.
///
/// It may go to another thread where `T` is `Send`. Several threads may share a `&` to it where `T` is also `Sync`.
///
/// `Display` writes "sending on a closed channel", and `Debug` writes "SendError(_)". Neither shows the message.
///
/// A contract sees the message, the channel, and the sender's log of operations on the word.
pub struct SendError<T, P: Promise<T> = ()> {
    refused: Refused<T, WakingHalf, Waker, P>,
}

impl<T, P: Promise<T>> Model for SendError<T, P> {
    ghost use Rattle.oneshot_ends.specs.Ends.{RefusedView};

    ghost Value = { RefusedView T P };

    ghost view = { λ e. e.refused };
}

impl<T, P: Promise<T>> SendError<T, P> {
    /// Returns a reference to the message, which stays in the error.
    pub fn as_inner(&self) -> &T
        ensures { result.now ≡ self.now.message }
    {
        self.refused.message()
    }

    pub(crate) fn was_refused(&self)
        ensures { WasRefused T self.now.log }
    {
        self.refused.was_refused();
    }

    pub(crate) fn is_in_an_order(&self)
        ensures { SenderIsOrdered self.now.log }
    {
        self.refused.is_in_an_order();
    }

    /// The error of a `send` that was refused on this ground.
    pub(crate) fn refused(ground: SenderBackend<T, P>) -> SendError<T, P>
        requires ended { HasEnded sending ground }
        requires full { (message : T) × (ground.side.message ≡ held message) }
        requires late { IsLate (sender_at ground.side.log) }
        requires refused { WasRefused T ground.side.log }
        ensures message { ground.side.message ≡ held result.message }
        ensures channel { result.channel ≡ channel_at ground.side }
        ensures log { result.log ≡ ground.side.log }
    {
        let (message, side) = ground.into_refused();
        SendError {
            refused: Refused::new(message, side),
        }
    }
}

impl<T: Drop, P: Promise<T>> SendError<T, P> {
    /// Returns the message, and drops the sender's share of the channel's memory. It never blocks.
    pub fn into_inner(self) -> T
        ensures { result ≡ self.message }
    {
        let SendError { refused } = self;
        into_inner(&mut refused.into_ground())
    }
}

impl<T: Drop, P: Promise<T>> Drop for SendError<T, P> {
    fn drop(self) {
        let SendError { refused } = self;
        drop_error(&mut refused.into_ground());
    }
}

impl<T, P: Promise<T>> Display for SendError<T, P> {
    ghost use Rattle.std.specs.Prelude.{Some, codes};

    ghost output = { λ _. Some (codes "sending on a closed channel") };

    fn fmt<W: fmt::Write>(&self, f: &mut Formatter<W>) -> fmt::Result {
        f.pad("sending on a closed channel")
    }
}

impl<T, P: Promise<T>> Debug for SendError<T, P> {
    fn fmt<W: fmt::Write>(&self, f: &mut Formatter<W>) -> fmt::Result {
        f.write_str("SendError(_)")
    }
}

impl<T: Drop, P: Promise<T>> Error for SendError<T, P> {}
