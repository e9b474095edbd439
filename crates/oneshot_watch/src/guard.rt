//! A guard, whose drop tells its watch that it is gone.

ghost use Rattle.std.specs.Prelude.{◌≡◌};

use crate::never::Never;
use oneshot_channel::Sender;
use std::marker::Model;

/// Its drop tells its watch. Keep it in the value whose end the watch has to learn, for example beside a receiver.
///
/// The drop wakes a waiting watch. It does not wait and does not allocate. Waking a task takes locks, as the drop of a
/// `Sender` does.
///
/// A contract sees it as its sender (`SenderView`).
///
/// It may go to another thread.
#[derive(Drop)]
pub struct Guard {
    sender: Sender<Never>,
}

impl Model for Guard {
    ghost use Rattle.oneshot_channel.specs.Ends.{SenderView};

    ghost Value = { SenderView Unit };

    ghost view = { λ g. g.sender };
}

impl Guard {
    pub(crate) fn new(sender: Sender<Never>) -> Guard
        ensures { result ≡ sender }
    {
        Guard { sender }
    }
}
