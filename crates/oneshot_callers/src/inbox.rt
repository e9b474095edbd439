//! A struct of a receiver and whether it is done.

ghost use Rattle.std.specs.Prelude.{◌≡◌, true, IfOk, IsNone};
ghost use Rattle.oneshot_channel.specs.Ends.{IsClosed, IsOpen};

use oneshot_asserts::assert_same;
use oneshot_channel::{Receiver, Sender, TryRecvError, channel};
use std::alloc::{AllocError, Global};

/// A receiver that is tried now and then, and whether its message came or can never come.
#[derive(Drop)]
struct Inbox<T: Drop> {
    receiver: Receiver<T, ()>,
    done: bool,
    ghost right: { done ≡ true → IsClosed receiver.log },
}

impl<T: Send + Drop> Inbox<T> {
    /// Makes an inbox and the sender of its message. `Err`: out of memory.
    fn new(alloc: Global) -> Result<(Sender<T>, Inbox<T>), AllocError>
        ensures { IfOk result (λ made. IsOpen made.1.receiver.log) }
    {
        let (sender, receiver) = channel((), alloc)?;
        let inbox = Inbox {
            receiver,
            done: false,
        };
        Ok((sender, inbox))
    }
}

impl<T: Drop> Inbox<T> {
    /// Returns the message if it is there. After the inbox is done, none comes.
    fn try_once(&mut self) -> Option<T>
        ensures { self.old.done ≡ true → IsNone result }
    {
        match self.receiver.try_recv() {
            Ok(message) => {
                self.done = true;
                Some(message)
            }
            Err(TryRecvError::Disconnected) => {
                self.done = true;
                None
            }
            Err(TryRecvError::Empty) => None,
        }
    }
}

#[test]
fn an_inbox_gives_its_message_once(rt: HostRuntime) {
    let (sender, mut inbox) = Inbox::new(rt.alloc()).expect(&rt, "memory");
    let early = (inbox.try_once(), inbox.done);
    let sent = sender.send(19u64).is_ok();
    let late = (inbox.try_once(), inbox.done);
    let again = inbox.try_once();
    assert_same!(rt;
        (early, sent, late, again),
        ((None, false), true, (Some(19), true), None)
    );
}
