//! A run of the model, one move at a time.

ghost use Rattle.std.specs.Prelude.{◌≡◌, ◌+◌, ◌-◌, ◌^◌, ◌<◌, [], Some};
ghost use Rattle.oneshot_world.specs.World.{opening, turn};
ghost use Rattle.oneshot_replay.specs.Rest.{message_of, rest_at};
ghost use Rattle.oneshot_replay.specs.Run.{HasRun, GoesOn};
ghost use Rattle.oneshot_replay.specs.Scene.{sender_call_of, receiver_call_of};

use crate::rest::{Rest, rest_at};
use oneshot_machine::machine::{ReceiverStart, SenderCall};
use oneshot_world::{Entry, Move, ReceiverScript, SenderLast, SenderScript, World};
use std::marker::Model;

/// A run between two moves: its world, the number of its entries, and the sender's message.
#[derive(Drop)]
pub struct Replayer<T> {
    world: World,
    count: usize,
    message: Option<T>,
}

impl<T> Model for Replayer<T> {
    ghost use Rattle.oneshot_replay.specs.Scene.{Scene};

    ghost Value = { Scene T };

    ghost view = { λ r. record { world = r.world; count = r.count; message = r.message } };
}

impl<T: Drop> Replayer<T> {
    /// Returns a run before its first move, of the sender's script `s` and the receiver's `r`.
    pub fn new(s: SenderScript<T>, r: ReceiverScript) -> Replayer<T>
        ensures world { result.world ≡ opening s r }
        ensures count { result.count ≡ 0 }
        ensures message { result.message ≡ message_of s.last }
        ensures begins { HasRun s r [] [] result }
    {
        let world = World::new(&s, r);
        let message = match s.last {
            SenderLast::Send(message, _) => Some(message),
            SenderLast::Drop | SenderLast::Stop => None,
        };
        Replayer {
            world,
            count: 0,
            message,
        }
    }

    /// Makes the next step of the end that `m` names, and returns its entry. `m` also has what the step sees
    /// of a clock or a copy of a waker. An end whose script is finished makes no step; the entry is `Idle`.
    /// No step allocates. `room`: there are fewer entries than the largest `usize`, so this one has a number.
    pub fn step(&mut self, m: Move) -> Entry
        requires room { self.old.count < 2 ^ 64 - 1 }
        ensures turn { turn (self.old.count + 1) self.old.world m ≡ Some (result, self.new.world) }
        ensures count { self.new.count ≡ self.old.count + 1 }
        ensures message { self.new.message ≡ self.old.message }
        ensures goes_on { GoesOn self.old m result self.new }
    {
        self.count += 1;
        self.world.step(m, self.count)
    }

    /// Returns the number of entries so far, one for each move.
    pub fn count(&self) -> usize
        ensures { result ≡ self.now.count }
    {
        self.count
    }

    /// Returns the call that the sender has under way or begins at its next move, or `None` if its script is
    /// finished. The calls of a refused `send`'s error are the sender's too.
    pub fn sender_call(&self) -> Option<SenderCall>
        ensures { result ≡ sender_call_of self.now }
    {
        self.world.sender_call()
    }

    /// Returns the call that the receiver has under way or begins at its next move, or `None` if its script
    /// is finished.
    pub fn receiver_call(&self) -> Option<ReceiverStart>
        ensures { result ≡ receiver_call_of self.now }
    {
        self.world.receiver_call()
    }

    /// Returns whether the block is freed.
    pub fn block_freed(&self) -> bool
        ensures { result ≡ self.now.world.state.freed }
    {
        self.world.is_freed()
    }

    /// Returns the message with its place now, or `None` if the script sends nothing.
    pub fn into_rest(self) -> Option<Rest<T>>
        ensures { result ≡ rest_at self.world.state.message self.message }
    {
        let place = self.world.place();
        let Replayer { message, .. } = self;
        rest_at(place, message)
    }
}
