//! The ground in memory of a future, with the task that polls it.

ghost use Rattle.std.specs.Prelude.{◌≡◌, ⊤, false};
ghost use Rattle.oneshot_drive.specs.Polls.{IsPolled};

use crate::receiver::MemoryReceiver;
use crate::task::{MemoryTask, TaskWaker};
use oneshot_drive::{DropGround, ReceiverGround, TaskGround, WaitGround};
use std::alloc::Global;
use std::sync::Wait;

/// The ground of a receiver that is polled.
#[derive(Drop)]
pub struct MemoryFuture<'a, 't, T, R: Wait> {
    /// The receiver's ground.
    pub receiver: MemoryReceiver<'a, T, TaskWaker<'t>, R>,
    /// The task of the next poll.
    pub task: &'t MemoryTask,
    /// Whether each copy of the task's waker is refused.
    pub refuses: bool,
}

impl<'a, 't, T, R: Wait> MemoryFuture<'a, 't, T, R> {
    /// Makes the ground of a new future, whose sender is here. `rt` and `alloc` are as in
    /// `MemoryReceiver::new`, and `task` polls it first. No copy is refused.
    pub fn new(rt: &'a R, alloc: Global, task: &'t MemoryTask) -> MemoryFuture<'a, 't, T, R>
        ensures rests { IsPolled result.receiver.state }
        ensures copies { result.refuses ≡ false }
    {
        MemoryFuture {
            receiver: MemoryReceiver::new(rt, alloc),
            task,
            refuses: false,
        }
    }
}

impl<'a, 't, T: Drop, R: Wait> ReceiverGround<T, TaskWaker<'t>> for MemoryFuture<'a, 't, T, R> {
    ghost state = { λ s. s.receiver.state };

    // It has nothing besides the channel for a contract to state.
    ghost keeps = { λ a b. ⊤ };

    ghost keeps_same = { λ a. tt };

    ghost keeps_on = { λ a b c f g. tt };

    // It gives and takes any waker.
    ghost has = { λ s hand. ⊤ };

    // It states nothing of a message that it returns.
    ghost gives = { λ s m. ⊤ };

    ghost gives_on = { λ a b m k g. tt };

    ghost had = { λ s m. ⊤ };

    ghost had_on = { λ a b m k h. tt };

    fn load(&mut self) -> u8 {
        self.receiver.load()
    }

    fn store(&mut self, new: u8) -> u8 {
        self.receiver.store(new)
    }

    fn swap(&mut self, new: u8) -> u8 {
        self.receiver.swap(new)
    }

    fn exchange(&mut self, expected: u8, new: u8) -> u8 {
        self.receiver.exchange(expected, new)
    }

    fn take_message(&mut self) -> T {
        self.receiver.take_message()
    }

    fn withdraw(&mut self) -> TaskWaker<'t> {
        self.receiver.withdraw()
    }

    fn free(&mut self) {
        self.receiver.free();
    }
}

impl<'a, 't, T: Drop, R: Wait> DropGround<T, TaskWaker<'t>> for MemoryFuture<'a, 't, T, R> {
    fn drop_message(&mut self) {
        self.receiver.drop_message();
    }
}

impl<'a, 't, T: Drop, R: Wait> WaitGround<T, TaskWaker<'t>> for MemoryFuture<'a, 't, T, R> {
    fn write_waker(&mut self, waker: TaskWaker<'t>) {
        self.receiver.write_waker(waker);
    }
}

impl<'a, 't, T: Drop, R: Wait> TaskGround<T, TaskWaker<'t>> for MemoryFuture<'a, 't, T, R> {
    // No contract states whether a task in memory was woken; the task counts its wakes.
    ghost heard = { λ s. ⊤ };

    ghost heard_on = { λ a b h k. tt };

    ghost woke_own = { λ s. ⊤ };

    fn copy(&mut self) -> Option<TaskWaker<'t>> {
        let copy = if self.refuses {
            None
        } else {
            Some(self.task.copy())
        };
        self.receiver.note_copy(&copy);
        copy
    }

    fn wake_own(&mut self) {
        self.task.wake();
        self.receiver.note_own_wake();
    }
}
