//! A task in memory, which counts its wakes, and the copies of its waker.

use crate::wakes::Wakes;
use std::cell::Cell;

/// A task that polls a receiver over a ground in memory. It counts the copies of its waker, those that
/// ended, and its wakes. A contract cannot state what a `Cell` has, so none states a count.
#[derive(Drop)]
pub struct MemoryTask {
    copies: Cell<u64>,
    ended: Cell<u64>,
    wakes: Cell<u64>,
}

impl MemoryTask {
    /// Makes a task whose counts are 0.
    pub fn new() -> MemoryTask {
        MemoryTask {
            copies: Cell::new(0),
            ended: Cell::new(0),
            wakes: Cell::new(0),
        }
    }

    /// Returns how many copies of its waker were made.
    pub fn copies(&self) -> u64 {
        self.copies.get()
    }

    /// Returns how many of them were used or dropped.
    pub fn ended(&self) -> u64 {
        self.ended.get()
    }

    /// Returns how often it was woken.
    pub fn wakes(&self) -> u64 {
        self.wakes.get()
    }

    // Copies its waker.
    pub(crate) fn copy(&self) -> TaskWaker<'_> {
        count(&self.copies);
        TaskWaker { task: self }
    }

    // Wakes the task.
    pub(crate) fn wake(&self) {
        count(&self.wakes);
    }
}

/// A copy of the waker of a task in memory. The task counts its end: its use or its drop.
pub struct TaskWaker<'t> {
    task: &'t MemoryTask,
}

impl Wakes for TaskWaker<'_> {
    fn wake(self) {
        self.task.wake();
    }
}

impl Drop for TaskWaker<'_> {
    fn drop(self) {
        let TaskWaker { task } = self;
        count(&task.ended);
    }
}

// Adds one. The largest count wraps to 0.
fn count(counter: &Cell<u64>) {
    counter.set(counter.get().wrapping_add(1));
}
