//! The trait of wakers in grounds in memory: how the sender uses one.

/// A waker that a ground in memory may have in its slot.
pub trait Wakes {
    /// Uses the waker up, and wakes its task if it has one.
    fn wake(self);
}

// A number names a waker, in tests that only ask which one it is.
impl Wakes for u8 {
    fn wake(self) {}
}

impl Wakes for () {
    fn wake(self) {}
}
