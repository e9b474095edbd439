//! The waker that a waiting receiver leaves for the sender.

/// What a sender takes out of the waker's slot, to wake the receiver with.
#[derive(Drop)]
pub enum AnyWaker<H, K> {
    /// The waking half of a thread's parker.
    Thread(H),
    /// A copy of a task's waker.
    Task(K),
}
