//! What the word that decides a receive or a poll means.

#[derive(Drop)]
pub(crate) enum Found {
    // The message is there.
    Message,
    // The channel is closed.
    Closed,
    // The sender is gone, but the receiver's own swap overwrote `DISCONNECTED`. A call that keeps the receiver has to
    // store it again.
    Overwritten,
    // Nothing is there, and the deadline is over or a poll ends pending.
    Nothing,
}
