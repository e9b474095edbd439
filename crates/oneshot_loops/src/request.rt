//! The request of a round trip, over any channel.

/// A request, which carries the sender of its reply.
#[derive(Drop)]
pub struct Request<S> {
    pub(crate) reply: S,
}
