//! Makes a channel for each round, and pairs ends with what their rounds share.

use oneshot_asserts::Asserts;
use oneshot_channel::{Receiver, Sender, channel};

/// Makes `count` channels, and returns their senders and receivers in the same order.
pub(super) fn channels<T: Send + Drop, R: AllocGlobal + Asserts>(
    rt: &R,
    count: u64,
) -> (Vec<Sender<T>>, Vec<Receiver<T, &R>>) {
    let mut senders = Vec::new(rt.alloc());
    let mut receivers = Vec::new(rt.alloc());
    for _ in 0..count {
        let (sender, receiver) = channel(rt, rt.alloc()).expect(rt, "memory");
        senders.push(sender).expect(rt, "memory");
        receivers.push(receiver).expect(rt, "memory");
    }
    (senders, receivers)
}

/// Pairs each end with what its round shares with others.
pub(super) fn beside<'a, D, E: Drop>(
    rt: &(impl AllocGlobal + Asserts),
    shared: &'a [D],
    ends: Vec<E>,
) -> Vec<(&'a D, E)> {
    let pairs = shared.iter().zip(ends).collect(rt.alloc());
    pairs.expect(rt, "memory")
}

/// Pairs the ends of each round.
pub(super) fn paired<A: Drop, B: Drop>(
    rt: &(impl AllocGlobal + Asserts),
    ones: Vec<A>,
    others: Vec<B>,
) -> Vec<(A, B)> {
    let pairs = ones.into_iter().zip(others).collect(rt.alloc());
    pairs.expect(rt, "memory")
}
