//! The receivers that a script may be of.

use crate::limits::{TRIES, far, pass_time, short};
use crate::reply::{Bare, Reply};
use crate::words::Ask;
use oneshot_channel::reply::{Answer, Asked, Ticket};
use oneshot_channel::{AsyncReceiver, Promise, Receiver, TryRecvError};
use std::sync::Wait;
use std::time::{Clock, Duration, Instant};

/// A receiver, or a ticket, which has no raw value.
pub trait Receives<T>: Drop + Sized {
    /// The runtime of its receives that block.
    type Rt: Wait + Clock + Drop;
    /// The promise of its channel.
    type About: Promise<T>;

    /// Makes a call, and returns its reply. A deadline is by the clock of `rt`. A call that the kind lacks is not made.
    fn ask<R: Clock>(&mut self, rt: &R, call: Ask) -> Reply<T>;

    /// `recv`.
    fn received(self) -> Reply<T>;

    /// The receiver as a future.
    fn into_future(self) -> AsyncReceiver<T, Self::Rt, Self::About>;

    /// Makes the receiver a raw value and a receiver again. Returns a ticket unchanged.
    fn there_and_back(self) -> Self;

    /// Drops the receiver's raw value.
    fn drop_raw(self);
}

impl<T: Drop, W: Wait + Clock + Drop, P: Promise<T>> Receives<T> for Receiver<T, W, P> {
    type Rt = W;

    type About = P;

    fn ask<R: Clock>(&mut self, rt: &R, call: Ask) -> Reply<T> {
        match call {
            Ask::Closed => Reply::look(self.is_closed()),
            Ask::Full => Reply::look(self.has_message()),
            Ask::Try => Reply::tried(self.try_recv()),
            Ask::Tries => try_until(self),
            Ask::Ref => Reply::received(self.recv_ref()),
            Ask::Deadline(time) => receive_until(self, later(rt, time)),
            Ask::PastDeadline => receive_until(self, long_ago(rt)),
            Ask::Timeout(time) => Reply::timed(self.recv_timeout(time)),
        }
    }

    fn received(self) -> Reply<T> {
        Reply::received(self.recv())
    }

    fn into_future(self) -> AsyncReceiver<T, W, P> {
        self.into_future()
    }

    fn there_and_back(self) -> Receiver<T, W, P> {
        Receiver::from_raw(self.into_raw())
    }

    fn drop_raw(self) {
        drop(self.into_raw());
    }
}

fn try_until<T: Drop, W: Drop, P: Promise<T>>(receiver: &mut Receiver<T, W, P>) -> Reply<T> {
    for looks in 0..TRIES {
        let tried = receiver.try_recv();
        if !matches!(tried, Err(TryRecvError::Empty)) {
            return Reply::tried(tried);
        }
        pass_time(looks);
    }
    Reply::Bare(Bare::Empty)
}

/// Makes no call if there is no deadline.
fn receive_until<T: Drop, W: Wait + Clock + Drop, P: Promise<T>>(
    receiver: &mut Receiver<T, W, P>,
    deadline: Option<Instant>,
) -> Reply<T> {
    match deadline {
        Some(deadline) => Reply::timed(receiver.recv_deadline(deadline)),
        None => Reply::Bare(Bare::Nothing),
    }
}

/// The instant `time` after now. `None`: the clock cannot be read, or no instant is so late.
fn later<R: Clock>(rt: &R, time: Duration) -> Option<Instant> {
    Instant::now(rt).ok()?.checked_add(time)
}

fn long_ago<R: Clock>(rt: &R) -> Option<Instant> {
    let now = Instant::now(rt).ok()?;
    // On a machine that started within the hour, the clock has no instant an hour ago.
    let earlier = now.checked_sub(far()).or(now.checked_sub(short()));
    Some(earlier.unwrap_or(now))
}

impl<Q: Eq + Drop, A: Answer<Q> + Drop, W: Wait + Clock + Drop> Receives<A> for Ticket<Q, A, W> {
    type Rt = W;

    type About = Asked<Q>;

    fn ask<R: Clock>(&mut self, _: &R, call: Ask) -> Reply<A> {
        match call {
            Ask::Closed => Reply::look(self.is_closed()),
            Ask::Try => Reply::tried(self.try_take()),
            Ask::Timeout(time) => Reply::timed(self.wait_for(time)),
            Ask::Full | Ask::Tries | Ask::Ref | Ask::Deadline(_) | Ask::PastDeadline => {
                Reply::Bare(Bare::Nothing)
            }
        }
    }

    fn received(self) -> Reply<A> {
        Reply::received(self.wait())
    }

    fn into_future(self) -> AsyncReceiver<A, W, Asked<Q>> {
        self.into_future()
    }

    fn there_and_back(self) -> Ticket<Q, A, W> {
        self
    }

    fn drop_raw(self) {
        drop(self);
    }
}
