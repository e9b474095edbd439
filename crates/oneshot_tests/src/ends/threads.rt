//! What threads share: a sender, a raw sender, and the error of a refused message.

use super::open;
use super::refused::refused;
use oneshot_asserts::assert_same;
use oneshot_channel::{RawSender, SendError, Sender};
use std::mem::size_of_val;
use std::thread::{Threads, join};

// What two threads see when they look at one sender.
fn two_looks<T: Send + Sync>(rt: &impl Threads, sender: &Sender<T>) -> (bool, bool) {
    join(rt, || sender.is_closed(), || sender.is_closed())
}

#[test]
fn two_threads_look_at_one_sender(rt: HostRuntime) {
    let (sender, receiver) = open::<u8, _>(&rt, ());
    let before = two_looks(&rt, &sender);
    drop(receiver);
    let after = two_looks(&rt, &sender);
    assert_same!(rt; (before, after), ((false, false), (true, true)));
}

// What two threads read from one error.
fn two_readings<T: Copy + Send + Sync + Drop>(rt: &impl Threads, error: &SendError<T>) -> (T, T) {
    join(rt, || *error.as_inner(), || *error.as_inner())
}

// The message that another thread takes out of an error.
fn taken_there<T: Send + Drop>(rt: &impl Threads, error: SendError<T>) -> T {
    let (message, ()) = join(rt, move || error.into_inner(), || ());
    message
}

#[test]
fn an_error_is_read_and_emptied_by_other_threads(rt: HostRuntime) {
    let error = refused(&rt);
    let read = two_readings(&rt, &error);
    assert_same!(rt; (read, taken_there(&rt, error)), ((5, 5), 5));
}

// The size in bytes that two threads see of a raw sender, which has no call.
fn two_sights<T: Send + Sync>(rt: &impl Threads, raw: &RawSender<T>) -> (usize, usize) {
    join(rt, || size_of_val(raw), || size_of_val(raw))
}

#[test]
fn two_threads_share_a_raw_sender(rt: HostRuntime) {
    let (sender, receiver) = open::<u8, _>(&rt, ());
    let raw = sender.into_raw();
    let size = size_of_val(&raw);
    let sights = two_sights(&rt, &raw);
    let is_sent = Sender::from_raw(raw).send(5).is_ok();
    assert_same!(rt;
        (sights, is_sent, receiver.has_message()),
        ((size, size), true, true)
    );
}
