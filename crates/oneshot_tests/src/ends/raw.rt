//! Raw ends that go to other threads.

use super::open;
use oneshot_asserts::assert_same;
use oneshot_channel::{RawReceiver, RawSender, Receiver, Sender};
use std::thread::{Threads, join};

/// Moves a value to another thread, which returns it.
pub fn there_and_back<A: Send + Drop>(rt: &impl Threads, value: A) -> A {
    let (value, ()) = join(rt, move || value, || ());
    value
}

// Moves both raw ends to another thread and back, whatever they carry.
fn both_there_and_back<T: Send + Drop, Rt: Send + Drop>(
    rt: &impl Threads,
    sender: RawSender<T>,
    receiver: RawReceiver<T, Rt>,
) -> (RawSender<T>, RawReceiver<T, Rt>) {
    (there_and_back(rt, sender), there_and_back(rt, receiver))
}

#[test]
fn raw_ends_go_to_other_threads_and_back(rt: HostRuntime) {
    let (sender, receiver) = open::<u32, _>(&rt, ());
    let (sender, receiver) = both_there_and_back(&rt, sender.into_raw(), receiver.into_raw());
    let is_sent = Sender::from_raw(sender).send(100).is_ok();
    assert_same!(rt;
        (is_sent, Receiver::from_raw(receiver).try_recv()),
        (true, Ok(100))
    );
}
