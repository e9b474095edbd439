//! The tests of `tests/raw.rs`: ends made into raw values, and into ends again.

use super::ends::idle_ends;
use oneshot::{Receiver, Sender};
use oneshot_asserts::assert_same;

#[test]
fn test_raw_sender(rt: HostRuntime) {
    let (sender, mut receiver) = idle_ends(&rt);
    let sender = Sender::from_raw(sender.into_raw());
    assert!(rt; sender.send(100u32).is_ok());
    assert_same!(rt; receiver.try_recv(), Ok(100));
}

#[test]
fn test_raw_receiver(rt: HostRuntime) {
    let (sender, receiver) = idle_ends(&rt);
    let opaque = receiver.into_raw();
    assert!(rt; sender.send(100u32).is_ok());
    let mut receiver = Receiver::from_raw(opaque);
    assert_same!(rt; receiver.try_recv(), Ok(100));
}

#[test]
fn test_raw_sender_and_receiver(rt: HostRuntime) {
    let (sender, receiver) = idle_ends(&rt);
    let ends = (sender.into_raw(), receiver.into_raw());
    assert!(rt; Sender::from_raw(ends.0).send(100u32).is_ok());
    assert_same!(rt; Receiver::from_raw(ends.1).try_recv(), Ok(100));
}
