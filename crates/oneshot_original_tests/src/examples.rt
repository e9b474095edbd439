//! The programs of `examples/`, each as a test that runs it once.

use super::ends::{ends, idle_ends};
use super::threads::{Act, By, Pace, assert_outcomes};
use oneshot_asserts::assert_same;

/// The sender acts once, after a while in which the receiver begins to wait.
const ONCE: Pace = Pace {
    rounds: 1,
    pause: 2,
};

const SEND: Act<u128> = Act("send into", 9);

const DROP: Act<u128> = Act("drop", 9);

#[test]
fn send_with_dropped_receiver(rt: HostRuntime) {
    let (sender, receiver) = idle_ends(&rt);
    drop(receiver);
    let refused = sender.send(5u128).err().expect(&rt, "an error");
    assert_same!(rt; refused.into_inner(), 5);
}

#[test]
fn send_before_recv(rt: HostRuntime) {
    let (sender, receiver) = ends(&rt);
    assert!(rt; sender.send(19i128).is_ok());
    assert_same!(rt; receiver.recv(), Ok(19));
}

#[test]
fn recv_before_send(rt: HostRuntime) {
    assert_outcomes(&rt, ONCE, SEND, By::Receiver("recv"), &[("Ok", "Ok(9)")]);
}

#[test]
fn recv_before_send_then_drop_sender(rt: HostRuntime) {
    let outcomes = [("dropped", "Err(RecvError)")];
    assert_outcomes(&rt, ONCE, DROP, By::Receiver("recv"), &outcomes);
}

#[test]
fn recv_ref_before_send(rt: HostRuntime) {
    assert_outcomes(&rt, ONCE, SEND, By::Receiver("ref"), &[("Ok", "Ok(9)")]);
}

#[test]
fn recv_ref_before_send_then_drop_sender(rt: HostRuntime) {
    let outcomes = [("dropped", "Err(RecvError)")];
    assert_outcomes(&rt, ONCE, DROP, By::Receiver("ref"), &outcomes);
}

#[test]
fn recv_timeout_before_send(rt: HostRuntime) {
    let outcomes = [("Ok", "Ok(9)")];
    assert_outcomes(&rt, ONCE, SEND, By::Receiver("longtimeout"), &outcomes);
}

#[test]
fn recv_timeout_before_send_then_drop_sender(rt: HostRuntime) {
    let outcomes = [("dropped", "Err(Disconnected)")];
    assert_outcomes(&rt, ONCE, DROP, By::Receiver("longtimeout"), &outcomes);
}
