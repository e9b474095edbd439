//! The tests of `tests/miri.rs`: each use of a sender races with each use of a receiver, in many rounds.

use super::threads::{Act, By, assert_raced};

const SEND: Act<i32> = Act("send into", 999);

const DROP: Act<i32> = Act("drop", 999);

#[test]
fn tx_send_rx_drop(rt: HostRuntime) {
    let outcomes = [("Ok", "dropped"), ("999", "dropped")];
    assert_raced(&rt, SEND, By::Receiver("drop"), &outcomes);
}

#[test]
fn tx_send_rx_recv_done(rt: HostRuntime) {
    assert_raced(&rt, SEND, By::Receiver("recv"), &[("Ok", "Ok(999)")]);
}

#[test]
fn tx_send_rx_recv_ref(rt: HostRuntime) {
    assert_raced(&rt, SEND, By::Receiver("ref"), &[("Ok", "Ok(999)")]);
}

#[test]
fn tx_send_rx_recv_timeout(rt: HostRuntime) {
    assert_raced(&rt, SEND, By::Receiver("longtimeout"), &[("Ok", "Ok(999)")]);
}

#[test]
fn tx_send_rx_try_recv_to_completion(rt: HostRuntime) {
    assert_raced(&rt, SEND, By::Receiver("tries"), &[("Ok", "Ok(999)")]);
}

#[test]
fn tx_send_rx_try_recv_then_drop(rt: HostRuntime) {
    let outcomes = [
        ("Ok", "Ok(999)"),
        ("Ok", "Err(Empty)"),
        ("999", "Err(Empty)"),
    ];
    assert_raced(&rt, SEND, By::Receiver("try"), &outcomes);
}

#[test]
fn tx_send_rx_poll_to_completion(rt: HostRuntime) {
    assert_raced(&rt, SEND, By::Future("polls"), &[("Ok", "Ready(Ok(999))")]);
}

#[test]
fn tx_send_rx_poll_then_drop(rt: HostRuntime) {
    let outcomes = [
        ("Ok", "Ready(Ok(999))"),
        ("Ok", "Pending"),
        ("999", "Pending"),
    ];
    assert_raced(&rt, SEND, By::Future("poll1"), &outcomes);
}

// As in the original, the test only asserts that both threads end.
#[test]
fn tx_drop_rx_drop(rt: HostRuntime) {
    assert_raced(&rt, DROP, By::Receiver("drop"), &[("dropped", "dropped")]);
}

#[test]
fn tx_drop_rx_recv_done(rt: HostRuntime) {
    let outcomes = [("dropped", "Err(RecvError)")];
    assert_raced(&rt, DROP, By::Receiver("recv"), &outcomes);
}

#[test]
fn tx_drop_rx_recv_ref(rt: HostRuntime) {
    let outcomes = [("dropped", "Err(RecvError)")];
    assert_raced(&rt, DROP, By::Receiver("ref"), &outcomes);
}

#[test]
fn tx_drop_rx_recv_timeout(rt: HostRuntime) {
    let outcomes = [("dropped", "Err(Disconnected)")];
    assert_raced(&rt, DROP, By::Receiver("longtimeout"), &outcomes);
}

#[test]
fn tx_drop_rx_try_recv_to_completion(rt: HostRuntime) {
    let outcomes = [("dropped", "Err(Disconnected)")];
    assert_raced(&rt, DROP, By::Receiver("tries"), &outcomes);
}

#[test]
fn tx_drop_rx_try_recv_then_drop(rt: HostRuntime) {
    let outcomes = [("dropped", "Err(Empty)"), ("dropped", "Err(Disconnected)")];
    assert_raced(&rt, DROP, By::Receiver("try"), &outcomes);
}

#[test]
fn tx_drop_rx_poll_to_completion(rt: HostRuntime) {
    let outcomes = [("dropped", "Ready(Err(RecvError))")];
    assert_raced(&rt, DROP, By::Future("polls"), &outcomes);
}

#[test]
fn tx_drop_rx_poll_then_drop(rt: HostRuntime) {
    let outcomes = [("dropped", "Pending"), ("dropped", "Ready(Err(RecvError))")];
    assert_raced(&rt, DROP, By::Future("poll1"), &outcomes);
}
