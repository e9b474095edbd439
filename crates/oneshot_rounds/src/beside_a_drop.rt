//! Each receive beside the sender's drop.

use super::answers::assert_both_orders;
use super::duels::duel;

#[test]
fn both_drops_end(rt: HostRuntime) {
    let dropped = duel(&rt, "drop", "drop", &["dropped"], &["dropped"]);
    assert_both_orders(&rt, "drop", &dropped);
}

#[test]
fn each_wait_returns_that_no_message_will_come(rt: HostRuntime) {
    let waits = [
        ("longtimeout", "Err(Disconnected)"),
        ("recv", "Err(RecvError)"),
        ("ref", "Err(RecvError)"),
    ];
    for (receives, received) in waits {
        duel(&rt, "drop", receives, &["dropped"], &[received]);
    }
}

#[test]
fn tries_return_at_last_that_no_message_will_come(rt: HostRuntime) {
    duel(&rt, "drop", "tries", &["dropped"], &["Err(Disconnected)"]);
}

#[test]
fn each_poll_returns_that_no_message_will_come(rt: HostRuntime) {
    let polls = [
        ("future polls", "Ready(Err(RecvError))"),
        ("future await", "Err(RecvError)"),
    ];
    for (receives, received) in polls {
        duel(&rt, "drop", receives, &["dropped"], &[received]);
    }
}

#[test]
fn one_try_or_poll_finds_the_drop_or_nothing(rt: HostRuntime) {
    let tried = ["Err(Disconnected)", "Err(Empty)"];
    duel(&rt, "drop", "try", &["dropped"], &tried);
    let polled = ["Ready(Err(RecvError))", "Pending"];
    duel(&rt, "drop", "future poll1", &["dropped"], &polled);
}
