//! Each receive beside a `send` of 999.

use super::duels::duel;
use super::receives::BLOCKING;

#[test]
fn a_drop_refuses_the_message_or_drops_it(rt: HostRuntime) {
    duel(&rt, "send into", "drop", &["Ok", "999"], &["dropped"]);
}

#[test]
fn each_wait_gives_the_message(rt: HostRuntime) {
    for receives in BLOCKING {
        duel(&rt, "send into", receives, &["Ok"], &["Ok(999)"]);
    }
}

#[test]
fn tries_get_the_message_at_last(rt: HostRuntime) {
    duel(&rt, "send into", "tries", &["Ok"], &["Ok(999)"]);
}

#[test]
fn each_poll_gives_the_message(rt: HostRuntime) {
    let polls = [
        ("future polls", "Ready(Ok(999))"),
        ("future await", "Ok(999)"),
    ];
    for (receives, received) in polls {
        duel(&rt, "send into", receives, &["Ok"], &[received]);
    }
}

#[test]
fn one_try_or_poll_gets_the_message_or_nothing(rt: HostRuntime) {
    let tried = ["Ok(999)", "Err(Empty)"];
    duel(&rt, "send into", "try", &["Ok", "999"], &tried);
    let polled = ["Ready(Ok(999))", "Pending"];
    duel(&rt, "send into", "future poll1", &["Ok", "999"], &polled);
}
