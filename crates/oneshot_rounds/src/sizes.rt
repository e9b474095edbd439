//! Messages of no size and of 4,096 bytes, by each script of `receives` and by a deadline.

use super::answers::{Outcome, assert_answers};
use super::channels::channels;
use super::races::race;
use super::receives::{BLOCKING, Script, TRYING};
use oneshot_asserts::Asserts;
use oneshot_channel::{Receiver, Sender};
use std::random::RandomSource;
use std::sync::Wait;
use std::thread::Threads;
use std::time::Clock;

const ROUNDS: u64 = 100;

// A function: in a closure this takes a minute longer to prove.
fn is_sent<T: Send + Drop>(sender: Sender<T>, message: T) -> bool {
    sender.send(message).is_ok()
}

fn is_received<R: Wait + Clock + RandomSource + AllocGlobal, T: Copy + PartialEq + Send>(
    rt: &R,
    receives: &Script<'_>,
    receiver: Receiver<T, &R>,
    message: T,
) -> bool {
    receives.receive(rt, receiver).message() == Some(message)
}

// What both sides return: whether each `message` was sent, and whether `wanted` came.
fn race_with<
    R: Threads + Wait + Asserts + Clock + AllocGlobal + RandomSource + Sync,
    T: Copy + PartialEq + Send + Sync,
>(rt: &R, receives: &str, message: T, wanted: T) -> (Vec<Outcome<bool>>, Vec<Outcome<bool>>) {
    let receives = Script::new(rt, receives);
    let (senders, receivers) = channels(rt, ROUNDS);
    race(
        rt,
        senders,
        receivers,
        |sender| is_sent(sender, message),
        |receiver| is_received(rt, &receives, receiver, wanted),
    )
}

// Sends `message` in each round. Fails unless `wanted` comes.
fn assert_comes<
    R: Threads + Wait + Asserts + Clock + AllocGlobal + RandomSource + Sync,
    T: Copy + PartialEq + Send + Sync,
>(rt: &R, receives: &str, message: T, wanted: T) {
    let (sends, receipts) = race_with(rt, receives, message, wanted);
    assert_answers(rt, ("send beside", receives), &sends, &["true"]);
    assert_answers(rt, receives, &receipts, &["true"]);
}

// Fails unless `message` comes by each receive. The first has a limit of ten seconds, and so fails if its wake is lost.
fn assert_comes_by_every_receive<
    R: Threads + Wait + Asserts + Clock + AllocGlobal + RandomSource + Sync,
    T: Copy + PartialEq + Send + Sync,
>(rt: &R, message: T) {
    for receives in BLOCKING {
        assert_comes(rt, receives, message, message);
    }
    for receives in TRYING {
        assert_comes(rt, receives, message, message);
    }
    assert_comes(rt, "longdeadline", message, message);
}

#[test]
fn a_message_of_no_size_comes(rt: HostRuntime) {
    assert_comes_by_every_receive(&rt, ());
}

#[test]
fn a_message_of_a_page_comes_whole(rt: HostRuntime) {
    let mut page = [0u8; 4096];
    for (place, byte) in page.iter_mut().enumerate() {
        *byte = (place % 251) as u8;
    }
    assert_comes_by_every_receive(&rt, page);
}

#[test]
#[should_panic(expected = "false, \"came\")")]
fn a_message_that_does_not_come_ends_a_test(rt: HostRuntime) {
    assert_comes(&rt, "drop", 1u8, 1);
}

#[test]
#[should_panic(expected = "(\"recv\", false, \"came\")")]
fn another_message_ends_a_test(rt: HostRuntime) {
    assert_comes(&rt, "recv", 1u8, 2);
}
