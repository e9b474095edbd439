//! Two threads and two channels: one thread sends and then receives, the other receives and then sends.

use super::answers::{Outcome, assert_answers};
use super::channels::{channels, paired};
use super::races::race;
use super::receives::Script;
use oneshot_asserts::Asserts;
use oneshot_calls::{Bare, Reply};
use oneshot_channel::{Receiver, Sender};
use std::random::RandomSource;
use std::sync::Wait;
use std::thread::Threads;
use std::time::Clock;

const ROUNDS: u64 = 1_000;

fn if_sent(sent: bool, received: Reply<u64>) -> Reply<u64> {
    if sent {
        received
    } else {
        Reply::Bare(Bare::Refused)
    }
}

/// Sends 1, and then receives.
fn send_and_receive<R: Wait + Clock + RandomSource + AllocGlobal>(
    rt: &R,
    receives: &Script<'_>,
    sender: Sender<u64>,
    receiver: Receiver<u64, &R>,
) -> Reply<u64> {
    let sent = sender.send(1).is_ok();
    if_sent(sent, receives.receive(rt, receiver))
}

/// Receives, and then sends 2.
fn receive_and_send<R: Wait + Clock + RandomSource + AllocGlobal>(
    rt: &R,
    receives: &Script<'_>,
    sender: Sender<u64>,
    receiver: Receiver<u64, &R>,
) -> Reply<u64> {
    let received = receives.receive(rt, receiver);
    if_sent(sender.send(2).is_ok(), received)
}

/// What both threads return in each round.
fn race_both<R: Threads + Wait + Asserts + Clock + AllocGlobal + RandomSource + Sync>(
    rt: &R,
) -> (Vec<Outcome<Reply<u64>>>, Vec<Outcome<Reply<u64>>>) {
    let receives = Script::new(rt, "longtimeout");
    let (to_other, from_one) = channels(rt, ROUNDS);
    let (to_one, from_other) = channels(rt, ROUNDS);
    race(
        rt,
        paired(rt, to_other, from_other),
        paired(rt, to_one, from_one),
        |(sender, receiver)| send_and_receive(rt, &receives, sender, receiver),
        |(sender, receiver)| receive_and_send(rt, &receives, sender, receiver),
    )
}

#[test]
fn each_thread_gets_the_message_of_the_other(rt: HostRuntime) {
    let (ones, others) = race_both(&rt);
    assert_answers(&rt, "the one", &ones, &["Ok(2)"]);
    assert_answers(&rt, "the other", &others, &["Ok(1)"]);
}
