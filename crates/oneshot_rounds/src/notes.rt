//! A receiver's thread sees after its receive what the sender's thread wrote elsewhere before its `send`.

use super::answers::{Outcome, assert_answers, assert_both_orders};
use super::channels::{beside, channels};
use super::races::race;
use super::receives::{BLOCKING, Script, TRYING};
use oneshot_asserts::{Asserts, assert_same};
use oneshot_channel::{Receiver, Sender};
use std::random::RandomSource;
use std::sync::Wait;
use std::sync::atomic::{AtomicU64, Ordering};
use std::thread::Threads;
use std::time::Clock;

const ROUNDS: u64 = 1_000;

/// A round, which both sides share.
#[derive(Drop)]
struct Round {
    /// Counted from 1.
    number: u64,
    /// Where the sender's side writes the number.
    note: AtomicU64,
}

impl Round {
    /// Fails unless the note has the number after these receives.
    fn assert_noted(&self, rt: &impl Asserts, receives: &str) {
        let noted = self.note.load(Ordering::SeqCst);
        assert_same!(rt; (receives, noted), (receives, self.number));
    }
}

fn make_rounds(rt: &(impl AllocGlobal + Asserts)) -> Vec<Round> {
    let mut rounds = Vec::new(rt.alloc());
    for number in 1..=ROUNDS {
        let note = AtomicU64::new(0);
        rounds.push(Round { number, note }).expect(rt, "memory");
    }
    rounds
}

/// Writes the note of a round, and then sends.
fn write_and_send(round: &Round, sender: Sender<()>) -> bool {
    round.note.store(round.number, Ordering::SeqCst);
    sender.send(()).is_ok()
}

/// Receives, and fails unless the note of the round is there then. Returns whether a message came.
fn receive_and_look<R: Wait + Clock + RandomSource + AllocGlobal + Asserts>(
    rt: &R,
    receives: &Script<'_>,
    round: &Round,
    receiver: Receiver<(), &R>,
) -> bool {
    let reply = receives.receive(rt, receiver);
    round.assert_noted(rt, receives.text);
    reply.message().is_some()
}

// What both sides return: whether each message was sent, and whether it came.
fn race_over<R: Threads + Wait + Asserts + Clock + AllocGlobal + RandomSource + Sync>(
    rt: &R,
    rounds: &[Round],
    receives: &str,
) -> (Vec<Outcome<bool>>, Vec<Outcome<bool>>) {
    let receives = Script::new(rt, receives);
    let (senders, receivers) = channels(rt, ROUNDS);
    race(
        rt,
        beside(rt, rounds, senders),
        beside(rt, rounds, receivers),
        |(round, sender)| write_and_send(round, sender),
        |(round, receiver)| receive_and_look(rt, &receives, round, receiver),
    )
}

// Fails unless after each receive its round's note has the number that the sender wrote there.
fn assert_finds_notes<R: Threads + Wait + Asserts + Clock + AllocGlobal + RandomSource + Sync>(
    rt: &R,
    receives: &str,
) {
    let rounds = make_rounds(rt);
    let (sends, receipts) = race_over(rt, &rounds, receives);
    assert_answers(rt, ("send beside", receives), &sends, &["true"]);
    assert_answers(rt, receives, &receipts, &["true"]);
    assert_both_orders(rt, receives, &receipts);
}

#[test]
fn each_wait_comes_after_the_note(rt: HostRuntime) {
    for receives in BLOCKING {
        assert_finds_notes(&rt, receives);
    }
}

#[test]
#[should_panic(expected = "right: (\"recv\", 7)")]
fn a_note_that_is_not_there_ends_a_test(rt: HostRuntime) {
    let note = AtomicU64::new(0);
    Round { number: 7, note }.assert_noted(&rt, "recv");
}

// A call that waits for nothing gets no message, and comes before the note in many rounds.
#[test]
#[should_panic(expected = "left: (\"drop\", 0)")]
fn a_use_that_waits_for_nothing_ends_a_test(rt: HostRuntime) {
    assert_finds_notes(&rt, "drop");
}

#[test]
fn each_try_and_poll_comes_after_the_note(rt: HostRuntime) {
    for receives in TRYING {
        assert_finds_notes(&rt, receives);
    }
}
