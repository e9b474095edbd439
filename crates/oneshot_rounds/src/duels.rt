//! The script of a receiver that races with its sender's, in many rounds.

use super::answers::{Outcome, assert_answers, assert_both_orders};
use super::channels::{beside, channels};
use super::counted::{Counted, Drops};
use super::races::race;
use super::receives::Script;
use oneshot_asserts::Asserts;
use oneshot_calls::{Reply, SenderCall, Sending, script};
use oneshot_channel::Sender;
use std::random::RandomSource;
use std::sync::Wait;
use std::sync::atomic::AtomicU64;
use std::thread::Threads;
use std::time::Clock;

const ROUNDS: u64 = 10_000;

fn send_by<'a>(
    calls: &[SenderCall],
    drops: &'a AtomicU64,
    sender: Sender<Counted<'a>>,
) -> Reply<u64> {
    let sending = Sending::new(sender, Some(Counted::new(drops)));
    sending.make_all(calls).numbered()
}

/// What both sides return in each round. The drops of each round's message are counted in `drops`.
fn race_by_scripts<R: Threads + Wait + Asserts + Clock + AllocGlobal + RandomSource + Sync>(
    rt: &R,
    drops: &Drops,
    sends: &str,
    receives: &str,
) -> (Vec<Outcome<Reply<u64>>>, Vec<Outcome<Reply<u64>>>) {
    let sends = script::<SenderCall>(rt.alloc(), sends).expect(rt, "a script");
    let receives = Script::new(rt, receives);
    let (senders, receivers) = channels(rt, ROUNDS);
    race(
        rt,
        beside(rt, drops.counts(), senders),
        receivers,
        |(drops, sender)| send_by(&sends, drops, sender),
        |receiver| receives.receive(rt, receiver).numbered(),
    )
}

/// Makes the calls of both scripts in each round, with a message of 999. Returns the outcomes of the sender. Fails
/// unless the last call of each script returns each of these texts often, and no other, and each message is dropped
/// once.
pub(super) fn duel<R: Threads + Wait + Asserts + Clock + AllocGlobal + RandomSource + Sync>(
    rt: &R,
    sends: &str,
    receives: &str,
    sent: &[&str],
    received: &[&str],
) -> Vec<Outcome<Reply<u64>>> {
    let drops = Drops::new(rt, ROUNDS);
    let (ones, others) = race_by_scripts(rt, &drops, sends, receives);
    assert_answers(rt, ("sender", sends, receives), &ones, sent);
    assert_answers(rt, ("receiver", sends, receives), &others, received);
    drops.assert_once(rt, (sends, receives));
    assert_both_orders(rt, (sends, receives), &others);
    ones
}
