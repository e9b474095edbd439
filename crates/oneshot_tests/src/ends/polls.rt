//! Receivers that are futures: how often they are polled, by whom, and what becomes of them.

ghost use Rattle.std.specs.Prelude.{◌≡◌};

use super::open_async;
use futures::Future;
use futures::executor::block_on;
use futures::future::join;
use futures::task::{Context, Poll};
use oneshot_asserts::{Asserts, assert_same, assert_that};
use oneshot_channel::{AsyncReceiver, RecvError, Sender};
use std::random::RandomSource;
use std::sync::Wait;
use std::sync::atomic::{AtomicU64, Ordering};
use std::thread;
use std::time::{Clock, Duration};

/// The most polls of a receiver that is polled only when its task is woken.
const MOST_POLLS: u64 = 10;

/// How often a test is tried whose receiver may be polled while its sender is about to finish.
const TRIES: u64 = 3;

/// A receiver whose polls are counted.
#[derive(Drop)]
struct CountedReceiver<'a, T, Rt> {
    receiver: AsyncReceiver<T, Rt>,
    polls: &'a AtomicU64,
}

impl<'a, T: Drop, Rt: Drop> Future for CountedReceiver<'a, T, Rt> {
    type Output = Result<T, RecvError>;

    ghost needs = { λ c s. s ≡ c.receiver.source };

    fn poll(&mut self, cx: &mut Context<'_>) -> Poll<Result<T, RecvError>> {
        let polled = self.receiver.poll(cx);
        // Counted once its task is registered, since the sender of a test waits for this count.
        self.polls.fetch_add(1, Ordering::SeqCst);
        polled
    }
}

/// Returns once a future was polled, or after some ten seconds.
fn wait_for_a_poll(rt: &impl Clock, polls: &AtomicU64) {
    for _ in 0..10_000 {
        if polls.load(Ordering::SeqCst) > 0 {
            return;
        }
        thread::sleep(rt, Duration::from_millis(1));
    }
}

/// A sender, and its receiver, whose polls are counted.
fn open_counted<'a, R: AllocGlobal + Asserts>(
    rt: &'a R,
    polls: &'a AtomicU64,
) -> (Sender<u8>, CountedReceiver<'a, u8, &'a R>) {
    let (sender, receiver) = open_async(rt, rt);
    (sender, CountedReceiver { receiver, polls })
}

/// Sends a message so many milliseconds after now. Returns whether it is sent.
fn send_after(rt: &impl Clock, millis: u64, sender: Sender<u8>, message: u8) -> bool {
    thread::sleep(rt, Duration::from_millis(millis));
    sender.send(message).is_ok()
}

/// Sends 19 some time after a future was polled. Returns whether it is sent.
fn send_to_polled(rt: &impl Clock, polls: &AtomicU64, sender: Sender<u8>) -> bool {
    wait_for_a_poll(rt, polls);
    send_after(rt, 100, sender, 19)
}

// The receiver is polled once, and again when the send wakes its task. Without that wake this test would not end, and
// a poll that wakes its own task makes hundreds of polls.
#[test]
fn a_send_of_another_thread_wakes_the_task(rt: HostRuntime) {
    let polls = AtomicU64::new(0);
    let (sender, counted) = open_counted(&rt, &polls);
    let (received, sent) = thread::join(
        &rt,
        || block_on(&rt, counted),
        || send_to_polled(&rt, &polls, sender),
    );
    let received = received.expect(&rt, "an executor");
    assert_same!(rt; (sent, received), (true, Ok(19)));
    let polls = polls.load(Ordering::SeqCst);
    assert_that!(rt; 1 < polls && polls <= MOST_POLLS, polls);
}

/// A future that polls a receiver once, and then returns it.
#[derive(Drop)]
struct Lent<T, Rt> {
    receiver: Option<AsyncReceiver<T, Rt>>,
}

impl<T: Drop, Rt: Drop> Future for Lent<T, Rt> {
    type Output = Option<AsyncReceiver<T, Rt>>;

    fn poll(&mut self, cx: &mut Context<'_>) -> Poll<Option<AsyncReceiver<T, Rt>>> {
        if let Some(receiver) = &mut self.receiver {
            // Its tests make polls that find nothing: they poll only to register the task.
            let _ = receiver.poll(cx);
        }
        Poll::Ready(self.receiver.take())
    }
}

/// Sends 1 by `first` some time after a future was polled, and then 19 by `last`. Returns whether both are sent.
fn send_to_both(rt: &impl Clock, polls: &AtomicU64, first: Sender<u8>, last: Sender<u8>) -> bool {
    wait_for_a_poll(rt, polls);
    let is_sent = send_after(rt, 100, first, 1);
    send_after(rt, 100, last, 19) && is_sent
}

/// How often two joined receivers are polled, one of which gets its message later. Fails unless both get theirs.
fn polls_of_two<R: thread::Threads + Wait + Clock + RandomSource + AllocGlobal + Asserts + Sync>(
    rt: &R,
) -> u64 {
    let polls = AtomicU64::new(0);
    let (sender, counted) = open_counted(rt, &polls);
    let (other_sender, other) = open_counted(rt, &polls);
    let (received, sent) = thread::join(
        rt,
        || block_on(rt, join(counted, other)),
        || send_to_both(rt, &polls, other_sender, sender),
    );
    let received = received.expect(rt, "an executor");
    assert_same!(rt; (sent, received), (true, (Ok(19), Ok(1))));
    let polls = polls.load(Ordering::SeqCst);
    // Both once, and the one that waits again.
    assert_that!(rt; 2 < polls, polls);
    polls
}

// A receiver keeps the copy of a waker that its channel gives back. Dropping it would wake the task, which
// would poll both receivers without end. A poll beside a sender that is about to finish is made again, on a busy
// machine often, and then the test is tried again.
#[test]
fn two_joined_receivers_are_polled_as_often_as_they_are_woken(rt: HostRuntime) {
    for _ in 0..TRIES {
        if polls_of_two(&rt) <= MOST_POLLS {
            return;
        }
    }
    panic!(rt; "two joined receivers are polled too often in each try");
}

/// Polls a receiver once on another thread, and returns it.
fn polled_there<T: Send + Drop, Rt: Send + Drop>(
    rt: &(impl thread::Threads + Wait + RandomSource + AllocGlobal + Sync),
    receiver: AsyncReceiver<T, Rt>,
) -> Option<AsyncReceiver<T, Rt>> {
    let lent = Lent {
        receiver: Some(receiver),
    };
    let (polled, ()) = thread::join(rt, move || block_on(rt, lent), || ());
    polled.ok()?
}

#[test]
fn two_threads_and_two_executors_poll_one_receiver(rt: HostRuntime) {
    let (sender, receiver) = open_async(&rt, &rt);
    let receiver = polled_there(&rt, receiver).expect(&rt, "the first poll returns the receiver");
    let receiver = polled_there(&rt, receiver).expect(&rt, "the second poll returns the receiver");
    let (received, sent) = thread::join(
        &rt,
        || block_on(&rt, receiver),
        || send_after(&rt, 20, sender, 19),
    );
    let received = received.expect(&rt, "an executor");
    assert_same!(rt; (received, sent), (Ok(19), true));
}

#[test]
fn a_message_that_was_sent_before_is_ready_at_once(rt: HostRuntime) {
    let polls = AtomicU64::new(0);
    let (sender, counted) = open_counted(&rt, &polls);
    assert!(rt; sender.send(19).is_ok());
    let received = block_on(&rt, counted).expect(&rt, "an executor");
    assert_same!(rt; (received, polls.load(Ordering::SeqCst)), (Ok(19), 1));
}
