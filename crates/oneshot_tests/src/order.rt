//! What an end does before it drops a question or a runtime, whose drop may be code of the caller and may wait for the
//! other end: it tells that end, and wakes the tasks whose wakers it has.

use crate::ends::open_async;
use futures::task::Poll;
use futures::test::MockTask;
use oneshot_asserts::{Asserts, assert_same};
use oneshot_channel::AsyncReceiver;
use oneshot_channel::reply::{Answer, Request, Ticket, request};
use std::random::RandomSource;
use std::sync::atomic::{AtomicU64, Ordering};

/// A task, and what a drop saw of it: 0 before the drop, 1 if the task was not woken, and 2 if it was.
#[derive(Clone, Copy)]
struct Seen<'a> {
    task: &'a MockTask,
    woken: &'a AtomicU64,
}

impl Seen<'_> {
    fn look(self) {
        let woken = if self.task.is_woken() { 2 } else { 1 };
        self.woken.store(woken, Ordering::SeqCst);
    }
}

/// A question whose drop looks at a task.
#[derive_where(PartialEq, Eq)]
struct Asking<'a> {
    number: u64,
    #[derive_where(skip(EqHashOrd))]
    seen: Option<Seen<'a>>,
}

impl Drop for Asking<'_> {
    fn drop(self) {
        let Asking { number: _, seen } = self;
        if let Some(seen) = seen {
            seen.look();
        }
    }
}

/// A reply that names a question.
#[derive(Drop)]
struct Told<'a> {
    question: Asking<'a>,
}

impl<'a> Answer<Asking<'a>> for Told<'a> {
    ghost use Rattle.std.specs.Prelude.{⊤};

    ghost asked = { λ told. told.question };

    ghost answers = { λ _ _. ⊤ };

    ghost is_right = { λ _. tt };

    fn question(&self) -> &Asking<'a> {
        &self.question
    }
}

/// A request whose question's drop looks at a task, and its ticket.
fn ask<'a>(
    rt: &(impl AllocGlobal + Asserts),
    seen: Seen<'a>,
) -> (
    Request<Asking<'a>, Told<'a>>,
    Ticket<Asking<'a>, Told<'a>, ()>,
) {
    let asking = Asking {
        number: 3,
        seen: Some(seen),
    };
    request((), rt.alloc(), asking).ok().expect(rt, "memory")
}

/// Answers with a reply whose own question looks at nothing. Returns whether the reply is sent.
fn answer<'a>(request: Request<Asking<'a>, Told<'a>>) -> bool {
    let told = Told {
        question: Asking {
            number: 3,
            seen: None,
        },
    };
    request.fits(&told) && request.answer(told).is_ok()
}

/// How a request ends.
enum End {
    Answered,
    Dropped,
    /// Dropped, but reported as failed.
    Failed,
}

/// Ends a request in this way. Returns whether that succeeded.
fn end_by<'a>(end: End, request: Request<Asking<'a>, Told<'a>>) -> bool {
    match end {
        End::Answered => answer(request),
        End::Dropped => {
            drop(request);
            true
        }
        End::Failed => {
            drop(request);
            false
        }
    }
}

/// Ends a request for a reply that the task awaits. Fails unless the drop of its question finds the task woken.
fn assert_seen_woken(rt: &(impl AllocGlobal + Asserts), seen: Seen<'_>, end: End) {
    let (request, ticket) = ask(rt, seen);
    let mut reply = ticket.into_future();
    let is_pending = matches!(seen.task.poll(&mut reply), Poll::Pending);
    let before = seen.task.is_woken();
    let is_ended = end_by(end, request);
    assert_same!(rt;
        (
            is_pending,
            before,
            is_ended,
            seen.woken.load(Ordering::SeqCst)
        ),
        (true, false, true, 2)
    );
}

fn new_task(rt: &(impl RandomSource + AllocGlobal + Asserts)) -> MockTask {
    MockTask::new(rt).expect(rt, "a task")
}

/// Fails unless a request that ends so wakes the task that awaits its reply before its question goes.
fn assert_woken_first(rt: &(impl RandomSource + AllocGlobal + Asserts), end: End) {
    let (task, woken) = (new_task(rt), AtomicU64::new(0));
    let seen = Seen {
        task: &task,
        woken: &woken,
    };
    assert_seen_woken(rt, seen, end);
}

#[test]
#[should_panic(expected = "left: (true, false, false, 2)")]
fn an_end_that_fails_ends_a_test(rt: HostRuntime) {
    assert_woken_first(&rt, End::Failed);
}

#[test]
fn a_dropped_request_tells_its_ticket_before_its_question_goes(rt: HostRuntime) {
    assert_woken_first(&rt, End::Dropped);
}

#[test]
fn a_reply_is_sent_before_its_question_goes(rt: HostRuntime) {
    assert_woken_first(&rt, End::Answered);
}

/// The runtime of a future. Its drop looks at a task.
struct Late<'a> {
    seen: Seen<'a>,
}

impl Drop for Late<'_> {
    fn drop(self) {
        let Late { seen } = self;
        seen.look();
    }
}

/// Has one task poll twice, and then the other. Fails unless each poll is pending. The future then keeps a waker of
/// `one`, and the channel one of `other`.
fn poll_by_both(
    rt: &impl Asserts,
    future: &mut AsyncReceiver<u8, Late<'_>>,
    one: &MockTask,
    other: &MockTask,
) {
    let polled = (one.poll(future), one.poll(future), other.poll(future));
    assert_same!(rt; polled, (Poll::Pending, Poll::Pending, Poll::Pending));
}

#[test]
fn a_dropped_future_wakes_its_tasks_before_its_runtime_goes(rt: HostRuntime) {
    let (one, two) = (new_task(&rt), new_task(&rt));
    let woken = AtomicU64::new(0);
    let seen = Seen {
        task: &one,
        woken: &woken,
    };
    let (_sender, mut future) = open_async::<u8, _>(&rt, Late { seen });
    poll_by_both(&rt, &mut future, &one, &two);
    one.enter(|_| ());
    let before = one.is_woken();
    drop(future);
    assert_same!(rt; (before, woken.load(Ordering::SeqCst)), (false, 2));
}
