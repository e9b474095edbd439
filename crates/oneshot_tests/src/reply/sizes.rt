//! Messages and replies of no size and of 4,096 bytes.

ghost use Rattle.std.specs.Prelude.{◌≡◌};

use crate::ends::open_async;
use futures::executor::block_on;
use oneshot_asserts::{Asserts, assert_same};
use oneshot_channel::reply::{Answer, Ticket, request};
use std::fmt::Debug;
use std::random::RandomSource;
use std::sync::Wait;
use std::time::{Clock, Duration};

/// An answer that repeats its question.
#[derive(Drop)]
struct Echo<Q> {
    question: Q,
}

impl<Q> Answer<Q> for Echo<Q> {
    ghost use Rattle.std.specs.Prelude.{◌≡◌};
    ghost use Rattle.std.proofs.Common.{refl};

    ghost asked = { λ echo. echo.question };

    ghost answers = { λ question echo. echo.question ≡ question };

    ghost is_right = { λ _. refl };

    fn question(&self) -> &Q {
        &self.question
    }
}

fn question_of<Q: Drop>(echo: Echo<Q>) -> Q {
    echo.question
}

/// A ticket whose reply has come.
fn answered<'r, R: AllocGlobal + Asserts, Q: Copy + Eq + Send + Drop>(
    rt: &'r R,
    question: Q,
) -> Ticket<Q, Echo<Q>, &'r R> {
    let Ok((request, ticket)) = request(rt, rt.alloc(), question) else {
        panic!(rt; "memory")
    };
    let echo = Echo {
        question: *request.question(),
    };
    assert!(rt; request.fits(&echo) && request.answer(echo).is_ok());
    ticket
}

/// Sends `message`. Fails unless `wanted` comes by `try_recv` of a future.
fn assert_message_comes<R: AllocGlobal + Asserts, Q: Copy + Debug + Eq + Send + Drop>(
    rt: &R,
    message: Q,
    wanted: Q,
) {
    let (sender, mut receiver) = open_async(rt, ());
    assert!(rt; sender.send(message).is_ok());
    assert_same!(rt; receiver.try_recv(), Ok(wanted));
}

/// Asks `question`. Fails unless `wanted` comes by each call of a ticket.
fn assert_reply_comes<
    R: AllocGlobal + Wait + Clock + RandomSource + Asserts,
    Q: Copy + Debug + Eq + Send + Drop,
>(rt: &R, question: Q, wanted: Q) {
    let taken = answered(rt, question).try_take().map(question_of);
    let timed = answered(rt, question).wait_for(Duration::ZERO);
    let tried = answered(rt, question).into_future().try_recv();
    assert_same!(rt;
        (taken, timed.map(question_of), tried.map(question_of)),
        (Ok(wanted), Ok(wanted), Ok(wanted))
    );
    assert_awaited_reply_comes(rt, question, wanted);
}

/// Asks `question`. Fails unless `wanted` comes by `wait` of a ticket, and of a future by `block_on`.
fn assert_awaited_reply_comes<
    R: AllocGlobal + Wait + Clock + RandomSource + Asserts,
    Q: Copy + Debug + Eq + Send + Drop,
>(rt: &R, question: Q, wanted: Q) {
    let waited = answered(rt, question).wait().map(question_of);
    let awaited = block_on(rt, answered(rt, question).into_future());
    let awaited = awaited.expect(rt, "an executor").map(question_of);
    assert_same!(rt; (waited, awaited), (Ok(wanted), Ok(wanted)));
}

/// Sends and asks `question`. Fails unless `wanted` comes by `try_recv` of a future, and by each call of a ticket.
fn assert_comes<
    R: AllocGlobal + Wait + Clock + RandomSource + Asserts,
    Q: Copy + Debug + Eq + Send + Drop,
>(rt: &R, question: Q, wanted: Q) {
    assert_message_comes(rt, question, wanted);
    assert_reply_comes(rt, question, wanted);
}

#[test]
fn a_reply_of_no_size_comes(rt: HostRuntime) {
    assert_comes(&rt, (), ());
}

#[test]
fn a_reply_of_a_page_comes_whole(rt: HostRuntime) {
    let mut page = [0u8; 4096];
    for (place, byte) in page.iter_mut().enumerate() {
        *byte = (place % 251) as u8;
    }
    assert_comes(&rt, page, page);
}

#[test]
#[should_panic(expected = "right: Ok(2)")]
fn another_message_ends_a_test(rt: HostRuntime) {
    assert_comes(&rt, 1u8, 2);
}

#[test]
#[should_panic(expected = "right: (Ok(2), Ok(2), Ok(2))")]
fn another_reply_ends_a_test(rt: HostRuntime) {
    assert_reply_comes(&rt, 1u8, 2);
}
