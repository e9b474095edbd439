//! The example in the crate's documentation: a thread replies to texts with their lengths, which the asker
//! receives by blocking and by awaiting; and the same by typed requests.

use super::ends::ends;
use super::times::{assert_woken_since, now};
use crossbeam_channel as queue;
use futures::executor::block_on;
use oneshot::reply::{self, Length, Ticket};
use oneshot::{Receiver, RecvError, RecvTimeoutError, Sender};
use oneshot_asserts::{Asserts, assert_same};
use oneshot_calls::limit;
use std::random::RandomSource;
use std::sync::Wait;
use std::thread::spawn;
use std::time::Clock;

/// A text, and the sender for its length.
#[derive(Drop)]
struct Request {
    text: String,
    reply: Sender<usize>,
}

/// Replies to each text with its length, until nobody can send one any more.
fn process(rt: &impl Wait, requests: queue::Receiver<Request>) {
    for request in requests.iter(rt) {
        let Request { text, reply } = request;
        // A client that is gone needs no reply.
        let _ = reply.send(text.len());
    }
}

/// Asks for the length of `text`, and returns the receiver of the answer. Fails if the thread is gone.
fn ask<'r, R: Wait + AllocGlobal + Asserts>(
    rt: &'r R,
    requests: &queue::Sender<Request>,
    text: &str,
) -> Receiver<usize, &'r R> {
    let text = String::from_str(rt.alloc(), text).expect(rt, "memory");
    let (reply, answer) = ends(rt);
    assert!(rt; requests.send(rt, Request { text, reply }).is_ok());
    answer
}

/// Asks for the length of `text`, and blocks until it comes.
fn ask_and_block<R: Wait + Clock + AllocGlobal + Asserts>(
    rt: &R,
    requests: &queue::Sender<Request>,
    text: &str,
) -> Result<usize, RecvTimeoutError> {
    let mut answer = ask(rt, requests, text);
    let start = now(rt);
    let received = answer.recv_timeout(limit());
    assert_woken_since(rt, start);
    received
}

/// Asks for the length of `text`, and awaits it.
fn ask_and_await<R: Wait + RandomSource + AllocGlobal + Asserts>(
    rt: &R,
    requests: &queue::Sender<Request>,
    text: &str,
) -> Result<usize, RecvError> {
    let answer = ask(rt, requests, text);
    block_on(rt, answer.into_future()).expect(rt, "memory")
}

/// Fails unless each text's length comes to whoever blocks for it, and to whoever awaits it.
fn assert_lengths<R: Wait + Clock + RandomSource + AllocGlobal + Asserts>(
    rt: &R,
    requests: &queue::Sender<Request>,
) {
    for (text, length) in [("", 0), ("lengths", 7), ("a processing thread", 19)] {
        assert_same!(rt; ask_and_block(rt, requests, text), Ok(length));
        assert_same!(rt; ask_and_await(rt, requests, text), Ok(length));
    }
}

#[test]
fn a_processing_thread_answers_lengths(rt: HostRuntime) {
    let (requests, taken) = queue::unbounded(rt.alloc()).expect(&rt, "memory");
    let processor = spawn(&rt, move || process(&rt, taken)).expect(&rt, "a thread");
    assert_lengths(&rt, &requests);
    drop(requests);
    processor.join(&rt);
}

/// A text whose length is asked for.
type Typed = reply::Request<String, Length>;

/// Answers a request with its text's length.
fn answer_typed(rt: &impl Asserts, request: Typed) {
    let length = Length::of(request.question().clone().ok().expect(rt, "memory"));
    if request.fits(&length) {
        // A ticket that is gone needs no reply.
        let _ = request.answer(length);
    }
}

/// Answers each request with its text's length, until nobody can send one any more.
fn process_typed(rt: &(impl Wait + Asserts), requests: queue::Receiver<Typed>) {
    for request in requests.iter(rt) {
        answer_typed(rt, request);
    }
}

/// Asks for the length of `text`, and returns the ticket for the reply. Fails if the thread is gone.
fn ask_typed<'r, R: Wait + AllocGlobal + Asserts>(
    rt: &'r R,
    requests: &queue::Sender<Typed>,
    text: &str,
) -> Ticket<String, Length, &'r R> {
    let question = String::from_str(rt.alloc(), text).expect(rt, "memory");
    let (request, ticket) = reply::request(rt, rt.alloc(), question).expect(rt, "memory");
    assert!(rt; requests.send(rt, request).is_ok());
    ticket
}

/// Asks for the length of `text`, and waits for it.
fn ask_and_wait<R: Wait + Clock + AllocGlobal + Asserts>(
    rt: &R,
    requests: &queue::Sender<Typed>,
    text: &str,
) -> Result<usize, RecvTimeoutError> {
    let mut ticket = ask_typed(rt, requests, text);
    let start = now(rt);
    let reply = ticket.wait_for(limit());
    assert_woken_since(rt, start);
    match reply {
        Ok(length) => Ok(length.bytes()),
        Err(error) => Err(error),
    }
}

/// Fails unless each text's length comes.
fn assert_typed_lengths<R: Wait + Clock + AllocGlobal + Asserts>(
    rt: &R,
    requests: &queue::Sender<Typed>,
) {
    for (text, bytes) in [("", 0), ("t", 1), ("data from sync thread", 21)] {
        assert_same!(rt; ask_and_wait(rt, requests, text), Ok(bytes));
    }
}

#[test]
fn a_processing_thread_answers_typed_requests(rt: HostRuntime) {
    let (requests, taken) = queue::unbounded(rt.alloc()).expect(&rt, "memory");
    let processor = spawn(&rt, move || process_typed(&rt, taken)).expect(&rt, "a thread");
    assert_typed_lengths(&rt, &requests);
    drop(requests);
    processor.join(&rt);
}
