//! Requests, tickets and replies, each of which answers its ticket's own question.

mod sizes;
mod threads;
mod waits;

use futures::executor::block_on;
use oneshot_asserts::{Asserts, assert_same};
use oneshot_channel::reply::{Answer, Length, Request, Ticket, request};
use oneshot_channel::{RecvError, RecvTimeoutError, TryRecvError};
use std::sync::Wait;
use std::time::{Clock, Duration};

/// A text of 21 bytes.
pub(crate) const TEXT: &str = "data from sync thread";

/// `TEXT`, in memory of its own. Ends the test if there is none.
pub(crate) fn new_text(rt: &(impl AllocGlobal + Asserts)) -> String {
    String::from_str(rt.alloc(), TEXT).expect(rt, "memory")
}

/// A request for the length of `TEXT`, whose ticket has this runtime. Ends the test if there is no memory.
pub(crate) fn ask<Rt: Drop>(
    rt: &(impl AllocGlobal + Asserts),
    runtime: Rt,
) -> (Request<String, Length>, Ticket<String, Length, Rt>) {
    request(runtime, rt.alloc(), new_text(rt)).expect(rt, "memory")
}

/// The length of this text. Ends the test if there is no memory.
pub(crate) fn length_of(rt: &impl Asserts, text: &String) -> Length {
    Length::of(text.clone().expect(rt, "memory"))
}

/// Answers with the length of the text. `Err`: the ticket was gone, and the reply came back. Ends the test if there is
/// no memory, or if the reply does not fit.
pub(crate) fn answer(rt: &impl Asserts, request: Request<String, Length>) -> Result<(), Length> {
    let length = length_of(rt, request.question());
    if !request.fits(&length) {
        panic!(rt; "the length of a text does not fit its request")
    }
    match request.answer(length) {
        Ok(()) => Ok(()),
        Err(refused) => Err(refused.into_inner()),
    }
}

pub(crate) fn bytes_of(length: Length) -> usize {
    length.bytes()
}

/// The bytes of a reply that is taken.
fn take<Rt: Drop>(ticket: &mut Ticket<String, Length, Rt>) -> Result<usize, TryRecvError> {
    ticket.try_take().map(bytes_of)
}

/// The bytes of a reply that is waited for, at most a millisecond.
fn wait_a_moment<Rt: Wait + Clock + Drop>(
    ticket: &mut Ticket<String, Length, Rt>,
) -> Result<usize, RecvTimeoutError> {
    ticket.wait_for(Duration::from_millis(1)).map(bytes_of)
}

/// Fails unless the request has its question, and both ends are there.
fn assert_is_asked(
    rt: &impl Asserts,
    request: &Request<String, Length>,
    ticket: &Ticket<String, Length, ()>,
) {
    assert_same!(rt;
        (
            request.question().as_str(),
            request.is_cancelled(),
            ticket.is_closed()
        ),
        (TEXT, false, false)
    );
}

#[test]
fn a_reply_is_taken_once(rt: HostRuntime) {
    let (request, mut ticket) = ask(&rt, ());
    assert_is_asked(&rt, &request, &ticket);
    let sent = (answer(&rt, request).is_ok(), ticket.is_closed());
    let taken = take(&mut ticket);
    let again = take(&mut ticket);
    assert_same!(rt;
        (sent, taken, again, ticket.is_closed()),
        ((true, false), Ok(21), Err(TryRecvError::Disconnected), true)
    );
}

#[test]
fn an_answer_without_a_ticket_gives_the_reply_back(rt: HostRuntime) {
    let (request, ticket) = ask(&rt, ());
    drop(ticket);
    let is_cancelled = request.is_cancelled();
    let Err(length) = answer(&rt, request) else {
        panic!(rt; "an answer without a ticket")
    };
    assert_same!(rt;
        (is_cancelled, length.bytes(), length.question().as_str()),
        (true, 21, TEXT)
    );
}

#[test]
fn a_dropped_request_has_no_reply(rt: HostRuntime) {
    let (request, ticket) = ask(&rt, &rt);
    drop(request);
    assert!(rt; ticket.is_closed());
    assert_same!(rt; ticket.wait().map(bytes_of), Err(RecvError));
}

/// Fails unless the ticket of this request, which is there, gets no reply yet.
fn assert_has_no_reply_yet<Rt: Wait + Clock + Drop>(
    rt: &impl Asserts,
    request: &Request<String, Length>,
    ticket: &mut Ticket<String, Length, Rt>,
) {
    let taken = take(ticket);
    let waited = wait_a_moment(ticket);
    assert_same!(rt;
        (taken, waited, request.is_cancelled()),
        (
            Err(TryRecvError::Empty),
            Err(RecvTimeoutError::Timeout),
            false
        )
    );
}

#[test]
fn a_request_that_is_there_has_no_reply_yet(rt: HostRuntime) {
    let (request, mut ticket) = ask(&rt, &rt);
    assert_has_no_reply_yet(&rt, &request, &mut ticket);
    let answered = answer(&rt, request).is_ok();
    let waited = wait_a_moment(&mut ticket);
    let again = wait_a_moment(&mut ticket);
    assert_same!(rt;
        (answered, waited, again),
        (true, Ok(21), Err(RecvTimeoutError::Disconnected))
    );
}

#[test]
fn a_wait_returns_a_reply_that_has_come(rt: HostRuntime) {
    let (request, ticket) = ask(&rt, &rt);
    assert!(rt; answer(&rt, request).is_ok());
    assert_same!(rt; ticket.wait().map(bytes_of), Ok(21));
}

#[test]
fn a_reply_is_awaited(rt: HostRuntime) {
    let (request, ticket) = ask(&rt, ());
    assert!(rt; answer(&rt, request).is_ok());
    let awaited = block_on(&rt, ticket.into_future()).expect(&rt, "an executor");
    assert_same!(rt; awaited.map(bytes_of), Ok(21));
}

#[test]
fn a_reply_to_another_text_does_not_fit(rt: HostRuntime) {
    let (request, _) = ask(&rt, ());
    let own = Length::of(new_text(&rt));
    let other = String::from_str(rt.alloc(), "data from sync threads");
    let other = Length::of(other.expect(&rt, "memory"));
    assert_same!(rt; (request.fits(&own), request.fits(&other)), (true, false));
}
