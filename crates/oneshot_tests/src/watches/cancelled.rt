//! Requests whose server is told when nobody waits: each call of both ends, and when the server is told.

use super::MOMENT;
use crate::ends::clocks::{TIMEOUTS, Written};
use crate::reply::{TEXT, bytes_of, length_of, new_text};
use futures::executor::block_on;
use futures::task::Poll;
use futures::test::MockTask;
use oneshot_asserts::{Asserts, assert_same};
use oneshot_channel::reply::{Length, Request};
use oneshot_channel::{RecvError, RecvTimeoutError, TryRecvError};
use oneshot_watch::{
    CancellableReply, CancellableRequest, CancellableTicket, Watch, cancellable_request,
};
use std::sync::Wait;
use std::thread::{join, sleep};
use std::time::{Clock, Duration};

/// A request for the length of a text, whose watch never blocks.
type LengthRequest = CancellableRequest<String, Length, ()>;

/// The ticket of such a request.
type LengthTicket<Rt> = CancellableTicket<String, Length, Rt>;

/// The reply to such a request, which tasks await.
type LengthReply = CancellableReply<String, Length, ()>;

/// A request for the length of `TEXT`, whose ticket has this runtime. Ends the test if there is no memory.
pub(crate) fn ask<Rt: Drop>(
    rt: &(impl AllocGlobal + Asserts),
    runtime: Rt,
) -> (LengthRequest, LengthTicket<Rt>) {
    cancellable_request(runtime, (), rt.alloc(), new_text(rt)).expect(rt, "memory")
}

/// The parts of such a request, and its ticket.
fn ask_in_parts<Rt: Drop>(
    rt: &(impl AllocGlobal + Asserts),
    runtime: Rt,
) -> (Request<String, Length>, Watch<()>, LengthTicket<Rt>) {
    let (request, ticket) = ask(rt, runtime);
    let (request, watch) = request.into_parts();
    (request, watch, ticket)
}

/// Answers with the length of the text. `Err`: the ticket was gone, and the reply came back. Ends the test if there is
/// no memory, or if the reply does not fit.
pub(crate) fn answer<Rt: Drop>(
    rt: &impl Asserts,
    request: CancellableRequest<String, Length, Rt>,
) -> Result<(), Length> {
    let length = length_of(rt, request.question());
    if !request.fits(&length) {
        panic!(rt; "the length of a text does not fit its request")
    }
    match request.answer(length) {
        Ok(()) => Ok(()),
        Err(refused) => Err(refused.into_inner()),
    }
}

/// The bytes of a reply that is taken.
fn take<Rt: Drop>(ticket: &mut LengthTicket<Rt>) -> Result<usize, TryRecvError> {
    ticket.try_take().map(bytes_of)
}

/// The bytes of a reply that is waited for, at most this long.
fn wait_for<Rt: Wait + Clock + Drop>(
    ticket: &mut LengthTicket<Rt>,
    timeout: Duration,
) -> Result<usize, RecvTimeoutError> {
    ticket.wait_for(timeout).map(bytes_of)
}

/// The bytes of a reply that is waited for, at most a millisecond.
fn wait_a_moment<Rt: Wait + Clock + Drop>(
    ticket: &mut LengthTicket<Rt>,
) -> Result<usize, RecvTimeoutError> {
    wait_for(ticket, Duration::from_millis(1))
}

/// The bytes of a reply that is waited for.
fn wait<Rt: Wait + Clock + Drop>(ticket: LengthTicket<Rt>) -> Result<usize, RecvError> {
    ticket.wait().map(bytes_of)
}

/// The bytes of a reply that a poll returned.
fn bytes_polled(polled: Poll<Result<Length, RecvError>>) -> Poll<Result<usize, RecvError>> {
    match polled {
        Poll::Ready(received) => Poll::Ready(received.map(bytes_of)),
        Poll::Pending => Poll::Pending,
    }
}

/// Whether a reply that tasks await is closed, and whether its message is there.
fn looks_of(reply: &LengthReply) -> (bool, bool) {
    (reply.is_closed(), reply.has_message())
}

/// Fails unless the request has its question, and both ends are there.
fn assert_is_asked(rt: &impl Asserts, request: &LengthRequest, ticket: &LengthTicket<()>) {
    assert_same!(rt;
        (
            request.question().as_str(),
            request.is_cancelled(),
            ticket.is_closed()
        ),
        (TEXT, false, false)
    );
}

#[test]
fn a_reply_is_taken_once(rt: HostRuntime) {
    let (request, mut ticket) = ask(&rt, ());
    assert_is_asked(&rt, &request, &ticket);
    let early = take(&mut ticket);
    let sent = (answer(&rt, request).is_ok(), ticket.is_closed());
    let taken = take(&mut ticket);
    let again = take(&mut ticket);
    assert_same!(rt;
        (early, sent, taken, again, ticket.is_closed()),
        (
            Err(TryRecvError::Empty),
            (true, false),
            Ok(21),
            Err(TryRecvError::Disconnected),
            true
        )
    );
}

#[test]
fn a_reply_is_waited_for_with_a_timeout(rt: HostRuntime) {
    let (request, mut ticket) = ask(&rt, &rt);
    let early = wait_a_moment(&mut ticket);
    let answered = answer(&rt, request).is_ok();
    let waited = wait_a_moment(&mut ticket);
    assert_same!(rt;
        (early, answered, waited),
        (Err(RecvTimeoutError::Timeout), true, Ok(21))
    );
}

#[test]
fn a_ticket_waits_to_the_nanosecond(rt: HostRuntime) {
    for (timeout, written, made) in TIMEOUTS {
        let clock = Written::new(&rt, written);
        let (_request, mut ticket) = ask(&rt, &clock);
        let waited = wait_for(&mut ticket, Duration::from_nanos(timeout));
        assert_same!(rt;
            (timeout, written, waited, clock.made()),
            (timeout, written, Err(RecvTimeoutError::Timeout), made)
        );
    }
}

#[test]
fn a_wait_returns_a_reply_that_has_come(rt: HostRuntime) {
    let (request, mut watch, ticket) = ask_in_parts(&rt, &rt);
    assert!(rt; crate::reply::answer(&rt, request).is_ok());
    let waited = wait(ticket);
    assert_same!(rt; (waited, watch.is_gone()), (Ok(21), true));
}

#[test]
fn a_dropped_request_has_no_reply(rt: HostRuntime) {
    let (request, ticket) = ask(&rt, &rt);
    drop(request);
    assert!(rt; ticket.is_closed());
    assert_same!(rt; wait(ticket), Err(RecvError));
}

/// A request, and its reply, which the task has polled twice.
fn ask_and_poll(
    rt: &(impl AllocGlobal + Asserts),
    task: &MockTask,
) -> (LengthRequest, LengthReply) {
    let (request, ticket) = ask(rt, ());
    let mut reply = ticket.into_future();
    let first = bytes_polled(task.poll(&mut reply));
    let second = bytes_polled(task.poll(&mut reply));
    assert_same!(rt; (first, second), (Poll::Pending, Poll::Pending));
    (request, reply)
}

#[test]
fn a_reply_is_awaited(rt: HostRuntime) {
    let task = MockTask::new(&rt).expect(&rt, "a task");
    let (request, mut reply) = ask_and_poll(&rt, &task);
    let tried = reply.try_recv().map(bytes_of);
    let before = (reply.has_message(), task.is_woken());
    let answered = answer(&rt, request).is_ok();
    let after = (reply.has_message(), task.is_woken());
    assert_same!(rt;
        (tried, before, answered, after),
        (Err(TryRecvError::Empty), (false, false), true, (true, true))
    );
    let received = bytes_polled(task.poll(&mut reply));
    assert_same!(rt;
        (received, task.is_woken()),
        (Poll::Ready(Ok(21)), false)
    );
}

#[test]
fn a_dropped_request_closes_the_awaited_reply(rt: HostRuntime) {
    let task = MockTask::new(&rt).expect(&rt, "a task");
    let (request, mut reply) = ask_and_poll(&rt, &task);
    let before = looks_of(&reply);
    drop(request);
    let after = looks_of(&reply);
    let lost = bytes_polled(task.poll(&mut reply));
    assert_same!(rt;
        (before, after, lost, task.is_woken()),
        ((false, false), (true, false), Poll::Ready(Err(RecvError)), false)
    );
    let awaited = block_on(&rt, reply).expect(&rt, "an executor");
    assert_same!(rt; awaited.map(bytes_of), Err(RecvError));
}

#[test]
fn a_dropped_ticket_cancels_its_request_and_the_reply_comes_back(rt: HostRuntime) {
    let (request, ticket) = ask(&rt, ());
    drop(ticket);
    let is_cancelled = request.is_cancelled();
    let Err(length) = answer(&rt, request) else {
        panic!(rt; "an answer without a ticket")
    };
    assert_same!(rt; (is_cancelled, length.bytes()), (true, 21));
}

#[test]
fn a_watch_is_told_of_a_dropped_ticket(rt: HostRuntime) {
    let (request, mut watch, ticket) = ask_in_parts(&rt, ());
    let before = (watch.is_gone(), request.is_cancelled());
    drop(ticket);
    let after = (watch.is_gone(), request.is_cancelled());
    assert_same!(rt; (before, after), ((false, false), (true, true)));
}

#[test]
fn a_watch_is_told_of_a_dropped_awaited_reply(rt: HostRuntime) {
    let (request, mut watch, ticket) = ask_in_parts(&rt, ());
    let reply = ticket.into_future();
    let was_gone = watch.is_gone();
    drop(reply);
    assert_same!(rt;
        (was_gone, watch.is_gone(), request.is_cancelled()),
        (false, true, true)
    );
}

/// Fails unless the calls of this ticket find no reply, and tell the watch nothing.
fn assert_tells_nothing<Rt: Wait + Clock + Drop>(
    rt: &impl Asserts,
    ticket: &mut LengthTicket<Rt>,
    watch: &mut Watch<()>,
) {
    let tried = take(ticket);
    let waited = wait_a_moment(ticket);
    assert_same!(rt;
        (tried, waited, watch.is_gone()),
        (
            Err(TryRecvError::Empty),
            Err(RecvTimeoutError::Timeout),
            false
        )
    );
}

#[test]
fn a_watch_is_told_nothing_while_its_ticket_is_called(rt: HostRuntime) {
    let (request, mut watch, mut ticket) = ask_in_parts(&rt, &rt);
    assert_tells_nothing(&rt, &mut ticket, &mut watch);
    let answered = crate::reply::answer(&rt, request).is_ok();
    let taken = take(&mut ticket);
    let was_gone = watch.is_gone();
    drop(ticket);
    assert_same!(rt;
        (answered, taken, was_gone, watch.is_gone()),
        (true, Ok(21), false, true)
    );
}

/// Fails unless this awaited reply, whose request was answered, is received and then closed, and the watch is told when
/// the reply is dropped, and not before.
fn assert_is_received_once(rt: &impl Asserts, mut reply: LengthReply, watch: &mut Watch<()>) {
    let full = looks_of(&reply);
    let received = reply.try_recv().map(bytes_of);
    let closed = looks_of(&reply);
    let was_gone = watch.is_gone();
    drop(reply);
    assert_same!(rt;
        (full, received, closed, was_gone, watch.is_gone()),
        ((false, true), Ok(21), (true, false), false, true)
    );
}

#[test]
fn a_watch_is_told_nothing_while_the_awaited_reply_is_called(rt: HostRuntime) {
    let task = MockTask::new(&rt).expect(&rt, "a task");
    let (request, mut watch, ticket) = ask_in_parts(&rt, ());
    let mut reply = ticket.into_future();
    let polled = bytes_polled(task.poll(&mut reply));
    let tried = reply.try_recv().map(bytes_of);
    assert_same!(rt;
        (polled, tried, watch.is_gone()),
        (Poll::Pending, Err(TryRecvError::Empty), false)
    );
    assert!(rt; crate::reply::answer(&rt, request).is_ok());
    assert_is_received_once(&rt, reply, &mut watch);
}

/// Drops the request after a moment. Returns whether its watch was told nothing until then.
fn drop_later(rt: &impl Clock, request: Request<String, Length>, watch: &mut Watch<()>) -> bool {
    sleep(rt, Duration::from_millis(MOMENT));
    let was_there = !watch.is_gone();
    drop(request);
    was_there
}

#[test]
fn a_watch_is_told_nothing_while_its_ticket_waits(rt: HostRuntime) {
    let (request, mut watch, ticket) = ask_in_parts(&rt, &rt);
    let (reply, was_there) = join(
        &rt,
        || wait(ticket),
        || drop_later(&rt, request, &mut watch),
    );
    assert_same!(rt;
        (reply, was_there, watch.is_gone()),
        (Err(RecvError), true, true)
    );
}
