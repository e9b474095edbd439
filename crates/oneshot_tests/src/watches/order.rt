//! The order of drops. The drop of a ticket first cancels the request, then drops the ticket's runtime, and last tells
//! the server. An answer or the drop of a request tells the ticket before it drops the runtime of the server's watch.

use super::cancelled::answer;
use crate::reply::new_text;
use oneshot_asserts::{Asserts, assert_same};
use oneshot_channel::reply::{Length, Request};
use oneshot_watch::{CancellableRequest, CancellableTicket, Watch, cancellable_request};
use std::cell::Cell;

/// A server's request with its watch, and whether the request was cancelled, and the server told, before the ticket's
/// runtime was dropped. The request stays, so the ticket's drop finds it there.
#[derive(Drop)]
struct Server {
    request: Cell<Option<Request<String, Length>>>,
    watch: Cell<Option<Watch<()>>>,
    was_cancelled: Cell<Option<bool>>,
    was_told: Cell<Option<bool>>,
}

impl Server {
    fn new() -> Server {
        Server {
            request: Cell::new(None),
            watch: Cell::new(None),
            was_cancelled: Cell::new(None),
            was_told: Cell::new(None),
        }
    }

    /// Gives the server a request.
    fn serve(&self, request: CancellableRequest<String, Length, ()>) {
        let (request, watch) = request.into_parts();
        self.request.set(Some(request));
        self.watch.set(Some(watch));
    }

    /// Whether the request is cancelled. `None`: there is none.
    fn is_cancelled(&self) -> Option<bool> {
        let left = self.request.take()?;
        let is_cancelled = left.is_cancelled();
        self.request.set(Some(left));
        Some(is_cancelled)
    }

    /// Whether the server was told. `None`: it has no watch.
    fn is_told(&self) -> Option<bool> {
        let mut watch = self.watch.take()?;
        let is_told = watch.is_gone();
        self.watch.set(Some(watch));
        Some(is_told)
    }
}

/// The runtime of a ticket. Its drop notes whether the request was cancelled, and the server told.
struct Witness<'a> {
    server: &'a Server,
}

impl Drop for Witness<'_> {
    fn drop(self) {
        let Witness { server } = self;
        server.was_cancelled.set(server.is_cancelled());
        server.was_told.set(server.is_told());
    }
}

/// A ticket whose runtime's drop looks at the server's watch.
fn ticket_of<'a>(
    rt: &(impl AllocGlobal + Asserts),
    server: &'a Server,
) -> CancellableTicket<String, Length, Witness<'a>> {
    let made = cancellable_request(Witness { server }, (), rt.alloc(), new_text(rt));
    let (request, ticket) = made.expect(rt, "memory");
    server.serve(request);
    ticket
}

/// Fails unless the request was cancelled before the ticket's runtime was dropped, and the server told only after it.
fn assert_told_last(rt: &impl Asserts, server: &Server) {
    assert_same!(rt;
        (
            server.was_cancelled.get(),
            server.was_told.get(),
            server.is_told()
        ),
        (Some(true), Some(false), Some(true))
    );
}

#[test]
#[should_panic(expected = "left: (None, None, None)")]
fn a_server_without_a_ticket_ends_a_test(rt: HostRuntime) {
    assert_told_last(&rt, &Server::new());
}

#[test]
fn a_ticket_is_gone_before_its_server_is_told(rt: HostRuntime) {
    let server = Server::new();
    drop(ticket_of(&rt, &server));
    assert_told_last(&rt, &server);
}

#[test]
fn an_awaited_reply_is_gone_before_its_server_is_told(rt: HostRuntime) {
    let server = Server::new();
    let reply = ticket_of(&rt, &server).into_future();
    assert_same!(rt; server.is_told(), Some(false));
    drop(reply);
    assert_told_last(&rt, &server);
}

/// A client's ticket, and what a look and a try found before the watch's runtime was dropped: whether the ticket was
/// closed, and whether a reply was received.
#[derive(Drop)]
struct Client {
    ticket: Cell<Option<CancellableTicket<String, Length, ()>>>,
    received: Cell<Option<bool>>,
    was_closed: Cell<Option<bool>>,
}

impl Client {
    fn new() -> Client {
        Client {
            ticket: Cell::new(None),
            received: Cell::new(None),
            was_closed: Cell::new(None),
        }
    }
}

/// The runtime of a server's watch. Its drop looks at the client's ticket.
struct Looking<'a> {
    client: &'a Client,
}

impl Drop for Looking<'_> {
    fn drop(self) {
        let Looking { client } = self;
        if let Some(mut ticket) = client.ticket.take() {
            client.was_closed.set(Some(ticket.is_closed()));
            client.received.set(Some(ticket.try_take().is_ok()));
        }
    }
}

/// A request whose ticket the client has, and the runtime of whose watch looks at it.
fn request_of<'a>(
    rt: &(impl AllocGlobal + Asserts),
    client: &'a Client,
) -> CancellableRequest<String, Length, Looking<'a>> {
    let made = cancellable_request((), Looking { client }, rt.alloc(), new_text(rt));
    let (request, ticket) = made.expect(rt, "memory");
    client.ticket.set(Some(ticket));
    request
}

#[test]
fn a_reply_is_sent_before_the_watch_goes(rt: HostRuntime) {
    let client = Client::new();
    let answered = answer(&rt, request_of(&rt, &client)).is_ok();
    assert_same!(rt; (answered, client.received.get()), (true, Some(true)));
}

#[test]
fn a_dropped_request_tells_its_ticket_before_the_watch_goes(rt: HostRuntime) {
    let client = Client::new();
    drop(request_of(&rt, &client));
    assert_same!(rt; client.was_closed.get(), Some(true));
}
