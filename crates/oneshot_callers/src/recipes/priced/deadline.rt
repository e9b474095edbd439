//! A reply that a task awaits with a deadline, by tokio's timers.

ghost use Rattle.std.specs.Prelude.{◌≡◌, IfOk};

use super::{Price, serve};
use futures::executor::block_on;
use futures::task::{Doorbell, Solo};
use oneshot_asserts::{Asserts, assert_same};
use oneshot_channel::reply::{Request, Ticket, request};
use oneshot_channel::{Receiver, RecvTimeoutError, channel};
use std::alloc::AllocGlobal;
use std::io;
use std::random::RandomSource;
use std::sync::Wait;
use std::thread::join;
use std::time::{Clock, Duration, Instant};
use tokio::time::{Driver, Handle};

/// Awaits the price of the ticket's article for at most `limit`.
fn price_within<R: Wait + Clock + RandomSource + AllocGlobal>(
    rt: &R,
    time: &Handle,
    limit: Duration,
    ticket: Ticket<u32, Price, ()>,
) -> io::Result<Result<Price, RecvTimeoutError>>
    ensures { IfOk result (λ reply. IfOk reply (λ price. price.article ≡ ticket.channel.about.question)) }
{
    match block_on(rt, time.timeout(rt, limit, ticket.into_future())?)? {
        Ok(Ok(price)) => Ok(Ok(price)),
        Ok(Err(_)) => Ok(Err(RecvTimeoutError::Disconnected)),
        Err(_) => Ok(Err(RecvTimeoutError::Timeout)),
    }
}

/// Once a millisecond, fires the timers that are due. Ends when the sender of `stop` sends or is dropped.
fn keep_time<R>(rt: &R, mut timers: Driver, mut stop: Receiver<(), &R>) -> io::Result<()>
where
    R: Wait + Clock + RandomSource + AllocGlobal,
{
    let task = Solo::new(rt, Doorbell::parking())?;
    for _ in rt.forever() {
        let now = Instant::now(rt)?;
        let mut poll = task.begin();
        // When the next timer is due does not matter: the wait below lasts a millisecond.
        timers.turn(&mut poll, now);
        poll.park();
        if stop.recv_timeout(Duration::from_millis(1)) != Err(RecvTimeoutError::Timeout) {
            break;
        }
    }
    Ok(())
}

/// What a ticket brought.
type Brought = Result<Price, RecvTimeoutError>;

/// A request for the price of an article, and the ticket for it.
fn asked<R>(rt: &R, article: u32) -> (Request<u32, Price>, Ticket<u32, Price, ()>)
where
    R: Asserts + AllocGlobal,
{
    request((), rt.alloc(), article).expect(rt, "memory")
}

/// Awaits a price for at most `millis` milliseconds.
fn await_price<R>(rt: &R, time: &Handle, millis: u64, ticket: Ticket<u32, Price, ()>) -> Brought
where
    R: Asserts + Wait + Clock + RandomSource + AllocGlobal,
{
    let reply = price_within(rt, time, Duration::from_millis(millis), ticket);
    reply.expect(rt, "an executor")
}

/// Awaits a price that is sent, one that is sent late, and one that is not sent. Returns what each ticket brought, and
/// whether the late price was taken.
fn three_prices<R>(rt: &R, time: &Handle) -> ([Brought; 3], bool)
where
    R: Asserts + Wait + Clock + RandomSource + AllocGlobal,
{
    let (sent, first) = asked(rt, 7);
    let (late, second) = asked(rt, 8);
    let (lost, third) = asked(rt, 9);
    serve(sent, Some(250));
    drop(lost);
    let first = await_price(rt, time, 10_000, first);
    let second = await_price(rt, time, 20, second);
    let third = await_price(rt, time, 10_000, third);
    ([first, second, third], serve(late, Some(90)))
}

/// A driver of timers that begins now, and its handle.
fn timers<R>(rt: &R) -> (Driver, Handle)
where
    R: Asserts + Clock + AllocGlobal,
{
    let now = Instant::now(rt).expect(rt, "a clock");
    let timers = Driver::new(rt.alloc(), now).expect(rt, "memory");
    let time = timers.handle().clone().expect(rt, "memory");
    (timers, time)
}

/// What the three tickets should bring.
fn wanted() -> [Brought; 3] {
    let price = Price {
        article: 7,
        cents: Some(250),
    };
    [
        Ok(price),
        Err(RecvTimeoutError::Timeout),
        Err(RecvTimeoutError::Disconnected),
    ]
}

#[test]
fn a_price_comes_in_time_or_not(rt: HostRuntime) {
    let (timers, time) = timers(&rt);
    let (stop, stopped) = channel(&rt, rt.alloc()).expect(&rt, "memory");
    let (kept, prices) = join(
        &rt,
        || keep_time(&rt, timers, stopped),
        || {
            let prices = three_prices(&rt, &time);
            drop(stop);
            prices
        },
    );
    kept.expect(&rt, "the timers are kept");
    assert_same!(rt; prices, (wanted(), false));
}
