//! Two tickets that one task awaits, for replies with two invariants.

ghost use Rattle.std.specs.Prelude.{◌≡◌, ◌≤◌, IfOk, IfSome};

use futures::executor::block_on;
use futures::future::{Either, join, select};
use oneshot_asserts::assert_same;
use oneshot_channel::reply::{Answer, Request, Ticket, request};
use std::alloc::AllocGlobal;
use std::io;
use std::random::RandomSource;
use std::sync::Wait;

/// How many seats were wanted, and how many are given.
#[derive(Drop)]
struct Seats {
    wanted: u32,
    given: u32,
    ghost within: { given ≤ wanted },
    ghost few: { given ≤ 10 },
}

impl Seats {
    /// Gives as many seats as are wanted, but at most ten.
    fn of(wanted: u32) -> Seats
        ensures { result.wanted ≡ wanted }
    {
        if wanted < 10 {
            Seats {
                wanted,
                given: wanted,
            }
        } else {
            Seats { wanted, given: 10 }
        }
    }
}

impl Answer<u32> for Seats {
    ghost asked = { λ seats. seats.wanted };

    ghost answers = { λ wanted seats. (seats.given ≤ wanted) × (seats.given ≤ 10) };

    ghost is_right = { λ seats. (seats.within, seats.few) };

    fn question(&self) -> &u32 {
        &self.wanted
    }
}

/// Answers a request. `false`: its ticket was dropped.
fn serve(request: Request<u32, Seats>) -> bool {
    let seats = Seats::of(*request.question());
    request.answer(seats).is_ok()
}

/// Awaits both replies, in either order. `None`: at least one will not come.
fn both_replies<R, Rt>(
    rt: &R,
    first: Ticket<u32, Seats, Rt>,
    second: Ticket<u32, Seats, Rt>,
) -> io::Result<Option<(u32, u32)>>
where
    R: Wait + RandomSource + AllocGlobal,
    Rt: Drop,
    ensures first { IfOk result (λ both. IfSome both (λ given. given.0 ≤ first.channel.about.question)) }
    ensures second { IfOk result (λ both. IfSome both (λ given. given.1 ≤ second.channel.about.question)) }
{
    match block_on(rt, join(first.into_future(), second.into_future()))? {
        (Ok(one), Ok(other)) => Ok(Some((one.given, other.given))),
        _ => Ok(None),
    }
}

/// Awaits the future that is ready first, and drops the other. `None`: it had no reply.
fn first_reply<R, Rt>(
    rt: &R,
    first: Ticket<u32, Seats, Rt>,
    second: Ticket<u32, Seats, Rt>,
) -> io::Result<Option<u32>>
where
    R: Wait + RandomSource + AllocGlobal,
    Rt: Drop,
    requires { second.channel.about.question ≡ first.channel.about.question }
    ensures { IfOk result (λ reply. IfSome reply (λ given. given ≤ first.channel.about.question)) }
{
    match block_on(rt, select(first.into_future(), second.into_future()))? {
        Either::Left((Ok(seats), _)) => Ok(Some(seats.given)),
        Either::Right((Ok(seats), _)) => Ok(Some(seats.given)),
        _ => Ok(None),
    }
}

#[test]
fn both_replies_come(rt: HostRuntime) {
    let (few, first) = request((), rt.alloc(), 7u32).expect(&rt, "memory");
    let (many, second) = request((), rt.alloc(), 11u32).expect(&rt, "memory");
    let served = (serve(many), serve(few));
    let given = both_replies(&rt, first, second).expect(&rt, "an executor");
    assert_same!(rt; (served, given), ((true, true), Some((7, 10))));
}

#[test]
fn one_reply_comes_first(rt: HostRuntime) {
    let Ok((unserved, first)) = request((), rt.alloc(), 7u32) else {
        panic!(rt; "memory")
    };
    let Ok((served, second)) = request((), rt.alloc(), 7u32) else {
        panic!(rt; "memory")
    };
    let in_time = serve(served);
    let given = first_reply(&rt, first, second).expect(&rt, "an executor");
    assert_same!(rt; (in_time, given, serve(unserved)), (true, Some(7), false));
}
