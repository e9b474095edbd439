//! Tests that each loop does what its name says, and that the round trips of this channel report a lost message.

use futures::future::ready;
use futures::task::Context;
use oneshot::{async_channel, channel};
use oneshot_asserts::{Asserts, assert_same};
use oneshot_loops::awaited_trips;
use oneshot_loops::channels::Channel;
use oneshot_loops::fault::Fault;
use oneshot_loops::loops::{Awaited, Loop};
use oneshot_loops::measure::{measure, timed};
use oneshot_loops::polled::{PolledRound, pend, repeat_in_task};
use oneshot_loops::queues::{queue, task_fault};
use oneshot_loops::round_trip::{Request, ask, serve};
use oneshot_loops::rounds::repeat;
use oneshot_loops::tally::Tally;
use std::alloc::{Alloc, AllocGlobal, Global};
use std::cell::Cell;
use std::io;
use std::random::RandomSource;
use std::sync::Wait;
use std::sync::atomic::{AtomicU64, Ordering};
use std::thread::Threads;
use std::time::{Clock, Duration};

/// The tally of `count` rounds, each of which does what `round` counts.
fn tally_of(count: u64, round: Tally) -> Tally {
    Tally {
        channels: count.wrapping_mul(round.channels),
        room: count.wrapping_mul(round.room),
        tried: count.wrapping_mul(round.tried),
        waited: count.wrapping_mul(round.waited),
        pended: count.wrapping_mul(round.pended),
        polled: count.wrapping_mul(round.polled),
    }
}

/// The tally of a round that makes a channel for this many bytes and drops it.
fn made(bytes: u64) -> Tally {
    Tally {
        channels: 1,
        room: bytes,
        ..Tally::new()
    }
}

/// The tally of a round that also receives its message by `try_recv`.
fn tried(bytes: u64) -> Tally {
    Tally {
        tried: 1,
        ..made(bytes)
    }
}

/// The tally of a round that also receives its message by `recv`.
fn waited(bytes: u64) -> Tally {
    Tally {
        waited: 1,
        ..made(bytes)
    }
}

/// The tally of a round that also polls, and receives its message by another poll.
fn polled(bytes: u64) -> Tally {
    Tally {
        pended: 1,
        polled: 1,
        ..made(bytes)
    }
}

/// The tally of a round that also awaits its message, which has been sent.
fn awaited(bytes: u64) -> Tally {
    Tally {
        polled: 1,
        ..made(bytes)
    }
}

/// The channels whose receivers are futures.
const OF_FUTURES: [Channel; 2] = [Channel::Oneshot, Channel::Futures];

#[test]
fn each_awaited_loop_makes_its_rounds(rt: HostRuntime) {
    for channel in OF_FUTURES {
        for kind in [Awaited::MakeSendBlockOn, Awaited::MakeSendAwait] {
            assert_rounds(&rt, channel, Loop::Awaited(kind), awaited(8));
        }
    }
}

/// Makes so many rounds, and returns their tally.
fn run_rounds<R>(rt: &R, channel: Channel, kind: Loop, count: u64) -> Tally
where
    R: Asserts + AllocGlobal + RandomSource + Threads + Wait + Clock + Sync,
{
    let measured = measure(rt, channel, kind, count).expect(rt, "each round is made");
    measured.tally
}

/// Asserts the tally of no round, and that of three.
fn assert_rounds<R>(rt: &R, channel: Channel, kind: Loop, round: Tally)
where
    R: Asserts + AllocGlobal + RandomSource + Threads + Wait + Clock + Sync,
{
    for count in [0, 3] {
        let tally = run_rounds(rt, channel, kind, count);
        assert_same!(rt;
            (channel, kind, count, tally),
            (channel, kind, count, tally_of(count, round))
        );
    }
}

#[test]
#[should_panic(expected = "Oneshot, MakeDrop, 3, Tally { channels: 3, room: 27,")]
fn a_round_with_other_counts_ends_a_test(rt: HostRuntime) {
    assert_rounds(&rt, Channel::Oneshot, Loop::MakeDrop, made(9));
}

// `poll_pending` makes one channel for all its polls.
#[test]
fn each_poll_before_the_message_is_pending(rt: HostRuntime) {
    let kind = Loop::Awaited(Awaited::PollPending);
    for channel in OF_FUTURES {
        for count in [0, 3] {
            let tally = run_rounds(&rt, channel, kind, count);
            let pended = Tally {
                pended: count,
                ..awaited(8)
            };
            assert_same!(rt; (channel, count, tally), (channel, count, pended));
        }
    }
}

// A round trip makes two channels, and awaits the message of each.
#[test]
fn each_round_trip_of_futures_is_made(rt: HostRuntime) {
    let trip = Tally {
        channels: 2,
        polled: 2,
        ..Tally::new()
    };
    for channel in OF_FUTURES {
        assert_trips(&rt, channel, Loop::Awaited(Awaited::RoundTripAwait), trip);
    }
}

/// Asserts the channels and the receives of no round trip, of one, of a batch, and of one more than that.
fn assert_trips<R>(rt: &R, channel: Channel, kind: Loop, trip: Tally)
where
    R: Asserts + AllocGlobal + RandomSource + Threads + Wait + Clock + Sync,
{
    for count in [0, 1, 1024, 1025] {
        let tally = Tally {
            room: 0,
            pended: 0,
            ..run_rounds(rt, channel, kind, count)
        };
        assert_same!(rt;
            (channel, kind, count, tally),
            (channel, kind, count, tally_of(count, trip))
        );
    }
}

#[test]
fn a_future_that_is_ready_is_not_pending(rt: HostRuntime) {
    let mut tally = Tally::new();
    let ready = repeat_in_task(&rt, 1, PolledOnceTooOften, &mut tally);
    assert!(rt; matches!(ready, Err(Fault::MessageLost)));
}

/// A round that polls a future that is ready.
#[derive(Drop)]
struct PolledOnceTooOften;

impl PolledRound for PolledOnceTooOften {
    fn make(&self, cx: &mut Context<'_>, tally: &mut Tally) -> Result<(), Fault> {
        pend(&mut ready(7u64), 1, cx, tally)
    }
}

#[test]
fn a_request_to_no_future_is_lost(rt: HostRuntime) {
    let queue = queue(&rt).expect(&rt, "a queue");
    let (requests, served) = async_channel((), rt.alloc()).expect(&rt, "memory");
    drop(served);
    let lost = awaited_trips::ask(&rt, &queue, rt.alloc(), requests, &mut Tally::new());
    assert!(rt; matches!(lost, Err(Fault::MessageLost)));
}

#[test]
fn a_request_that_no_future_gets_is_lost(rt: HostRuntime) {
    let queue = queue(&rt).expect(&rt, "a queue");
    let (requests, served) = async_channel((), rt.alloc()).expect(&rt, "memory");
    drop(requests);
    let lost = awaited_trips::serve(&rt, &queue, served, &mut Tally::new());
    assert!(rt; matches!(lost, Err(Fault::MessageLost)));
}

/// What a round does with its channel.
#[derive(Clone, Copy)]
enum Round {
    Made,
    Tried,
    Waited,
    Polled,
}

impl Round {
    fn tally(self, bytes: u64) -> Tally {
        match self {
            Round::Made => made(bytes),
            Round::Tried => tried(bytes),
            Round::Waited => waited(bytes),
            Round::Polled => polled(bytes),
        }
    }
}

/// The loops of each channel, what a round does, and the bytes of its message.
const LOOPS: &[(Channel, Loop, Round, u64); 13] = &[
    (Channel::Oneshot, Loop::MakeSendReceiveDrop, Round::Tried, 8),
    (Channel::Oneshot, Loop::MakeDrop, Round::Made, 8),
    (Channel::Oneshot, Loop::MakeSendRecv, Round::Waited, 8),
    (Channel::Oneshot, Loop::MakePollSendPoll, Round::Polled, 8),
    (
        Channel::Oneshot,
        Loop::MakeSendReceiveDropLarge,
        Round::Tried,
        4096,
    ),
    (Channel::Futures, Loop::MakeSendReceiveDrop, Round::Tried, 8),
    (Channel::Futures, Loop::MakeDrop, Round::Made, 8),
    (Channel::Futures, Loop::MakePollSendPoll, Round::Polled, 8),
    (
        Channel::Futures,
        Loop::MakeSendReceiveDropLarge,
        Round::Tried,
        4096,
    ),
    (
        Channel::Crossbeam,
        Loop::MakeSendReceiveDrop,
        Round::Tried,
        8,
    ),
    (Channel::Crossbeam, Loop::MakeDrop, Round::Made, 8),
    (Channel::Crossbeam, Loop::MakeSendRecv, Round::Waited, 8),
    (
        Channel::Crossbeam,
        Loop::MakeSendReceiveDropLarge,
        Round::Tried,
        4096,
    ),
];

#[test]
fn each_loop_makes_its_rounds(rt: HostRuntime) {
    for (channel, kind, round, bytes) in LOOPS {
        assert_rounds(&rt, *channel, *kind, round.tally(*bytes));
    }
}

const REFUSED: &[(Channel, Loop); 5] = &[
    (Channel::Futures, Loop::MakeSendRecv),
    (Channel::Futures, Loop::RoundTrip),
    (Channel::Crossbeam, Loop::MakePollSendPoll),
    (Channel::Crossbeam, Loop::Awaited(Awaited::MakeSendBlockOn)),
    (Channel::Crossbeam, Loop::Awaited(Awaited::RoundTripAwait)),
];

#[test]
fn a_channel_refuses_a_loop_that_it_has_no_call_for(rt: HostRuntime) {
    for (channel, kind) in REFUSED {
        let refused = matches!(measure(&rt, *channel, *kind, 3), Err(Fault::CannotRun));
        assert_same!(rt; (*channel, *kind, refused), (*channel, *kind, true));
    }
}

// A round trip makes two channels, and blocks for the message of each.
#[test]
fn each_round_trip_is_made(rt: HostRuntime) {
    let trip = Tally {
        channels: 2,
        waited: 2,
        ..Tally::new()
    };
    for channel in [Channel::Oneshot, Channel::Crossbeam] {
        assert_trips(&rt, channel, Loop::RoundTrip, trip);
    }
}

/// A clock that the test sets.
#[derive(Drop)]
struct Moved {
    nanoseconds: Cell<u64>,
}

impl Clock for Moved {
    fn monotonic(&self) -> io::Result<Duration> {
        Ok(Duration::from_nanos(self.nanoseconds.get()))
    }

    fn since_1970(&self) -> io::Result<Duration> {
        self.monotonic()
    }
}

#[test]
fn the_time_is_that_of_the_work(rt: HostRuntime) {
    let clock = Moved {
        nanoseconds: Cell::new(5),
    };
    let time = timed(&clock, || {
        clock.nanoseconds.set(12);
        Ok(())
    });
    clock.nanoseconds.set(40);
    let time = time.expect(&rt, "the clock is read");
    assert_same!(rt; time, Duration::from_nanos(7));
}

/// A runtime whose clock reads how often its allocator was asked for.
#[derive(Drop)]
struct Asked<'a, R> {
    rt: &'a R,
    times: AtomicU64,
}

impl<'a, R> Asked<'a, R> {
    fn new(rt: &'a R) -> Asked<'a, R> {
        Asked {
            rt,
            times: AtomicU64::new(0),
        }
    }

    fn times(&self) -> u64 {
        self.times.load(Ordering::SeqCst)
    }
}

impl<'a, R: Threads> Threads for Asked<'a, R> {}

impl<'a, R: Wait> Wait for Asked<'a, R> {}

impl<'a, R: RandomSource> RandomSource for Asked<'a, R> {
    fn fill_bytes(&self, buf: &mut [u8]) -> io::Result<()> {
        self.rt.fill_bytes(buf)
    }
}

impl<'a, R: AllocGlobal> Alloc for Asked<'a, R> {
    type A = Global;

    fn alloc(&self) -> Global {
        self.times.fetch_add(1, Ordering::SeqCst);
        self.rt.alloc()
    }
}

impl<'a, R> Clock for Asked<'a, R> {
    fn monotonic(&self) -> io::Result<Duration> {
        Ok(Duration::from_nanos(self.times()))
    }

    fn since_1970(&self) -> io::Result<Duration> {
        self.monotonic()
    }
}

// Each of these rounds asks for the allocator.
#[test]
fn no_round_is_made_before_the_time_or_after_it(rt: HostRuntime) {
    let kind = Loop::Awaited(Awaited::MakeSendBlockOn);
    for channel in OF_FUTURES {
        let asked = Asked::new(&rt);
        let measured = measure(&asked, channel, kind, 20).expect(&rt, "each round is made");
        let times = asked.times();
        assert_same!(rt;
            (channel, times >= 20, measured.time),
            (channel, true, Duration::from_nanos(times))
        );
    }
}

/// How often so many rounds ask for the allocator. Fails unless each round awaits.
fn asked_in<R>(rt: &R, channel: Channel, count: u64) -> u64
where
    R: Asserts + AllocGlobal + RandomSource + Threads + Wait + Sync,
{
    let asked = Asked::new(rt);
    let kind = Loop::Awaited(Awaited::MakeSendAwait);
    let measured = measure(&asked, channel, kind, count).expect(rt, "each round is made");
    assert_same!(rt; (channel, measured.tally.polled), (channel, count));
    asked.times()
}

// All rounds run as tasks of one queue, so no round asks for the allocator.
#[test]
fn a_round_that_awaits_makes_no_executor(rt: HostRuntime) {
    for channel in OF_FUTURES {
        let (none, twenty) = (asked_in(&rt, channel, 0), asked_in(&rt, channel, 20));
        assert_same!(rt; (channel, twenty), (channel, none));
    }
}

#[test]
fn a_tally_adds_each_count_of_another(rt: HostRuntime) {
    let other = Tally {
        channels: 1,
        room: 2,
        tried: 3,
        waited: 4,
        pended: 5,
        polled: 6,
    };
    let mut tally = tally_of(10, other);
    tally.add(other);
    assert_same!(rt; tally, tally_of(11, other));
}

#[test]
fn memory_that_a_task_is_refused_is_a_fault_of_its_own(rt: HostRuntime) {
    let refused = task_fault(io::ErrorKind::OutOfMemory.into());
    assert!(rt; matches!(refused, Fault::OutOfMemory(_)));
    let failed = task_fault(io::ErrorKind::Other.into());
    assert!(rt; matches!(failed, Fault::TaskFailed));
}

#[test]
fn rounds_end_at_the_first_fault(rt: HostRuntime) {
    let mut made = 0u64;
    let ended = repeat(5, || {
        made = made.wrapping_add(1);
        if made == 3 {
            Err(Fault::MessageLost)
        } else {
            Ok(())
        }
    });
    let is_lost = matches!(ended, Err(Fault::MessageLost));
    assert_same!(rt; (is_lost, made), (true, 3));
}

#[test]
fn a_request_to_nobody_is_lost(rt: HostRuntime) {
    let (requests, served) = channel::<Request, ()>((), rt.alloc()).expect(&rt, "memory");
    drop(served);
    let lost = ask(&rt, rt.alloc(), requests, &mut Tally::new());
    assert!(rt; matches!(lost, Err(Fault::MessageLost)));
}

#[test]
fn a_request_that_never_comes_is_lost(rt: HostRuntime) {
    let (requests, served) = channel(&rt, rt.alloc()).expect(&rt, "memory");
    drop(requests);
    assert!(rt; matches!(serve(served, &mut Tally::new()), Err(Fault::MessageLost)));
}

/// A round whose message is lost once two rounds were made. It counts how often it is begun.
#[derive(Drop)]
struct LostAtTheThird<'a> {
    begun: &'a Cell<u64>,
}

impl PolledRound for LostAtTheThird<'_> {
    fn make(&self, _cx: &mut Context<'_>, tally: &mut Tally) -> Result<(), Fault> {
        self.begun.set(self.begun.get().wrapping_add(1));
        if tally.channels == 2 {
            return Err(Fault::MessageLost);
        }
        tally.made(8);
        Ok(())
    }
}

#[test]
fn rounds_in_a_task_end_at_the_first_fault(rt: HostRuntime) {
    let mut tally = Tally::new();
    let begun = Cell::new(0);
    let lost = repeat_in_task(&rt, 5, LostAtTheThird { begun: &begun }, &mut tally);
    let is_lost = matches!(lost, Err(Fault::MessageLost));
    let begun_first = begun.get();
    let made_two = repeat_in_task(&rt, 2, LostAtTheThird { begun: &begun }, &mut tally);
    made_two.expect(&rt, "two rounds are made");
    assert_same!(rt;
        (is_lost, begun_first, begun.get(), tally),
        (true, 3, 5, tally_of(2, made(8)))
    );
}
