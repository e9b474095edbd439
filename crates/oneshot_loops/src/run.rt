//! Runs each loop over each channel.

use crate::channels::Channel;
use crate::fault::Fault;
use crate::loops::{Awaited, Loop};
use crate::polled::repeat_in_task;
use crate::queues::queue;
use crate::rounds::repeat;
use crate::tally::Tally;
use crate::{
    awaited_rounds, awaited_trips, crossbeam_rounds, crossbeam_trips, futures_awaited_rounds,
    futures_rounds, futures_trips, round_trip, rounds,
};
use std::alloc::AllocGlobal;
use std::random::RandomSource;
use std::sync::Wait;
use std::thread::Threads;
use std::time::Clock;

/// A message of 8 bytes.
const SMALL: u64 = 7;

/// A message of 4,096 bytes.
// A function: each use of a constant array would be read as its 4,096 elements.
fn large() -> [u8; 4096] {
    [7; 4096]
}

/// Drops how many round trips were made, and keeps a fault.
fn without_count(trips: Result<u64, Fault>) -> Result<(), Fault> {
    match trips {
        Ok(_) => Ok(()),
        Err(fault) => Err(fault),
    }
}

/// Makes `count` rounds of the loop `kind` over `channel`, and counts what they did in `tally`.
///
/// `Err`: the channel cannot run the loop, or a round's fault.
pub fn run_loop<R: AllocGlobal + RandomSource + Threads + Wait + Clock + Sync>(
    rt: &R,
    channel: Channel,
    kind: Loop,
    count: u64,
    tally: &mut Tally,
) -> Result<(), Fault> {
    match channel {
        Channel::Oneshot => run_oneshot(rt, kind, count, tally),
        Channel::Futures => run_futures(rt, kind, count, tally),
        Channel::Crossbeam => run_crossbeam(rt, kind, count, tally),
    }
}

/// Runs a loop over this repository's channel.
fn run_oneshot<R: AllocGlobal + RandomSource + Threads + Wait + Clock + Sync>(
    rt: &R,
    kind: Loop,
    count: u64,
    tally: &mut Tally,
) -> Result<(), Fault> {
    let alloc = rt.alloc();
    match kind {
        Loop::MakeSendReceiveDrop => repeat(count, || {
            rounds::make_send_receive_drop(alloc, SMALL, tally)
        }),
        Loop::MakeDrop => repeat(count, || rounds::make_drop::<u64>(alloc, tally)),
        Loop::MakeSendRecv => repeat(count, || {
            rounds::make_send_recv(rt, alloc, SMALL, tally)
        }),
        Loop::MakePollSendPoll => {
            let round = rounds::MakePollSendPoll::new(alloc, SMALL);
            repeat_in_task(rt, count, round, tally)
        }
        Loop::MakeSendReceiveDropLarge => repeat(count, || {
            rounds::make_send_receive_drop(alloc, large(), tally)
        }),
        Loop::RoundTrip => without_count(round_trip::round_trips(rt, alloc, count, tally)),
        Loop::Awaited(kind) => run_oneshot_awaited(rt, kind, count, tally),
    }
}

/// Runs a loop over `futures::channel::oneshot`, whose receiver is a future and has no call that blocks.
fn run_futures<R: AllocGlobal + RandomSource + Threads + Wait + Sync>(
    rt: &R,
    kind: Loop,
    count: u64,
    tally: &mut Tally,
) -> Result<(), Fault> {
    let alloc = rt.alloc();
    match kind {
        Loop::MakeSendReceiveDrop => repeat(count, || {
            futures_rounds::make_send_receive_drop(alloc, SMALL, tally)
        }),
        Loop::MakeDrop => repeat(count, || { futures_rounds::make_drop::<u64>(alloc, tally) }),
        Loop::MakeSendRecv => Err(Fault::CannotRun),
        Loop::MakePollSendPoll => {
            let round = futures_rounds::MakePollSendPoll::new(alloc, SMALL);
            repeat_in_task(rt, count, round, tally)
        }
        Loop::MakeSendReceiveDropLarge => repeat(count, || {
            futures_rounds::make_send_receive_drop(alloc, large(), tally)
        }),
        Loop::RoundTrip => Err(Fault::CannotRun),
        Loop::Awaited(kind) => run_futures_awaited(rt, kind, count, tally),
    }
}

/// Runs a loop over `crossbeam_channel`, which cannot be polled.
fn run_crossbeam<R: AllocGlobal + Threads + Wait + Sync>(
    rt: &R,
    kind: Loop,
    count: u64,
    tally: &mut Tally,
) -> Result<(), Fault> {
    let alloc = rt.alloc();
    match kind {
        Loop::MakeSendReceiveDrop => repeat(count, || {
            crossbeam_rounds::make_send_receive_drop(rt, alloc, SMALL, tally)
        }),
        Loop::MakeDrop => repeat(count, || {
            crossbeam_rounds::make_drop::<u64>(alloc, tally)
        }),
        Loop::MakeSendRecv => repeat(count, || {
            crossbeam_rounds::make_send_recv(rt, alloc, SMALL, tally)
        }),
        Loop::MakePollSendPoll => Err(Fault::CannotRun),
        Loop::MakeSendReceiveDropLarge => repeat(count, || {
            crossbeam_rounds::make_send_receive_drop(rt, alloc, large(), tally)
        }),
        Loop::RoundTrip => without_count(crossbeam_trips::round_trips(rt, alloc, count, tally)),
        Loop::Awaited(_) => Err(Fault::CannotRun),
    }
}

/// Runs a loop of futures over this repository's channel.
fn run_oneshot_awaited<R: AllocGlobal + RandomSource + Threads + Wait + Sync>(
    rt: &R,
    kind: Awaited,
    count: u64,
    tally: &mut Tally,
) -> Result<(), Fault> {
    let alloc = rt.alloc();
    match kind {
        Awaited::MakeSendBlockOn => repeat(count, || {
            awaited_rounds::make_send_block_on(rt, SMALL, tally)
        }),
        Awaited::MakeSendAwait => {
            let queue = queue(rt)?;
            repeat(count, || {
                awaited_rounds::make_send_await(rt, &queue, alloc, SMALL, tally)
            })
        }
        Awaited::PollPending => {
            let round = awaited_rounds::PollPending::new(alloc, count, SMALL);
            repeat_in_task(rt, 1, round, tally)
        }
        Awaited::RoundTripAwait => without_count(awaited_trips::round_trips(
            rt, alloc, count, tally,
        )),
    }
}

/// Runs a loop of futures over `futures::channel::oneshot`.
fn run_futures_awaited<R: AllocGlobal + RandomSource + Threads + Wait + Sync>(
    rt: &R,
    kind: Awaited,
    count: u64,
    tally: &mut Tally,
) -> Result<(), Fault> {
    let alloc = rt.alloc();
    match kind {
        Awaited::MakeSendBlockOn => repeat(count, || {
            futures_awaited_rounds::make_send_block_on(rt, SMALL, tally)
        }),
        Awaited::MakeSendAwait => {
            let queue = queue(rt)?;
            repeat(count, || {
                futures_awaited_rounds::make_send_await(rt, &queue, alloc, SMALL, tally)
            })
        }
        Awaited::PollPending => {
            let round = futures_awaited_rounds::PollPending::new(alloc, count, SMALL);
            repeat_in_task(rt, 1, round, tally)
        }
        Awaited::RoundTripAwait => without_count(futures_trips::round_trips(
            rt, alloc, count, tally,
        )),
    }
}
