//! Lives of a channel, line by line: what each step returns, and what the looks of both ends return after it.

use super::steps::{Ends, Life, Step, read};
use oneshot_asserts::{Asserts, assert_same, assert_that};
use oneshot_calls::{Fault, Tasks, shows};
use std::alloc::AllocGlobal;
use std::io;
use std::random::RandomSource;
use std::sync::{Arc, Wait};
use std::time::{Clock, Duration};

/// Futures that become ready.
pub(super) const READY: &[&str; 5] = &[
    "async_channel
    S send = Ok | gone full
    R poll1 = Ready(Ok(19)) | gone closed
    R poll1 = Ready(Err(RecvError)) | gone closed",
    "channel
    R future = future | open open
    R poll1 = Pending | open open
    R poll1 = Pending | open open
    S send = Ok | gone full
    R poll1 = Ready(Ok(19)) | gone closed
    R drop = dropped | gone gone",
    "async_channel
    R poll1 = Pending | open open
    R poll1 = Pending | open open
    R poll2 = Pending | open open
    R poll1 = Pending | open open
    S send = Ok | gone full
    R poll2 = Ready(Ok(19)) | gone closed",
    "async_channel
    R poll1 = Pending | open open
    S drop = dropped | gone closed
    R poll1 = Ready(Err(RecvError)) | gone closed",
    "async_channel
    S drop = dropped | gone closed
    R poll1 = Ready(Err(RecvError)) | gone closed",
];

/// Futures with `try_recv` before their polls, between them and after them.
pub(super) const TRIED: &[&str; 5] = &[
    "async_channel
    R try = Err(Empty) | open open
    S send = Ok | gone full
    R try = Ok(19) | gone closed
    R try = Err(Disconnected) | gone closed
    R poll1 = Ready(Err(RecvError)) | gone closed",
    "async_channel
    R poll1 = Pending | open open
    R try = Err(Empty) | open open
    R try = Err(Empty) | open open
    R poll1 = Pending | open open
    R try = Err(Empty) | open open
    S send = Ok | gone full
    R try = Ok(19) | gone closed
    R poll1 = Ready(Err(RecvError)) | gone closed
    R try = Err(Disconnected) | gone closed",
    "async_channel
    R poll1 = Pending | open open
    R try = Err(Empty) | open open
    S send = Ok | gone full
    R poll1 = Ready(Ok(19)) | gone closed
    R try = Err(Disconnected) | gone closed",
    "channel
    R future = future | open open
    R poll1 = Pending | open open
    R try = Err(Empty) | open open
    S drop = dropped | gone closed
    R try = Err(Disconnected) | gone closed
    R poll1 = Ready(Err(RecvError)) | gone closed",
    "async_channel
    R poll1 = Pending | open open
    R try = Err(Empty) | open open
    R drop = dropped | closed gone
    S send = Err | error gone
    S inner = 19 | error gone
    S drop = dropped | gone gone",
];

/// Futures that are dropped before they are ready.
pub(super) const DROPPED: &[&str; 7] = &[
    "async_channel
    R drop = dropped | closed gone
    S drop = dropped | gone gone",
    "channel
    R future = future | open open
    S drop = dropped | gone closed
    R drop = dropped | gone gone",
    "async_channel
    R poll1 = Pending | open open
    R drop = dropped | closed gone
    S send = Err | error gone
    S inner = 19 | error gone
    S drop = dropped | gone gone",
    "async_channel
    R poll1 = Pending | open open
    R poll1 = Pending | open open
    R poll1 = Pending | open open
    R drop = dropped | closed gone
    S drop = dropped | gone gone",
    "async_channel
    R poll1 = Pending | open open
    R poll1 = Pending | open open
    R poll2 = Pending | open open
    R drop = dropped | closed gone
    S drop = dropped | gone gone",
    "async_channel
    R poll1 = Pending | open open
    S send = Ok | gone full
    R drop = dropped | gone gone",
    "async_channel
    R poll1 = Pending | open open
    S drop = dropped | gone closed
    R drop = dropped | gone gone",
];

/// Ends that were raw for a while.
pub(super) const RAW: &[&str; 5] = &[
    "channel
    S raw = raw | open open
    R raw = raw | open open
    R try = Err(Empty) | open open
    S send = Ok | gone full
    R raw = raw | gone full
    R try = Ok(19) | gone closed
    R raw = raw | gone closed
    R try = Err(Disconnected) | gone closed",
    "channel
    R try = Err(Empty) | open open
    S dropraw = dropped | gone closed
    R try = Err(Disconnected) | gone closed
    R dropraw = dropped | gone gone",
    "channel
    R dropraw = dropped | closed gone
    S raw = raw | closed gone
    S send = Err | error gone
    S into = 19 | gone gone",
    "channel
    R dropraw = dropped | closed gone
    S dropraw = dropped | gone gone",
    "channel
    S send = Ok | gone full
    R dropraw = dropped | gone gone",
];

/// Receivers whose message is received.
pub(super) const RECEIVED: &[&str; 3] = &[
    "channel
    S send = Ok | gone full
    R recv = Ok(19) | gone gone",
    "channel
    S send = Ok | gone full
    R ref = Ok(19) | gone closed
    R ref = Err(RecvError) | gone closed
    R try = Err(Disconnected) | gone closed
    R recv = Err(RecvError) | gone gone",
    "channel
    S send = Ok | gone full
    R try = Ok(19) | gone closed
    R try = Err(Disconnected) | gone closed
    R ref = Err(RecvError) | gone closed
    R fartimeout = Err(Disconnected) | gone closed",
];

/// Receivers whose message nobody receives, or that get none.
pub(super) const UNRECEIVED: &[&str; 6] = &[
    "channel
    S send = Ok | gone full
    R drop = dropped | gone gone",
    "channel
    R drop = dropped | closed gone
    S send = Err | error gone
    S inner = 19 | error gone
    S drop = dropped | gone gone",
    "channel
    R drop = dropped | closed gone
    S send = Err | error gone
    S into = 19 | gone gone",
    "channel
    S drop = dropped | gone closed
    R drop = dropped | gone gone",
    "channel
    R drop = dropped | closed gone
    S drop = dropped | gone gone",
    "channel
    S drop = dropped | gone closed
    R ref = Err(RecvError) | gone closed
    R recv = Err(RecvError) | gone gone",
];

/// Receivers whose time is over before the sender acts.
pub(super) const OVER: &[&str; 5] = &[
    "channel
    R try = Err(Empty) | open open
    R zerotimeout = Err(Timeout) | open open
    R pastdeadline = Err(Timeout) | open open
    R zerodeadline = Err(Timeout) | open open
    R try = Err(Empty) | open open
    S send = Ok | gone full
    R zerotimeout = Ok(19) | gone closed
    R zerotimeout = Err(Disconnected) | gone closed
    R try = Err(Disconnected) | gone closed",
    "channel
    R zerotimeout = Err(Timeout) | open open
    S send = Ok | gone full
    R recv = Ok(19) | gone gone",
    "channel
    R zerotimeout = Err(Timeout) | open open
    S drop = dropped | gone closed
    R try = Err(Disconnected) | gone closed
    R drop = dropped | gone gone",
    "channel
    R zerotimeout = Err(Timeout) | open open
    R drop = dropped | closed gone
    S send = Err | error gone
    S inner = 19 | error gone
    S drop = dropped | gone gone",
    "channel
    R zerotimeout = Err(Timeout) | open open
    R future = future | open open
    R poll1 = Pending | open open
    S send = Ok | gone full
    R poll1 = Ready(Ok(19)) | gone closed",
];

/// Every life but those of `TIMED`.
const LIVES: &[&[&str]; 7] = &[READY, TRIED, DROPPED, RAW, RECEIVED, UNRECEIVED, OVER];

/// Timed receives, which get what is there whenever their time is over.
const TIMED: &[&str; 6] = &[
    "zerotimeout",
    "fartimeout",
    "forever",
    "pastdeadline",
    "zerodeadline",
    "fardeadline",
];

/// The life of a message that was sent before a timed receive, which is named `timed`.
const SENT: &str = "channel
    S send = Ok | gone full
    R timed = Ok(19) | gone closed
    R timed = Err(Disconnected) | gone closed";

/// The life of a sender that was dropped before a timed receive, which is named `timed`.
const GONE: &str = "channel
    S drop = dropped | gone closed
    R timed = Err(Disconnected) | gone closed";

/// Makes a step. Fails unless it returns what it states.
fn assert_reply<W: Wait + Clock + Drop>(
    rt: &(impl Wait + Clock + AllocGlobal + RandomSource + Asserts),
    ends: &mut Ends<W>,
    tasks: &Tasks,
    step: &Step<'_>,
) {
    let reply = ends.make(rt, tasks, step.call);
    assert_that!(rt; shows(&reply, step.reply), (step.line, &reply));
}

/// Makes the steps of a life, with tasks of its own for polls, and drops the ends that are left. Fails
/// unless each step returns what the life states, and the message then has no owner but the test.
pub(super) fn live(
    rt: &(impl Wait + Clock + AllocGlobal + RandomSource + Asserts),
    life: &Life<'_>,
) {
    let tasks = Tasks::new(rt).expect(rt, "two tasks");
    let mut ends = Ends::open(rt, rt, life);
    for step in &life.steps {
        assert_reply(rt, &mut ends, &tasks, step);
    }
    assert_same!(rt; (life.text, ends.finish()), (life.text, 1));
}

/// A runtime with an `Arc`, whose count shows whether the runtime is alive.
#[derive(Drop)]
struct CountedRuntime<'a, R> {
    rt: &'a R,
    _alive: Arc<u8>,
}

impl<'a, R: Asserts> CountedRuntime<'a, R> {
    fn new(rt: &'a R, alive: &Arc<u8>) -> CountedRuntime<'a, R> {
        CountedRuntime {
            rt,
            _alive: Arc::try_clone(alive).expect(rt, "memory"),
        }
    }
}

impl<'a, R: Wait> Wait for CountedRuntime<'a, R> {}

impl<'a, R: Clock> Clock for CountedRuntime<'a, R> {
    fn monotonic(&self) -> io::Result<Duration> {
        self.rt.monotonic()
    }

    fn since_1970(&self) -> io::Result<Duration> {
        self.rt.since_1970()
    }
}

/// How many owners the message has in the channel or its error, and how many the runtime has, where the looks show
/// this: the message is in the channel where a look sees it, and the runtime lives as long as the receiver.
fn owners_by((sender, receiver): (&str, &str)) -> (usize, usize) {
    let message = if sender == "error" || receiver == "full" {
        1
    } else {
        0
    };
    let runtime = if receiver == "gone" { 1 } else { 2 };
    (message, runtime)
}

/// Fails unless the looks after a step return what it states, and the message and the runtime, which has an owner
/// beside `alive`, are owned accordingly.
fn assert_looks_after<W: Wait + Clock + Drop>(
    rt: &(impl Wait + Clock + AllocGlobal + RandomSource + Asserts),
    ends: &mut Ends<W>,
    step: &Step<'_>,
    alive: &Arc<u8>,
) {
    let looks = ends.looks(rt);
    let owners = (ends.owners_inside(), Arc::strong_count(alive));
    let wanted = (step.looks, owners_by(step.looks));
    assert_same!(rt; (step.line, (looks, owners)), (step.line, wanted));
}

/// Makes the steps of a life. Fails unless each returns what the life states, and so do the looks after it, and unless
/// the message and the runtime have the owners that go with the looks.
fn assert_looks(rt: &(impl Wait + Clock + AllocGlobal + RandomSource + Asserts), text: &str) {
    let alive = Arc::new(rt.alloc(), 0u8).expect(rt, "memory");
    let tasks = Tasks::new(rt).expect(rt, "two tasks");
    let life = read(rt, text).expect(rt, "a life");
    let mut ends = Ends::open(rt, CountedRuntime::new(rt, &alive), &life);
    assert_steps(rt, &mut ends, &tasks, &life, &alive);
    assert_same!(rt;
        (text, ends.finish(), Arc::strong_count(&alive)),
        (text, 1, 1)
    );
}

/// Makes the steps, of which the first finds both ends open.
fn assert_steps<W: Wait + Clock + Drop>(
    rt: &(impl Wait + Clock + AllocGlobal + RandomSource + Asserts),
    ends: &mut Ends<W>,
    tasks: &Tasks,
    life: &Life<'_>,
    alive: &Arc<u8>,
) {
    let text = life.text;
    assert_same!(rt; (text, ends.looks(rt)), (text, ("open", "open")));
    for step in &life.steps {
        assert_reply(rt, ends, tasks, step);
        assert_looks_after(rt, ends, step, alive);
    }
}

#[test]
fn each_step_of_a_life_returns_what_its_line_states(rt: HostRuntime) {
    for lives in LIVES {
        for life in *lives {
            assert_looks(&rt, life);
        }
    }
}

fn live_by(rt: &(impl Wait + Clock + AllocGlobal + RandomSource + Asserts), text: &str) {
    live(rt, &read(rt, text).expect(rt, "a life"));
}

/// Fails unless this life, with this timed receive, goes as it states.
fn assert_timed(
    rt: &(impl Wait + Clock + AllocGlobal + RandomSource + Asserts),
    life: &str,
    receive: &str,
) {
    let life = life.replace(rt.alloc(), "timed", receive);
    assert_looks(rt, &life.expect(rt, "memory"));
}

#[test]
#[should_panic(expected = "(\"R ref = Err(Disconnected) | gone closed\", Err(RecvError))")]
fn a_receive_with_another_error_ends_a_test(rt: HostRuntime) {
    assert_timed(&rt, SENT, "ref");
}

#[test]
#[should_panic(expected = "(\"R ref = Err(Disconnected) | gone closed\", Err(RecvError))")]
fn a_drop_with_another_error_ends_a_test(rt: HostRuntime) {
    assert_timed(&rt, GONE, "ref");
}

#[test]
fn a_timed_receive_gets_what_is_there_whenever_its_time_is_over(rt: HostRuntime) {
    for receive in TIMED {
        assert_timed(&rt, SENT, receive);
        assert_timed(&rt, GONE, receive);
    }
}

#[test]
#[should_panic(expected = "(\"R try = Ok(19) | gone open\", Err(Empty))")]
fn another_reply_ends_a_test(rt: HostRuntime) {
    live_by(&rt, "channel\nR try = Ok(19) | gone open");
}

// The text of the reply is the beginning of what the line has.
#[test]
#[should_panic(expected = "(\"S send = Ok(19) | gone full\", Ok)")]
fn a_shorter_reply_ends_a_test(rt: HostRuntime) {
    live_by(&rt, "channel\nS send = Ok(19) | gone full");
}

#[test]
fn a_line_that_is_no_step_is_reported(rt: HostRuntime) {
    for (text, line) in [
        (
            "channel\n    R tri = Ok(19) | gone open",
            "R tri = Ok(19) | gone open",
        ),
        (
            "channel\n    R try Ok(19) | gone open",
            "R try Ok(19) | gone open",
        ),
        ("channel\n    R try = Ok(19)", "R try = Ok(19)"),
    ] {
        assert_same!(rt; read(&rt, text).err(), Some(Fault::Unknown(line)));
    }
}

#[test]
#[should_panic(expected = "left: (\"R try = Err(Empty) | open full\", ")]
fn another_look_ends_a_test(rt: HostRuntime) {
    assert_looks(&rt, "channel\nR try = Err(Empty) | open full");
}
