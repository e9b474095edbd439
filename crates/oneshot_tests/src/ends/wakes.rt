//! Two tasks of one executor that wait for one future and for something else, and how often each is woken.

use super::open_async;
use futures::Future;
use futures::executor::LocalPool;
use futures::task::{Context, Poll, Source, Waker};
use oneshot_asserts::{Asserts, assert_same, assert_that};
use oneshot_calls::{Ask, Numbered, ReceiverCall, Receiving, Reply, Task, script, shows};
use oneshot_channel::{Promise, Receiver, Sender};
use std::alloc::AllocGlobal;
use std::cell::Cell;
use std::random::RandomSource;
use std::sync::Wait;
use std::time::Clock;

/// The calls of a future before its sender acts, and how often that act wakes each task.
pub(crate) type Waits = (&'static str, [u64; 2]);

/// In no row does one task poll twice and then the other: that poll would drop the first task's spare copy, whose drop
/// wakes the first task.
pub(crate) const WAITS: &[Waits; 7] = &[
    ("poll1 poll1 poll1 poll1 poll1", [1, 0]),
    ("poll1 poll2 poll1 poll2 poll1 poll2", [0, 1]),
    ("poll1 poll1 try poll1 try try poll1", [1, 0]),
    ("try poll1 poll2 try poll1 try try", [1, 0]),
    ("try try poll1 try try try", [1, 0]),
    ("poll2 try poll2 try poll2 poll2", [0, 1]),
    ("try try", [0, 0]),
];

/// More polls than any call makes. A task that keeps waking itself makes this many.
const MOST_POLLS: usize = 100;

/// Where the future is while neither task polls it.
type Place<T, W, P> = Cell<Option<Receiving<T, Receiver<T, W, P>>>>;

/// Has a task poll the future, and counts how often the task is woken.
#[derive(Drop)]
struct Bell {
    waker: Cell<Option<Waker>>,
    is_rung: Cell<bool>,
    wakes: Cell<u64>,
}

/// A task that waits for its bell, and polls the future if the bell was rung.
#[derive(Drop)]
struct Listener<'a, T: Drop, W: Wait + Clock + Drop, P: Promise<T>> {
    bell: &'a Bell,
    source: Source,
    place: &'a Place<T, W, P>,
}

impl Bell {
    fn new() -> Bell {
        Bell {
            waker: Cell::new(None),
            is_rung: Cell::new(false),
            wakes: Cell::new(0),
        }
    }

    /// Wakes the task, which then polls the future.
    fn ring(&self) {
        self.is_rung.set(true);
        drop(self.waker.take());
    }

    /// How often the task was woken since the last call.
    fn count(&self) -> u64 {
        self.wakes.replace(0)
    }
}

impl<'a, T: Drop, W: Wait + Clock + Drop, P: Promise<T>> Listener<'a, T, W, P> {
    fn new(bell: &'a Bell, place: &'a Place<T, W, P>) -> Listener<'a, T, W, P> {
        Listener {
            bell,
            source: Source::new(),
            place,
        }
    }
}

impl<'a, T: Drop, W: Wait + Clock + Drop, P: Promise<T>> Future for Listener<'a, T, W, P> {
    type Output = ();

    fn poll(&mut self, cx: &mut Context<'_>) -> Poll<()> {
        let Bell {
            waker,
            is_rung,
            wakes,
        } = self.bell;
        wakes.set(wakes.get().saturating_add(1));
        if is_rung.replace(false)
            && let Some(mut future) = self.place.take()
        {
            // The sender has not acted yet. The test asks for the reply once it has.
            drop(future.poll_in(cx));
            self.place.set(Some(future));
        }
        let mut own = waker.take();
        let pending = cx.register(&self.source, &mut own);
        waker.set(own);
        pending
    }
}

/// Gives a pool one more task.
fn spawn<F: Future<Output = ()>>(rt: &impl Asserts, pool: &LocalPool<F>, task: F)
    requires { F.can_poll task }
{
    let spawner = pool.spawner().expect(rt, "memory");
    spawner.spawn(task).expect(rt, "memory");
}

/// A pool of two tasks that wait for these bells.
fn listening<'a, T: Drop, W: Wait + Clock + Drop, P: Promise<T>>(
    rt: &(impl RandomSource + AllocGlobal + Asserts),
    bells: &'a [Bell; 2],
    place: &'a Place<T, W, P>,
) -> LocalPool<Listener<'a, T, W, P>> {
    let mut pool = LocalPool::new(rt).expect(rt, "a pool");
    for bell in bells {
        spawn(rt, &pool, Listener::new(bell, place));
    }
    pool.run_until_stalled(MOST_POLLS);
    pool
}

/// Makes a call of the future in its place.
fn call_in_place<
    T: Numbered + Drop,
    W: Wait + Clock + Drop,
    P: Promise<T>,
    R: Wait + Asserts + Clock + RandomSource + AllocGlobal,
>(rt: &R, place: &Place<T, W, P>, call: ReceiverCall) -> Reply<u64> {
    let mut future = place.take().expect(rt, "the future is in its place");
    let reply = future.make(rt, None, call).numbered();
    place.set(Some(future));
    reply
}

/// Makes a call, and fails unless it returns this text.
fn assert_reply<
    T: Numbered + Drop,
    W: Wait + Clock + Drop,
    P: Promise<T>,
    R: Wait + Asserts + Clock + RandomSource + AllocGlobal,
>(rt: &R, place: &Place<T, W, P>, call: ReceiverCall, wanted: &str) {
    let reply = call_in_place(rt, place, call);
    assert_that!(rt; shows(&reply, wanted), (call, &reply));
}

/// Makes a call, and returns how often it wakes each task. A task polls once its bell rings; any other call finds
/// nothing.
fn make<
    T: Numbered + Drop,
    W: Wait + Clock + Drop,
    P: Promise<T>,
    R: Wait + Asserts + Clock + RandomSource + AllocGlobal,
>(rt: &R, [first, second]: &[Bell; 2], place: &Place<T, W, P>, call: ReceiverCall) -> [u64; 2] {
    match call {
        ReceiverCall::Poll(Task::One) => {
            first.ring();
            [1, 0]
        }
        ReceiverCall::Poll(Task::Two) => {
            second.ring();
            [0, 1]
        }
        call => {
            assert_reply(rt, place, call, "Err(Empty)");
            [0, 0]
        }
    }
}

/// Fails unless each task was woken so often since the last count, at this step of these calls: 0 is their beginning,
/// and the step behind them the sender's.
fn assert_wakes(
    rt: &impl Asserts,
    [first, second]: &[Bell; 2],
    wakes: [u64; 2],
    step: usize,
    calls: &str,
) {
    let counts = [first.count(), second.count()];
    assert_same!(rt; (calls, step, counts), (calls, step, wakes));
}

/// Makes the calls of a future. Fails at another count of wakes, and returns the step behind them.
fn assert_calls_wake<
    'a,
    T: Numbered + Drop,
    W: Wait + Clock + Drop,
    P: Promise<T>,
    R: Wait + Asserts + Clock + RandomSource + AllocGlobal,
>(
    rt: &R,
    bells: &'a [Bell; 2],
    place: &'a Place<T, W, P>,
    pool: &mut LocalPool<Listener<'a, T, W, P>>,
    calls: &str,
) -> usize {
    let script = script::<ReceiverCall>(rt.alloc(), calls).expect(rt, "a script");
    let mut step = 1usize;
    for call in &script {
        let wakes = make(rt, bells, place, *call);
        pool.run_until_stalled(MOST_POLLS);
        assert_wakes(rt, bells, wakes, step, calls);
        step = step.saturating_add(1);
    }
    step
}

/// Makes the calls of a future, then the sender's `act`, and then a `try`. Fails at another count of wakes, and unless
/// the `try` returns `wanted` and wakes no task.
pub(crate) fn waited_for<
    T: Numbered + Drop,
    W: Wait + Clock + Drop,
    P: Promise<T>,
    R: Wait + Asserts + Clock + RandomSource + AllocGlobal,
    F: FnOnce(),
>(rt: &R, waits: &Waits, future: Receiving<T, Receiver<T, W, P>>, act: F, wanted: &str)
    requires { F.IsAlwaysCallable act }
{
    let (calls, woken) = *waits;
    let place = Cell::new(Some(future));
    let bells = [Bell::new(), Bell::new()];
    let mut pool = listening(rt, &bells, &place);
    assert_wakes(rt, &bells, [1, 1], 0, calls);
    let step = assert_calls_wake(rt, &bells, &place, &mut pool, calls);
    act();
    pool.run_until_stalled(MOST_POLLS);
    assert_wakes(rt, &bells, woken, step, calls);
    assert_reply(rt, &place, ReceiverCall::Ask(Ask::Try), wanted);
    pool.run_until_stalled(MOST_POLLS);
    assert_wakes(rt, &bells, [0, 0], step, calls);
}

/// Sends 19 to a receiver that is there.
fn send(rt: &impl Asserts, sender: Sender<u64>) {
    assert!(rt; sender.send(19).is_ok());
}

/// Fails unless a message wakes the tasks as often as `waits` states, and is then found.
fn assert_a_message_wakes(
    rt: &(impl Wait + Asserts + Clock + RandomSource + AllocGlobal),
    waits: &Waits,
) {
    let (sender, future) = open_async(rt, rt);
    let future = Receiving::of_future(future);
    waited_for(rt, waits, future, || send(rt, sender), "Ok(19)");
}

/// Fails unless the drop of the sender wakes the tasks as often as `waits` states, and is then found.
fn assert_a_drop_wakes(
    rt: &(impl Wait + Asserts + Clock + RandomSource + AllocGlobal),
    waits: &Waits,
) {
    let (sender, future) = open_async::<u64, _>(rt, rt);
    let future = Receiving::of_future(future);
    waited_for(rt, waits, future, || drop(sender), "Err(Disconnected)");
}

#[test]
#[should_panic(expected = "right: (\"poll1\", 2, [0, 1])")]
fn a_drop_that_wakes_another_task_ends_a_test(rt: HostRuntime) {
    assert_a_drop_wakes(&rt, &("poll1", [0, 1]));
}

#[test]
fn a_task_that_waits_beside_others_is_woken_by_the_sender_alone(rt: HostRuntime) {
    for waits in WAITS {
        assert_a_message_wakes(&rt, waits);
        assert_a_drop_wakes(&rt, waits);
    }
}

/// Makes two polls by the first task, and one by the second. Fails unless the last also wakes the first task.
fn assert_wakes_the_first<T: Numbered + Drop, W: Wait + Clock + Drop, P: Promise<T>>(
    rt: &(impl Wait + Asserts + Clock + RandomSource + AllocGlobal),
    future: Receiving<T, Receiver<T, W, P>>,
) {
    let place = Cell::new(Some(future));
    let bells = [Bell::new(), Bell::new()];
    let mut pool = listening(rt, &bells, &place);
    assert_wakes(rt, &bells, [1, 1], 0, "");
    let step = assert_calls_wake(rt, &bells, &place, &mut pool, "poll1 poll1");
    let _ = make(rt, &bells, &place, ReceiverCall::Poll(Task::Two));
    pool.run_until_stalled(MOST_POLLS);
    assert_wakes(rt, &bells, [1, 1], step, "poll1 poll1 poll2");
}

// The channel gives back the copy that the first task's second poll replaces. The future keeps it until another task
// polls, and its drop wakes the first task.
#[test]
fn a_poll_of_another_task_wakes_the_first(rt: HostRuntime) {
    let (_sender, future) = open_async::<u64, _>(&rt, &rt);
    assert_wakes_the_first(&rt, Receiving::of_future(future));
}

#[test]
#[should_panic(expected = "(\"poll1 poll1 poll2\", 3, ")]
fn a_poll_that_wakes_its_own_task_alone_ends_a_test(rt: HostRuntime) {
    let (sender, future) = open_async::<u64, _>(&rt, &rt);
    drop(sender);
    assert_wakes_the_first(&rt, Receiving::of_future(future));
}

#[test]
#[should_panic(expected = "right: (\"\", 0, [0, 1])")]
fn a_wake_that_nobody_made_ends_a_test(rt: HostRuntime) {
    assert_wakes(&rt, &[Bell::new(), Bell::new()], [0, 1], 0, "");
}

#[test]
#[should_panic(expected = "(Ask(Try), Err(Empty))")]
fn a_message_that_nobody_sent_ends_a_test(rt: HostRuntime) {
    let (_sender, future) = open_async::<u64, _>(&rt, &rt);
    let future = Receiving::of_future(future);
    waited_for(&rt, &("poll1", [0, 0]), future, || {}, "Ok(19)");
}
