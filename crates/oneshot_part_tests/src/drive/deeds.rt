//! The life of a receiver or of a future over a ground in memory as text. Its first line is `channel` or
//! `async_channel`. Each further line is a deed and its reply. After `|`, a line of a receiver has the content of its
//! hand, which is 9 at first, and a line of a future has the counts of its tasks.

ghost use Rattle.std.specs.Prelude.{◌≡◌};
ghost use Rattle.oneshot_machine.specs.Logs.{receiver_of};
ghost use Rattle.oneshot_drive.specs.BetweenCalls.{AtRest, IsReady};
ghost use Rattle.oneshot_drive.specs.Polls.{IsPolled};

use crate::drive::steps::steps_of;
use oneshot_asserts::{Asserts, assert_same};
use oneshot_calls::{Ask, Bare, Call, ReceiverCall, Reply, SenderCall, Task};
use oneshot_drive::{
    async_try_recv, drop_async, drop_receiver, poll, recv, recv_deadline, recv_ref, recv_timeout,
    try_recv,
};
use oneshot_memory::{MemoryFuture, MemoryReceiver, MemoryTask, Wakes};
use std::alloc::{AllocError, AllocGlobal, Global};
use std::sync::Wait;
use std::time::Duration;

/// The lines of a life, and all steps of the receiver or of the future.
pub(crate) type Life = (&'static str, &'static str);

/// What a receiver or a future does, or what happens beside it.
#[derive(Clone, Copy)]
enum Deed {
    Calls(ReceiverCall),
    /// The sender sends 7.
    Sends,
    /// The sender is dropped.
    Goes,
    /// The sender will send 7 after this many pauses of the receiver, and linger for this many.
    WillSend(u64, u64),
    /// As `WillSend`, but the sender will be dropped.
    WillGo(u64, u64),
    /// The deadline will be over after this many readings of the clock. Without this deed it is over at once.
    OverAfter(u64),
    /// From now on each copy of a task's waker is refused.
    Refuses,
}

/// A line of a life.
#[derive(Clone, Copy)]
struct Line<'a> {
    text: &'a str,
    deed: Deed,
    reply: &'a str,
    has: &'a str,
}

fn read(text: &str) -> Option<Line<'_>> {
    let text = text.trim_ascii();
    let (done, has) = text.split_once(" | ")?;
    let (deed, reply) = match done.split_once(" = ") {
        Some((call, reply)) => (read_call(call), reply),
        None => (read_beside(done), Bare::Nothing.text()),
    };
    Some(Line {
        text,
        deed: deed?,
        reply,
        has,
    })
}

fn read_call(text: &str) -> Option<Deed> {
    match Call::of_text(text)? {
        Call::Receiver(call) => Some(Deed::Calls(call)),
        Call::Sender(_) => None,
    }
}

/// Reads what happens beside a receiver.
fn read_beside(text: &str) -> Option<Deed> {
    match text.split_once(" in ") {
        Some((deed, times)) => read_planned(deed, times),
        None => read_done(text),
    }
}

fn read_done(text: &str) -> Option<Deed> {
    match Call::of_text(text) {
        Some(Call::Sender(SenderCall::Send)) => Some(Deed::Sends),
        Some(Call::Sender(SenderCall::Drop)) => Some(Deed::Goes),
        None if text == "refuse" => Some(Deed::Refuses),
        _ => None,
    }
}

/// Reads what will happen. `S send`, `3 for 1`: the sender will send after 3 pauses, and linger for 1.
fn read_planned(deed: &str, times: &str) -> Option<Deed> {
    let (first, lingers) = times.split_once(" for ").unwrap_or((times, "0"));
    let (first, lingers) = (first.parse::<u64>().ok()?, lingers.parse::<u64>().ok()?);
    match Call::of_text(deed) {
        Some(Call::Sender(SenderCall::Send)) => Some(Deed::WillSend(first, lingers)),
        Some(Call::Sender(SenderCall::Drop)) => Some(Deed::WillGo(first, lingers)),
        None if deed == "over" => Some(Deed::OverAfter(first)),
        _ => None,
    }
}

impl Line<'_> {
    /// Fails unless the line states this reply, and that the receiver's hand then has this.
    fn assert_hand<R: Asserts + AllocGlobal>(&self, rt: &R, reply: Reply<u64>, hand: &Option<u8>) {
        let hand = format!(in rt.alloc(); "{hand:?}").expect(rt, "memory");
        self.assert(rt, reply, &hand);
    }

    /// Fails unless the line states this reply, and that the future's tasks then have these counts.
    fn assert_counts<R: Asserts + AllocGlobal>(
        &self,
        rt: &R,
        reply: Reply<u64>,
        tasks: &[MemoryTask; 2],
    ) {
        let counts = counts_of(rt.alloc(), tasks).expect(rt, "memory");
        self.assert(rt, reply, &counts);
    }

    /// Fails unless the line states this reply, and that the life then has this.
    fn assert<R: Asserts + AllocGlobal>(&self, rt: &R, reply: Reply<u64>, has: &str) {
        let reply = reply.to_string(rt.alloc()).expect(rt, "memory");
        assert_same!(rt;
            (self.text, reply.as_str(), has),
            (self.text, self.reply, self.has)
        );
    }
}

/// Reads a line of a life. Fails if it is none.
fn read_line<'a>(rt: &impl Asserts, text: &'a str) -> Line<'a> {
    read(text).expect(rt, "a line of a life")
}

/// Lets happen what is no call of the receiver.
fn happen<W: Drop + Wakes, R: Wait>(g: &mut MemoryReceiver<'_, u64, W, R>, deed: Deed) -> Reply<u64>
    ensures { g.new.state ≡ g.old.state }
{
    match deed {
        Deed::Sends => g.sender_sends(7),
        Deed::Goes => g.sender_drops(),
        Deed::WillSend(pauses, lingers) => {
            g.sender_will_send(pauses, 7);
            g.sender_will_linger(lingers);
        }
        Deed::WillGo(pauses, lingers) => {
            g.sender_will_drop(pauses);
            g.sender_will_linger(lingers);
        }
        Deed::OverAfter(reads) => g.deadline_will_be_over(reads),
        Deed::Calls(_) | Deed::Refuses => {}
    }
    Reply::Bare(Bare::Nothing)
}

/// Does a deed after which the receiver is still there. `forever` is a timeout that no instant can hold.
fn perform<R: Wait>(
    rt: &R,
    g: &mut MemoryReceiver<'_, u64, u8, R>,
    hand: &mut Option<u8>,
    deed: Deed,
) -> Reply<u64>
    requires rests { AtRest g.old.state }
    requires ready { IsReady hand.old (receiver_of g.old.state.log) }
    ensures rests { AtRest g.new.state }
    ensures ready { IsReady hand.new (receiver_of g.new.state.log) }
{
    let Deed::Calls(ReceiverCall::Ask(call)) = deed else {
        return happen(g, deed);
    };
    match call {
        Ask::Try => Reply::tried(try_recv(g)),
        Ask::Ref => Reply::received(recv_ref(g, rt, hand)),
        Ask::Deadline(_) => Reply::timed(recv_deadline(g, rt, hand)),
        Ask::Timeout(time) => Reply::timed(recv_timeout(g, rt, hand, time < Duration::MAX)),
        Ask::Closed | Ask::Full | Ask::Tries | Ask::PastDeadline => Reply::Bare(Bare::Nothing),
    }
}

/// Does a deed after which the receiver may be gone.
fn perform_last<R: Wait>(
    rt: &R,
    g: &mut MemoryReceiver<'_, u64, u8, R>,
    hand: &mut Option<u8>,
    deed: Deed,
) -> Reply<u64>
    requires rests { AtRest g.old.state }
    requires ready { IsReady hand.old (receiver_of g.old.state.log) }
{
    match deed {
        Deed::Calls(ReceiverCall::Recv) => Reply::received(recv(g, rt, hand)),
        Deed::Calls(ReceiverCall::Drop) => {
            drop_receiver(g);
            Reply::Bare(Bare::Dropped)
        }
        deed => perform(rt, g, hand, deed),
    }
}

/// Does a receiver's deeds, of which the last may end it, and returns its steps.
fn receive<R: Wait + Asserts + AllocGlobal>(rt: &R, lines: &str, last: &str) -> String {
    let mut g = MemoryReceiver::new(rt, rt.alloc());
    let mut hand = Some(9);
    for line in lines.lines() {
        let line = read_line(rt, line);
        let reply = perform(rt, &mut g, &mut hand, line.deed);
        line.assert_hand(rt, reply, &hand);
    }
    let last = read_line(rt, last);
    let reply = perform_last(rt, &mut g, &mut hand, last.deed);
    last.assert_hand(rt, reply, &hand);
    steps_of(rt.alloc(), g.events()).expect(rt, "memory")
}

type Future<'a, 't, R> = MemoryFuture<'a, 't, u64, R>;

/// Does a deed after which the future is still there.
fn perform_polled<'t, R: Wait>(
    future: &mut Future<'_, 't, R>,
    tasks: &'t [MemoryTask; 2],
    deed: Deed,
) -> Reply<u64>
    requires { IsPolled future.old.receiver.state }
    ensures { IsPolled future.new.receiver.state }
{
    match deed {
        Deed::Calls(ReceiverCall::Poll(task)) => {
            future.task = task_of(tasks, task);
            Reply::polled(poll(future))
        }
        Deed::Calls(ReceiverCall::Ask(Ask::Try)) => Reply::tried(async_try_recv(future)),
        Deed::Refuses => {
            future.refuses = true;
            Reply::Bare(Bare::Nothing)
        }
        deed => happen(&mut future.receiver, deed),
    }
}

fn task_of([first, second]: &[MemoryTask; 2], task: Task) -> &MemoryTask {
    match task {
        Task::One => first,
        Task::Two => second,
    }
}

/// How many copies of each task's waker were made, how many were used or dropped, and the task's wakes.
fn counts_of(alloc: Global, tasks: &[MemoryTask; 2]) -> Result<String, AllocError> {
    let [first, second] = tasks;
    let (first, second) = (counts(first), counts(second));
    format!(in alloc; "{first:?} {second:?}")
}

fn counts(task: &MemoryTask) -> (u64, u64, u64) {
    (task.copies(), task.ended(), task.wakes())
}

/// Does a deed after which the future may be gone.
fn perform_last_polled<'t, R: Wait>(
    future: &mut Future<'_, 't, R>,
    tasks: &'t [MemoryTask; 2],
    deed: Deed,
) -> Reply<u64>
    requires { IsPolled future.old.receiver.state }
{
    match deed {
        Deed::Calls(ReceiverCall::Drop) => {
            drop_async(future);
            Reply::Bare(Bare::Dropped)
        }
        deed => perform_polled(future, tasks, deed),
    }
}

/// Does a future's deeds, of which the last may drop it, and returns its steps.
fn poll_all<R: Wait + Asserts + AllocGlobal>(rt: &R, lines: &str, last: &str) -> String {
    let tasks = [MemoryTask::new(), MemoryTask::new()];
    let mut future = Future::new(rt, rt.alloc(), &tasks[0]);
    for line in lines.lines() {
        let line = read_line(rt, line);
        let reply = perform_polled(&mut future, &tasks, line.deed);
        line.assert_counts(rt, reply, &tasks);
    }
    let last = read_line(rt, last);
    let reply = perform_last_polled(&mut future, &tasks, last.deed);
    last.assert_counts(rt, reply, &tasks);
    steps_of(rt.alloc(), future.receiver.events()).expect(rt, "memory")
}

/// Does the deeds of a life, and returns its steps.
fn steps_of_life<R: Wait + Asserts + AllocGlobal>(rt: &R, life: &str) -> String {
    let (kind, lines) = life.split_once('\n').expect(rt, "a life of a line");
    let (lines, last) = lines.rsplit_once('\n').unwrap_or(("", lines));
    match kind {
        "channel" => receive(rt, lines, last),
        "async_channel" => poll_all(rt, lines, last),
        _ => panic!(rt; "a life of no channel"),
    }
}

fn assert_life<R: Wait + Asserts + AllocGlobal>(rt: &R, life: &Life) {
    let (text, steps) = *life;
    let made = steps_of_life(rt, text);
    assert_same!(rt; (text, made.as_str()), (text, steps));
}

/// Fails unless each line of each life has its reply and leaves what it states, and each life has its steps.
pub(crate) fn assert_lives<R: Wait + Asserts + AllocGlobal>(rt: &R, lives: &[Life]) {
    for life in lives {
        assert_life(rt, life);
    }
}
