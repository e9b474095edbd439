//! The life of a channel as text. Its first line is `channel` or `async_channel`. Each further line is a step: a call,
//! what it returns, and after `|` what the looks of the sender and of the receiver then return. The message is 19.

use super::{open, open_async};
use oneshot_asserts::Asserts;
use oneshot_calls::{
    Ask, Bare, Call, Fault, ReceiverCall, Receiving, Reply, SenderCall, Sending, Tasks,
};
use oneshot_channel::{Receiver, Sender};
use std::random::RandomSource;
use std::sync::{Arc, Wait};
use std::time::Clock;

/// The sender of a channel, with its message.
type ArcSending = Sending<Arc<u64>, Sender<Arc<u64>>>;

/// The receiver of such a channel, or its future.
type ArcReceiving<Rt> = Receiving<Arc<u64>, Receiver<Arc<u64>, Rt>>;

/// A life that was read.
#[derive(Drop)]
pub(super) struct Life<'a> {
    pub(super) text: &'a str,
    is_async: bool,
    pub(super) steps: Vec<Step<'a>>,
}

/// A step of a life.
#[derive(Clone, Copy)]
pub(super) struct Step<'a> {
    pub(super) line: &'a str,
    pub(super) call: Call,
    pub(super) reply: &'a str,
    pub(super) looks: (&'a str, &'a str),
}

/// Both ends of a channel, and the message that it is for.
#[derive(Drop)]
pub(super) struct Ends<Rt: Wait + Clock + Drop> {
    // Its count shows whether the channel or an error has an owner of it too.
    message: Arc<u64>,
    sending: ArcSending,
    receiving: ArcReceiving<Rt>,
}

/// Reads a life. Ends the test if there is no memory.
pub(super) fn read<'a>(
    rt: &(impl AllocGlobal + Asserts),
    text: &'a str,
) -> Result<Life<'a>, Fault<'a>> {
    let mut lines = text.lines();
    let is_async = is_async(lines.next()).ok_or(Fault::Unknown(text))?;
    let mut steps = Vec::new(rt.alloc());
    for line in lines {
        let line = line.trim_ascii();
        let step = read_step(line).ok_or(Fault::Unknown(line))?;
        steps.push(step).expect(rt, "memory");
    }
    Ok(Life {
        text,
        is_async,
        steps,
    })
}

/// Whether a life with this first line is that of a future.
fn is_async(line: Option<&str>) -> Option<bool> {
    match line {
        Some("channel") => Some(false),
        Some("async_channel") => Some(true),
        _ => None,
    }
}

fn read_step(line: &str) -> Option<Step<'_>> {
    let (made, looks) = line.split_once(" | ")?;
    let (call, reply) = made.split_once(" = ")?;
    Some(Step {
        line,
        call: Call::of_text(call)?,
        reply,
        looks: looks.split_once(' ')?,
    })
}

/// What an end's looks show.
fn look_of(closed: Reply<u64>, full: Reply<u64>) -> Option<&'static str> {
    match (closed, full) {
        (Reply::Bare(Bare::No), Reply::Bare(Bare::No)) => Some("open"),
        (Reply::Bare(Bare::No), Reply::Bare(Bare::Yes)) => Some("full"),
        (Reply::Bare(Bare::Yes), Reply::Bare(Bare::No)) => Some("closed"),
        (Reply::Bare(Bare::Yes), Reply::Bare(Bare::Yes)) => Some("closed, full"),
        _ => None,
    }
}

/// Makes a call of the sender. It sends a copy of `message`.
fn make_by_sender(
    rt: &impl Asserts,
    sending: &mut ArcSending,
    message: &Arc<u64>,
    call: SenderCall,
) -> Reply<u64> {
    if call == SenderCall::Send {
        sending.load(Arc::try_clone(message).expect(rt, "memory"));
    }
    sending.make(call).numbered()
}

/// What the look of the sender shows.
fn look_of_sender(sending: &mut ArcSending) -> &'static str {
    let gone = if sending.has_error() { "error" } else { "gone" };
    let closed = sending.make(SenderCall::Closed).numbered();
    look_of(closed, Reply::Bare(Bare::No)).unwrap_or(gone)
}

/// What the looks of the receiver or of its future show.
fn look_of_receiver<Rt: Wait + Clock + Drop>(
    rt: &(impl Wait + Clock + RandomSource + AllocGlobal),
    receiving: &mut ArcReceiving<Rt>,
) -> &'static str {
    let closed = receiving.make(rt, None, ReceiverCall::Ask(Ask::Closed));
    let closed = closed.numbered();
    let full = receiving.make(rt, None, ReceiverCall::Ask(Ask::Full));
    look_of(closed, full.numbered()).unwrap_or("gone")
}

/// Makes a channel. Its receiver is a future if `is_async`.
fn make_ends<Rt: Wait + Clock + Drop>(
    rt: &(impl AllocGlobal + Asserts),
    runtime: Rt,
    is_async: bool,
) -> (Sender<Arc<u64>>, ArcReceiving<Rt>) {
    if is_async {
        let (sender, future) = open_async(rt, runtime);
        (sender, Receiving::of_future(future))
    } else {
        let (sender, receiver) = open(rt, runtime);
        (sender, Receiving::new(receiver))
    }
}

impl<Rt: Wait + Clock + Drop> Ends<Rt> {
    /// Opens the channel of this life, whose receiver has this runtime. Ends the test if there is no memory.
    pub(super) fn open(
        rt: &(impl AllocGlobal + Asserts),
        runtime: Rt,
        life: &Life<'_>,
    ) -> Ends<Rt> {
        let (sender, receiving) = make_ends(rt, runtime, life.is_async);
        Ends {
            message: Arc::new(rt.alloc(), 19).expect(rt, "memory"),
            sending: Sending::new(sender, None),
            receiving,
        }
    }

    /// Makes the call. One of `tasks` makes a poll, and a deadline is by the clock of `rt`.
    pub(super) fn make(
        &mut self,
        rt: &(impl Wait + Clock + RandomSource + AllocGlobal + Asserts),
        tasks: &Tasks,
        call: Call,
    ) -> Reply<u64> {
        match call {
            Call::Sender(call) => make_by_sender(rt, &mut self.sending, &self.message, call),
            Call::Receiver(call) => self.receiving.make(rt, Some(tasks), call).numbered(),
        }
    }

    /// What the looks of the sender and of the receiver or its future show: `open`, `full` or `closed`; `error` of the
    /// error of a refused message, `gone` of an end that is gone.
    pub(super) fn looks(
        &mut self,
        rt: &(impl Wait + Clock + RandomSource + AllocGlobal),
    ) -> (&'static str, &'static str) {
        let sender = look_of_sender(&mut self.sending);
        (sender, look_of_receiver(rt, &mut self.receiving))
    }

    /// How many owners the message has in the channel or in an error: none, or one.
    pub(super) fn owners_inside(&self) -> usize {
        Arc::strong_count(&self.message).saturating_sub(1)
    }

    /// Drops both ends, and returns how many owners of the message are left.
    pub(super) fn finish(self) -> usize {
        let Ends {
            message,
            sending,
            receiving,
        } = self;
        drop(sending);
        drop(receiving);
        Arc::strong_count(&message)
    }
}
