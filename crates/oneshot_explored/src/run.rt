//! Makes a channel of some kind, and runs a script of each end in a thread.

use crate::brought::{run_sent_receiver, run_sent_sender};
use crate::parcel::{Parcel, QUESTION};
use crate::promised::{Any, Promised};
use crate::receives::{receive_all, tasks_of};
use crate::sends::send_all;
use crate::told::{DONE, OPENED, OPENING, READY, RECORD, RELEASE, tell};
use crate::two::run_two;
use crate::watched::run_watch;
use oneshot_calls::{ReceiverCall, SenderCall, Tasks};
use oneshot_channel::reply::request;
use oneshot_channel::{channel, channel_for};
use std::alloc::{AllocError, AllocGlobal};
use std::random::RandomSource;
use std::sync::Wait;
use std::thread::{Threads, join};
use std::time::Clock;

/// The kinds of channels.
#[derive(Clone, Copy)]
pub enum Kind {
    Plain,
    /// A channel whose messages keep a promise.
    Promise,
    /// A request with its ticket.
    Request,
    /// A channel whose message has the sender of another channel.
    Nested,
    /// A guard with its watch.
    Watch,
    /// Two channels, of each of which each thread has an end.
    TwoChannels,
    /// Two channels: the message of the first brings the sender of the second.
    SentSender,
    /// Two channels: the message of the first brings the receiver of the second.
    SentReceiver,
}

/// The number in each message.
pub const NUMBER: u64 = 7;

/// Both scripts.
#[derive(Drop)]
pub struct Scripts {
    pub sends: Vec<SenderCall>,
    pub receives: Vec<ReceiverCall>,
}

/// Makes a channel of this kind, and runs both scripts, each in a thread.
///
/// `Err`: out of memory.
pub fn run<R: Threads + Wait + Clock + RandomSource + AllocGlobal + Sync>(
    rt: &R,
    kind: Kind,
    scripts: Scripts,
) -> Result<(), AllocError> {
    tell(rt, RECORD);
    let content = Box::new(rt.alloc(), NUMBER)?;
    tell(rt, OPENING);
    match kind {
        Kind::Plain => run_plain(rt, scripts, Parcel::new(content, None)),
        Kind::Promise => run_promised(rt, scripts, Parcel::new(content, None)),
        Kind::Request => run_request(rt, scripts, Parcel::new(content, None)),
        Kind::Nested => run_nested(rt, scripts, content),
        Kind::Watch => {
            drop(content);
            run_watch(rt, &scripts)
        }
        Kind::TwoChannels => run_two(rt, &scripts, content),
        Kind::SentSender => run_sent_sender(rt, &scripts, content),
        Kind::SentReceiver => run_sent_receiver(rt, &scripts, content),
    }?;
    tell(rt, DONE);
    Ok(())
}

/// Runs both scripts, each in a thread. A macro, since the borrow checker covers no `join` of ends whose types are
/// parameters.
macro_rules! run_ends {
    ($rt:ident, $scripts:ident, $parcel:ident, $sender:ident, $receiver:ident) => {{
        let tasks = make_ready($rt, &$scripts.receives);
        let Scripts { sends, receives } = $scripts;
        // What the sender's script leaves is dropped here, when no end runs any more.
        let mut left = None;
        join(
            $rt,
            || left = Some(send_all($rt, sends, $sender, $parcel)),
            || receive_all($rt, receives, $receiver, tasks),
        );
        drop(left);
    }};
}

/// Reports that the channel is open, and makes the tasks before the threads begin.
fn make_ready<R: Clock + RandomSource + AllocGlobal>(
    rt: &R,
    receives: &Vec<ReceiverCall>,
) -> Option<Tasks> {
    tell(rt, OPENED);
    let tasks = tasks_of(rt, receives);
    tell(rt, RELEASE);
    tell(rt, READY);
    tasks
}

fn run_plain<R: Threads + Wait + Clock + RandomSource + AllocGlobal + Sync>(
    rt: &R,
    scripts: Scripts,
    parcel: Parcel,
) -> Result<(), AllocError> {
    let (sender, receiver) = channel(rt, rt.alloc())?;
    run_ends!(rt, scripts, parcel, sender, receiver);
    Ok(())
}

fn run_promised<R: Threads + Wait + Clock + RandomSource + AllocGlobal + Sync>(
    rt: &R,
    scripts: Scripts,
    parcel: Parcel,
) -> Result<(), AllocError> {
    let (sender, receiver) = channel_for(rt, rt.alloc(), &Any)?;
    let sender = Promised(sender);
    run_ends!(rt, scripts, parcel, sender, receiver);
    Ok(())
}

fn run_request<R: Threads + Wait + Clock + RandomSource + AllocGlobal + Sync>(
    rt: &R,
    scripts: Scripts,
    parcel: Parcel,
) -> Result<(), AllocError> {
    let Ok((sender, receiver)) = request(rt, rt.alloc(), QUESTION) else {
        return Err(AllocError);
    };
    run_ends!(rt, scripts, parcel, sender, receiver);
    Ok(())
}

/// The receiver of the inner channel waits here, and is dropped when both ends are over.
fn run_nested<R: Threads + Wait + Clock + RandomSource + AllocGlobal + Sync>(
    rt: &R,
    scripts: Scripts,
    content: Box<u64>,
) -> Result<(), AllocError> {
    let (sender, receiver) = channel(rt, rt.alloc())?;
    tell(rt, OPENED);
    tell(rt, OPENING);
    let (inner, waits) = channel((), rt.alloc())?;
    let parcel = Parcel::new(content, Some(inner));
    run_ends!(rt, scripts, parcel, sender, receiver);
    drop(waits);
    Ok(())
}
