//! A message that brings an end of a second channel, which the thread that receives it then uses.

use crate::parcel::Parcel;
use crate::receives::receive_each;
use crate::run::Scripts;
use crate::sends::send_each;
use crate::told::{
    AT_FIRST, AT_SECOND, BEGIN_RECEIVER, BEGIN_SENDER, DISCONNECTED, END_RECEIVER, END_SENDER, GOT,
    REFUSED, SENT, tell,
};
use crate::two::{next_parcel, tell_ready};
use oneshot_channel::{Receiver, Sender, channel};
use std::alloc::{AllocError, AllocGlobal};
use std::random::RandomSource;
use std::sync::Wait;
use std::thread::{Threads, join};
use std::time::Clock;

/// A message: a number in a block of its own, and an end of the second channel.
#[derive(Drop)]
struct Bringing<E: Drop> {
    content: Box<u64>,
    end: E,
}

/// Sends the second channel's sender on the first channel. The one thread then receives on the second by the receiver's
/// script; the other, once it has the message, sends by the sender's. The receiver's script ends with its drop, or with
/// `recv`.
///
/// `Err`: out of memory.
pub fn run_sent_sender<R: Threads + Wait + Clock + RandomSource + AllocGlobal + Sync>(
    rt: &R,
    scripts: &Scripts,
    content: Box<u64>,
) -> Result<(), AllocError> {
    let (brings, gets) = channel(rt, rt.alloc())?;
    let parcel = next_parcel(rt)?;
    let (end, waits) = channel(rt, rt.alloc())?;
    tell_ready(rt);
    let bringing = Bringing { content, end };
    // What the sender's script leaves is dropped here, when no end runs any more.
    let mut left = None;
    join(
        rt,
        || {
            bring(rt, brings, bringing);
            let receiving = receive_each(rt, &scripts.receives, waits, None);
            tell(rt, END_SENDER);
            drop(receiving);
        },
        || {
            if let Some(end) = get(rt, gets) {
                left = Some(send_each(rt, &scripts.sends, end, parcel));
            }
            tell(rt, END_RECEIVER);
        },
    );
    drop(left);
    Ok(())
}

/// Sends the second channel's receiver on the first channel. The one thread then sends on the second by the sender's
/// script; the other, once it has the message, receives by the receiver's, which ends with its drop, or with `recv`.
///
/// `Err`: out of memory.
pub fn run_sent_receiver<R: Threads + Wait + Clock + RandomSource + AllocGlobal + Sync>(
    rt: &R,
    scripts: &Scripts,
    content: Box<u64>,
) -> Result<(), AllocError> {
    let (brings, gets) = channel(rt, rt.alloc())?;
    let parcel = next_parcel(rt)?;
    let (sender, end) = channel(rt, rt.alloc())?;
    tell_ready(rt);
    let bringing = Bringing { content, end };
    // What the sender's script leaves is dropped here, when no end runs any more.
    let mut left = None;
    join(
        rt,
        || {
            bring(rt, brings, bringing);
            left = Some(send_each(rt, &scripts.sends, sender, parcel));
            tell(rt, END_SENDER);
        },
        || {
            let mut received = None;
            if let Some(end) = get(rt, gets) {
                received = Some(receive_each(rt, &scripts.receives, end, None));
            }
            tell(rt, END_RECEIVER);
            drop(received);
        },
    );
    drop(left);
    Ok(())
}

/// Begins the sender's thread, and sends the message.
fn bring<R: Clock, E: Drop>(rt: &R, sender: Sender<Bringing<E>>, bringing: Bringing<E>) {
    tell(rt, AT_FIRST);
    tell(rt, BEGIN_SENDER);
    let sent = sender.send(bringing);
    tell(rt, if sent.is_ok() { SENT } else { REFUSED });
    drop(sent);
    tell(rt, AT_SECOND);
}

/// Begins the receiver's thread, and receives the message. Returns the end that it brings.
fn get<R: Clock, Q: Wait + Clock + Drop, E: Drop>(
    rt: &R,
    receiver: Receiver<Bringing<E>, Q>,
) -> Option<E> {
    tell(rt, AT_FIRST);
    tell(rt, BEGIN_RECEIVER);
    let end = match receiver.recv() {
        Ok(Bringing { content, end }) => {
            tell(rt, GOT.wrapping_add(*content));
            drop(content);
            Some(end)
        }
        Err(_) => {
            tell(rt, DISCONNECTED);
            None
        }
    };
    tell(rt, AT_SECOND);
    end
}
