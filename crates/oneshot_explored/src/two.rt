//! Two channels of two threads: each thread sends on the one, and then receives on the other.

use crate::parcel::Parcel;
use crate::receives::receive_each;
use crate::run::{NUMBER, Scripts};
use crate::sends::send_each;
use crate::told::{
    AT_FIRST, AT_SECOND, BEGIN_RECEIVER, BEGIN_SENDER, END_RECEIVER, END_SENDER, MESSAGE, OPENED,
    OPENING, READY, RELEASE, tell,
};
use oneshot_calls::{Receives, Sending, Sends};
use oneshot_channel::channel;
use std::alloc::{AllocError, AllocGlobal};
use std::random::RandomSource;
use std::sync::Wait;
use std::thread::{Threads, join};
use std::time::Clock;

/// The codes by which a thread reports where it is.
struct Codes {
    sends: u64,
    begins: u64,
    receives: u64,
    ends: u64,
}

const ONE: &Codes = &Codes {
    sends: AT_FIRST,
    begins: BEGIN_SENDER,
    receives: AT_SECOND,
    ends: END_SENDER,
};

const OTHER: &Codes = &Codes {
    sends: AT_SECOND,
    begins: BEGIN_RECEIVER,
    receives: AT_FIRST,
    ends: END_RECEIVER,
};

/// Makes both channels, and runs both scripts in each thread. The receiver's script ends with its drop, or with `recv`.
///
/// `Err`: out of memory.
pub fn run_two<R: Threads + Wait + Clock + RandomSource + AllocGlobal + Sync>(
    rt: &R,
    scripts: &Scripts,
    content: Box<u64>,
) -> Result<(), AllocError> {
    let (sender, receiver) = channel(rt, rt.alloc())?;
    let answer = next_parcel(rt)?;
    let (back, waits) = channel(rt, rt.alloc())?;
    tell_ready(rt);
    let parcel = Parcel::new(content, None);
    // What the senders' scripts leave is dropped here, when no end runs any more.
    let mut left = None;
    let mut left_by_other = None;
    join(
        rt,
        || left = Some(use_both(rt, ONE, scripts, sender, parcel, waits)),
        || left_by_other = Some(use_both(rt, OTHER, scripts, back, answer, receiver)),
    );
    drop(left);
    drop(left_by_other);
    Ok(())
}

/// The message of the second channel, which is opened next. The first is open.
pub fn next_parcel<R: Clock + AllocGlobal>(rt: &R) -> Result<Parcel, AllocError> {
    tell(rt, OPENED);
    tell(rt, MESSAGE);
    let parcel = Parcel::new(Box::new(rt.alloc(), NUMBER)?, None);
    tell(rt, OPENING);
    Ok(parcel)
}

/// Reports that both channels are open, and that the threads begin.
pub fn tell_ready<R: Clock>(rt: &R) {
    tell(rt, OPENED);
    tell(rt, RELEASE);
    tell(rt, READY);
}

/// Sends by the one script, and then receives by the other.
fn use_both<R, S, E>(
    rt: &R,
    codes: &Codes,
    scripts: &Scripts,
    sender: S,
    parcel: Parcel,
    receiver: E,
) -> Sending<Parcel, S>
where
    R: Wait + Clock + RandomSource + AllocGlobal,
    S: Sends<Parcel>,
    E: Receives<Parcel>,
{
    tell(rt, codes.sends);
    tell(rt, codes.begins);
    let sending = send_each(rt, &scripts.sends, sender, parcel);
    tell(rt, codes.receives);
    let receiving = receive_each(rt, &scripts.receives, receiver, None);
    tell(rt, codes.ends);
    drop(receiving);
    sending
}
