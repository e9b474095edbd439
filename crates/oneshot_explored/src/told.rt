//! What the program reports to the scheduler, by the length of a sleep in nanoseconds.

use crate::parcel::Parcel;
use oneshot_calls::{Ask, Bare, Numbered, ReceiverCall, Reply, Task, Tasks};
pub use oneshot_codes::{
    AT_FIRST, AT_SECOND, BEGIN_RECEIVER, BEGIN_SENDER, DEADLINE, DISCONNECTED, DONE, DROPPED,
    EMPTY, END_RECEIVER, END_SENDER, FUTURE, GOT, MESSAGE, NO, OPENED, OPENING, PENDING, READY,
    RECORD, REFUSED, RELEASE, SENT, TASKS, TIMED_OUT, TIMEOUT, YES,
};
use std::thread::sleep;
use std::time::{Clock, Duration};

/// Reports `code` to the scheduler.
pub fn tell<R: Clock>(rt: &R, code: u64) {
    sleep(rt, Duration::from_nanos(code));
}

/// Reports that a receive comes which reads the clock first.
pub fn tell_call<R: Clock>(rt: &R, call: ReceiverCall) {
    match call {
        ReceiverCall::Ask(Ask::Deadline(_) | Ask::PastDeadline) => tell(rt, DEADLINE),
        ReceiverCall::Ask(Ask::Timeout(_)) => tell(rt, TIMEOUT),
        _ => {}
    }
}

/// Reports what a call returned, and drops its parcel.
pub fn tell_reply<R: Clock>(rt: &R, reply: Reply<Parcel>) {
    match reply {
        Reply::Message(_, parcel) => {
            tell(rt, GOT.wrapping_add(parcel.number()));
            drop(parcel);
        }
        Reply::Inner(number) => tell(rt, GOT.wrapping_add(number)),
        Reply::Bare(reply) => {
            if let Some(code) = code_of(reply) {
                tell(rt, code);
            }
        }
    }
}

/// The code that reports this reply. `None`: it is not reported.
fn code_of(reply: Bare) -> Option<u64> {
    let code = match reply {
        Bare::Sent => SENT,
        Bare::Refused => REFUSED,
        Bare::Yes => YES,
        Bare::No => NO,
        Bare::Empty => EMPTY,
        Bare::Timeout => TIMED_OUT,
        Bare::Disconnected | Bare::Ended | Bare::ReadyEnded => DISCONNECTED,
        Bare::Pending => PENDING,
        Bare::Future => FUTURE,
        Bare::Dropped => DROPPED,
        Bare::Raw | Bare::NotAwaited | Bare::Nothing => return None,
    };
    Some(code)
}

/// Reports of each task whether it is woken.
pub fn tell_woken<R: Clock>(rt: &R, tasks: &Tasks) {
    tell_task(rt, TASKS, tasks.is_woken(Task::One));
    tell_task(rt, TASKS + 2, tasks.is_woken(Task::Two));
}

/// Reports whether a task is woken, by the code of one that is not, or the next.
pub fn tell_task<R: Clock>(rt: &R, task: u64, is_woken: bool) {
    tell(rt, if is_woken { task.wrapping_add(1) } else { task });
}
