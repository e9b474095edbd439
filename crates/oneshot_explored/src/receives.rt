//! The receiver's script.

use crate::parcel::Parcel;
use crate::told::{BEGIN_RECEIVER, END_RECEIVER, tell, tell_call, tell_reply, tell_woken};
use oneshot_calls::{ReceiverCall, Receives, Receiving, Tasks};
use std::random::RandomSource;
use std::sync::Wait;
use std::time::Clock;

/// Makes the calls of the receiver's script in a thread of its own.
pub fn receive_all<R, E>(rt: &R, calls: Vec<ReceiverCall>, receiver: E, tasks: Option<Tasks>)
where
    R: Wait + Clock + RandomSource + AllocGlobal,
    E: Receives<Parcel>,
{
    tell(rt, BEGIN_RECEIVER);
    let receiving = receive_each(rt, &calls, receiver, tasks.as_ref());
    tell(rt, END_RECEIVER);
    if let Some(tasks) = tasks.as_ref() {
        tell_woken(rt, tasks);
    }
    drop(receiving);
}

/// Makes the calls of the receiver's script, and reports what each returned. Returns what is left.
pub fn receive_each<R, E>(
    rt: &R,
    calls: &Vec<ReceiverCall>,
    receiver: E,
    tasks: Option<&Tasks>,
) -> Receiving<Parcel, E>
where
    R: Wait + Clock + RandomSource + AllocGlobal,
    E: Receives<Parcel>,
{
    let mut receiving = Receiving::new(receiver);
    for call in calls.iter() {
        if receiving.has_receiver() {
            tell_call(rt, *call);
        }
        tell_reply(rt, receiving.make(rt, tasks, *call));
    }
    receiving
}

/// Makes the tasks, if a script has use for them and there is memory.
pub fn tasks_of<R>(rt: &R, calls: &Vec<ReceiverCall>) -> Option<Tasks>
where
    R: RandomSource + AllocGlobal,
{
    for call in calls.iter() {
        if let ReceiverCall::Future = call {
            return Tasks::new(rt).ok();
        }
    }
    None
}
