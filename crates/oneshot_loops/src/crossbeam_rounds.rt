//! The rounds that one thread makes over Rattle's `crossbeam_channel`, with room for one message.

use crate::fault::Fault;
use crate::message::Message;
use crate::tally::Tally;
use crossbeam_channel::bounded;
use std::alloc::Global;
use std::sync::Wait;

/// As `rounds::make_send_receive_drop`, but drops the sender after the send.
pub fn make_send_receive_drop<T: Message + Drop, R: Wait>(
    rt: &R,
    alloc: Global,
    message: T,
    tally: &mut Tally,
) -> Result<(), Fault> {
    let (sender, receiver) = bounded(alloc, 1)?;
    tally.made(T::BYTES);
    let sent = sender.send(rt, message).is_ok();
    drop(sender);
    if !sent || receiver.try_recv(rt).is_err() {
        return Err(Fault::MessageLost);
    }
    tally.tried();
    Ok(())
}

/// As `rounds::make_drop`.
pub fn make_drop<T: Message + Drop>(alloc: Global, tally: &mut Tally) -> Result<(), Fault> {
    let (sender, receiver) = bounded::<T, Global>(alloc, 1)?;
    tally.made(T::BYTES);
    drop(sender);
    drop(receiver);
    Ok(())
}

/// As `rounds::make_send_recv`, but drops the sender after the send.
pub fn make_send_recv<T: Message + Drop, R: Wait>(
    rt: &R,
    alloc: Global,
    message: T,
    tally: &mut Tally,
) -> Result<(), Fault> {
    let (sender, receiver) = bounded(alloc, 1)?;
    tally.made(T::BYTES);
    let sent = sender.send(rt, message).is_ok();
    drop(sender);
    if !sent || receiver.recv(rt).is_err() {
        return Err(Fault::MessageLost);
    }
    tally.waited();
    Ok(())
}
