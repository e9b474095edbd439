//! The scripts of receivers: calls that last until the message comes, or none will come, and calls that do not.

use oneshot_asserts::Asserts;
use oneshot_calls::{ReceiverCall, Receiving, Reply, Tasks, script};
use oneshot_channel::Receiver;
use std::random::RandomSource;
use std::sync::Wait;
use std::time::Clock;

/// The receives that block, except `recv_deadline`. The first has a limit: if its wake is lost, a test fails and does
/// not wait on.
pub(super) const BLOCKING: [&str; 3] = ["longtimeout", "recv", "ref"];

/// One of each that tries, polls or awaits.
pub(super) const TRYING: [&str; 3] = ["tries", "future polls", "future await"];

/// A receiver's script, and the tasks of its polls.
#[derive(Drop)]
pub(super) struct Script<'a> {
    pub(super) text: &'a str,
    calls: Vec<ReceiverCall>,
    tasks: Tasks,
}

impl<'a> Script<'a> {
    /// Reads a script. Fails if a word of it is no call.
    pub(super) fn new<R: RandomSource + AllocGlobal + Asserts>(
        rt: &R,
        text: &'a str,
    ) -> Script<'a> {
        Script {
            text,
            calls: script(rt.alloc(), text).expect(rt, "a script"),
            tasks: Tasks::new(rt).expect(rt, "memory"),
        }
    }

    /// Makes the calls of a receiver.
    pub(super) fn receive<R: Wait + Clock + RandomSource + AllocGlobal, T: Drop>(
        &self,
        rt: &R,
        receiver: Receiver<T, &R>,
    ) -> Reply<T> {
        Receiving::new(receiver).make_all(rt, Some(&self.tasks), &self.calls)
    }
}
