//! Grounds in memory, for tests of drivers, whose logs are whole: they have every step.
#![tactic(auto)]

mod future;
mod receiver;
mod sender;
mod task;
mod wakes;

ghost use Rattle.std.specs.Prelude.{◌≡◌, ◌++◌, ◌∷◌, [], None};
ghost use Rattle.oneshot_machine.specs.Logs.{handed, copied};
ghost use Rattle.oneshot_machine.specs.Noted.{saw};
ghost use Rattle.oneshot_memory.specs.Events.{logged_event};

pub use future::MemoryFuture;
use oneshot_machine::machine::{Seen, Step};
use oneshot_machine::states::Op;
pub use receiver::{Act, MemoryReceiver};
pub use sender::{Meanwhile, MemorySender};
use std::snapshot::Snapshot;
use std::sync::Wait;
pub use task::{MemoryTask, TaskWaker};
pub use wakes::Wakes;

/// A step of a ground, with what it saw, and the message or waker that it moved.
#[derive(Drop)]
pub struct Event<T, W> {
    /// The step.
    pub step: Step,
    /// What it saw.
    pub seen: Seen,
    /// The message that it moved: a snapshot, for contracts only, which takes no memory.
    pub message: Option<Snapshot<T>>,
    /// The waker that it moved or copied: a snapshot, as above.
    pub waker: Option<Snapshot<W>>,
}

impl<T, W> Event<T, W> {
    // The event of a step that moves neither.
    fn of(step: Step, seen: Seen) -> Event<T, W>
        ensures { result ≡ record { step = step; seen = seen; message = None; waker = None } }
    {
        Event {
            step,
            seen,
            message: None,
            waker: None,
        }
    }

    // The event of a step that moves this waker.
    fn handing(step: Step, waker: &W) -> Event<T, W>
        ensures { logged_event result ≡ handed step waker.now }
    {
        Event {
            step,
            seen: Seen::Done,
            message: None,
            waker: Some(Snapshot::of(waker)),
        }
    }

    // The event of a copy of a waker, or of its refusal.
    fn copied(copy: &Option<W>) -> Event<T, W>
        ensures { logged_event result ≡ copied copy.now }
    {
        match copy {
            Some(copy) => Event {
                step: Step::Copy,
                seen: Seen::Refused(false),
                message: None,
                waker: Some(Snapshot::of(copy)),
            },
            None => Event::of(Step::Copy, Seen::Refused(true)),
        }
    }
}

// What `op` sees if it finds this word.
fn sight(op: Op, word: u8) -> Seen
    ensures { result ≡ saw op word }
{
    match op {
        Op::Store(_) => Seen::Done,
        _ => Seen::Word(word),
    }
}

// Appends an event. Blocks forever if out of memory, since a ground cannot report that.
fn record<T, W, R: Wait>(rt: &R, events: &mut Vec<Event<T, W>>, event: Event<T, W>)
    ensures { events.new.items ≡ events.old.items ++ event ∷ [] }
{
    if events.push(event).is_err() {
        for _ in rt.forever() {}
        unreachable!()
    }
}
