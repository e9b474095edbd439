//! A sender's ground in memory.

ghost use Rattle.std.specs.Prelude.{◌≡◌, ⊤, map, if◌then◌else◌, [], ◌∷◌};
ghost use Rattle.oneshot_machine.specs.declared.machine.Step.TheVariants.{Free};
ghost use Rattle.oneshot_machine.specs.Logs.{Grows, did, worded};
ghost use Rattle.oneshot_machine.specs.Slots.{away, vacant};
ghost use Rattle.oneshot_drive.specs.BetweenCalls.{IsFresh};
ghost use Rattle.oneshot_drive.specs.Grounds.{SenderAsks, SenderMakes};
ghost use Rattle.oneshot_memory.specs.declared.sender.Meanwhile.TheVariants.{Waits, Stops, Leaves};
ghost use Rattle.oneshot_memory.specs.Events.{logged_event};
ghost use Rattle.oneshot_memory.specs.Sender.{keeps_both, word_then};

use crate::{Event, record, sight};
use oneshot_drive::{ErrorGround, SenderGround};
use oneshot_machine::machine::{Seen, Step};
use oneshot_machine::states::{DISCONNECTED, EMPTY, Op, RECEIVING, UNPARKING};
use std::alloc::Global;
use std::marker::Model;
use std::snapshot::Snapshot;
use std::sync::Wait;

/// What a waiting receiver does after the sender took its waker, and before the sender's last operation.
#[derive(Clone, Copy)]
pub enum Meanwhile {
    /// It keeps waiting.
    Waits,
    /// It stops waiting: its deadline is over.
    Stops,
    /// It is a future, and is dropped.
    Leaves,
}

/// A sender's ground, whose receiver is here, waits or is gone. The receiver does nothing, except that a
/// waiting one may stop or leave while the sender finishes.
#[derive(Drop)]
pub struct MemorySender<'a, T, W, R: Wait> {
    events: Vec<Event<T, W>>,
    word: u8,
    message: Option<T>,
    waker: Option<W>,
    owns_message: bool,
    owns_waker: bool,
    meanwhile: Meanwhile,
    rt: &'a R,
}

impl<'a, T, W, R: Wait> Model for MemorySender<'a, T, W, R> {
    ghost use Rattle.oneshot_machine.specs.Logs.{sender_of};
    ghost use Rattle.oneshot_memory.specs.Events.{logged};
    ghost use Rattle.oneshot_memory.specs.Sender.{Sending, sending_of, SenderMatches};

    ghost Value = { Sending T W };

    ghost view = { λ s. sending_of s.events.items s.word s.message s.waker s.owns_message s.owns_waker s.meanwhile };

    ghost invariant = { λ s.
        SenderMatches (sender_of (logged s.events.items)) s.word
        s.owns_message s.owns_waker s.message s.waker };
}

impl<'a, T, W, R: Wait> MemorySender<'a, T, W, R> {
    /// Makes the ground of a new sender. The receiver was dropped unless `receiver_is_here`. `alloc`
    /// allocates the events; a step that is out of memory for its event blocks forever on `rt`.
    pub fn new(rt: &'a R, alloc: Global, receiver_is_here: bool) -> MemorySender<'a, T, W, R>
        ensures fresh { IsFresh result.state }
        ensures word { result.word ≡ (if receiver_is_here then 3 else 2) }
        ensures waits { result.meanwhile ≡ Waits }
    {
        MemorySender {
            events: Vec::new(alloc),
            word: if receiver_is_here {
                EMPTY
            } else {
                DISCONNECTED
            },
            message: None,
            waker: None,
            owns_message: true,
            owns_waker: false,
            meanwhile: Meanwhile::Waits,
            rt,
        }
    }

    /// Makes the ground of a new sender, whose receiver waits with `waker`. `rt`, `alloc`: as in `new`.
    pub fn with_waiting_receiver(rt: &'a R, alloc: Global, waker: W) -> MemorySender<'a, T, W, R>
        ensures fresh { IsFresh result.state }
        ensures word { result.word ≡ 0 }
        ensures waits { result.meanwhile ≡ Waits }
    {
        MemorySender {
            events: Vec::new(alloc),
            word: RECEIVING,
            message: None,
            waker: Some(waker),
            owns_message: true,
            owns_waker: false,
            meanwhile: Meanwhile::Waits,
            rt,
        }
    }

    /// Plans that a waiting receiver stops, by its deadline, after the sender took its waker.
    pub fn receiver_will_stop(&mut self)
        ensures { self.new ≡ record self.old { meanwhile = Stops } }
    {
        self.meanwhile = Meanwhile::Stops;
    }

    /// Plans that a waiting receiver, a future, is dropped after the sender took its waker.
    pub fn receiver_will_leave(&mut self)
        ensures { self.new ≡ record self.old { meanwhile = Leaves } }
    {
        self.meanwhile = Meanwhile::Leaves;
    }

    /// Returns the steps so far, in their order.
    pub fn events(&self) -> &[Event<T, W>]
        ensures { map logged_event result.now ≡ self.now.state.log.list }
    {
        &self.events
    }

    // Performs `op` on the word, and returns the word before.
    fn operate(&mut self, op: Op) -> u8
        requires { SenderAsks op self.old.state }
        ensures log { Grows self.old.state.log self.new.state.log (worded op result ∷ []) }
        ensures finds { SenderMakes op result self.old.state self.new.state }
    {
        let before = self.word;
        self.word = op.after(before);
        let keeps = keeps_slots(before);
        self.owns_message = keeps;
        self.owns_waker = keeps;
        let event = Event::of(Step::Word(op), sight(op, before));
        record(self.rt, &mut self.events, event);
        before
    }

    // Frees the block.
    fn note_free(&mut self)
        requires message { self.old.state.message ≡ vacant }
        requires waker { self.old.state.waker ≡ vacant }
        ensures log { Grows self.old.state.log self.new.state.log (did Free ∷ []) }
        ensures message { self.new.state.message ≡ away }
        ensures waker { self.new.state.waker ≡ away }
    {
        self.owns_message = false;
        self.owns_waker = false;
        let event = Event::of(Step::Free, Seen::Done);
        record(self.rt, &mut self.events, event);
    }
}

impl<'a, T: Drop, W: Drop, R: Wait> SenderGround<T, W> for MemorySender<'a, T, W, R> {
    ghost state = { λ s. s.state };

    ghost keeps = { λ _ _. ⊤ };

    ghost keeps_on = { λ _ _ _ _ _. tt };

    ghost ended = { λ _ _. ⊤ };

    ghost ended_by = { λ _ _ _ _. tt };

    // It admits any message.
    ghost admits = { λ s m. ⊤ };

    // Its log has the wakers that it took and used.
    ghost owed = { λ s k. ⊤ };

    ghost woken = { λ s k. ⊤ };

    // It states nothing of a message that it gave.
    ghost gave = { λ s m. ⊤ };

    fn add(&mut self) -> u8 {
        self.operate(Op::Add)
    }

    fn xor(&mut self) -> u8 {
        self.operate(Op::Xor)
    }

    fn swap(&mut self, last: u8) -> u8 {
        self.operate(Op::Swap(last))
    }

    fn write_message(&mut self, message: T) {
        let event = Event {
            step: Step::WriteMessage,
            seen: Seen::Done,
            message: Some(Snapshot::of(&message)),
            waker: None,
        };
        self.message = Some(message);
        record(self.rt, &mut self.events, event);
    }

    fn take_waker(&mut self) -> W {
        let Some(waker) = self.waker.take() else {
            unreachable!()
        };
        self.word = outlasted(self.word, self.meanwhile);
        let event = Event::handing(Step::TakeWaker, &waker);
        record(self.rt, &mut self.events, event);
        waker
    }

    fn wake(&mut self, waker: W) {
        let event = Event::handing(Step::Wake, &waker);
        record(self.rt, &mut self.events, event);
    }

    fn free(&mut self) {
        self.note_free();
    }
}

impl<'a, T: Drop, W: Drop, R: Wait> ErrorGround<T, W> for MemorySender<'a, T, W, R> {
    ghost state = { λ s. s.state };

    fn take_message(&mut self) -> T {
        let Some(message) = self.message.take() else {
            unreachable!()
        };
        let event = Event {
            step: Step::TakeMessage,
            seen: Seen::Done,
            message: Some(Snapshot::of(&message)),
            waker: None,
        };
        record(self.rt, &mut self.events, event);
        message
    }

    fn drop_message(&mut self) {
        self.message = None;
        let event = Event::of(Step::DropMessage, Seen::Done);
        record(self.rt, &mut self.events, event);
    }

    fn free(&mut self) {
        self.note_free();
    }
}

// The word after the waker was taken, and a waiting receiver did this.
fn outlasted(word: u8, meanwhile: Meanwhile) -> u8
    ensures { result ≡ word_then meanwhile word }
{
    match (meanwhile, word) {
        (Meanwhile::Stops, UNPARKING) => EMPTY,
        (Meanwhile::Leaves, UNPARKING) => DISCONNECTED,
        _ => word,
    }
}

// Whether the sender owns both slots after an operation that found this word.
fn keeps_slots(found: u8) -> bool
    ensures { result ≡ keeps_both found }
{
    found == DISCONNECTED || found == RECEIVING
}
