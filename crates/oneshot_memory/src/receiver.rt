//! A receiver's ground in memory.

ghost use Rattle.std.specs.Prelude.{◌≡◌, ⊤, true, map, Some, None, [], ◌∷◌};
ghost use Rattle.oneshot_machine.specs.declared.machine.Step.TheVariants.{WakeOwn};
ghost use Rattle.oneshot_machine.specs.Logs.{Grows, copied, did, worded};
ghost use Rattle.oneshot_drive.specs.BetweenCalls.{AtRest};
ghost use Rattle.oneshot_drive.specs.Grounds.{ReceiverAsks, ReceiverMakes};
ghost use Rattle.oneshot_memory.specs.declared.receiver.Act.TheVariants.{Send, Drop};
ghost use Rattle.oneshot_memory.specs.Events.{logged_event};
ghost use Rattle.oneshot_memory.specs.Receiver.{keeps_message, keeps_waker, waker_after, both_here, word_by, word_after_act, message_after_act, lies};

use crate::wakes::Wakes;
use crate::{Event, record, sight};
use oneshot_drive::{BlockGround, DropGround, ReceiverGround, WaitGround};
use oneshot_machine::machine::{Seen, Step};
use oneshot_machine::states::{DISCONNECTED, EMPTY, MESSAGE, Op, RECEIVING, UNPARKING};
use std::alloc::Global;
use std::marker::Model;
use std::snapshot::Snapshot;
use std::sync::Wait;

/// The one call of the sender of a receiver's ground.
#[derive(Drop)]
pub enum Act<T> {
    /// It sends this message.
    Send(T),
    /// It is dropped.
    Drop,
}

impl<T> Act<T> {
    // The word and the message that it leaves.
    fn left(self) -> (u8, Option<T>)
        ensures word { result.0 ≡ word_after_act self }
        ensures message { result.1 ≡ message_after_act self }
    {
        match self {
            Act::Send(message) => (MESSAGE, Some(message)),
            Act::Drop => (DISCONNECTED, None),
        }
    }
}

/// A receiver's ground, whose sender acts when a test plans it: at once, or in a pause of the receiver.
///
/// The receiver pauses after a copy of its waker, made or refused, after a write of its waker, in each park,
/// at each reading of its clock, and after a load that finds its waker stored or the sender about to finish,
/// unless a park came just before. A park ends by its token if the sender woke the receiver by then, and
/// otherwise spuriously. If the sender never acts, a call that blocks does so forever, or until its deadline,
/// which is over at once unless a test puts it off.
///
/// A future may be dropped while its sender lingers. The sender then uses the waker, and keeps its message.
#[derive(Drop)]
pub struct MemoryReceiver<'a, T, W, R: Wait> {
    events: Vec<Event<T, W>>,
    word: u8,
    message: Option<T>,
    waker: Option<W>,
    owns_message: bool,
    owns_waker: bool,
    act: Option<Act<T>>,
    pauses: u64,
    lingers: u64,
    reads: u64,
    token: bool,
    parked: bool,
    rt: &'a R,
}

impl<'a, T, W, R: Wait> Model for MemoryReceiver<'a, T, W, R> {
    ghost use Rattle.oneshot_machine.specs.Logs.{receiver_of};
    ghost use Rattle.oneshot_memory.specs.Events.{logged};
    ghost use Rattle.oneshot_memory.specs.Receiver.{Receiving, receiving_of, ReceiverMatches};

    ghost Value = { Receiving T W };

    ghost view = { λ s.
        receiving_of s.events.items s.word s.message s.waker s.owns_message s.owns_waker
        (record { act = s.act; pauses = s.pauses; lingers = s.lingers; reads = s.reads }) };

    ghost invariant = { λ s.
        ReceiverMatches (receiver_of (logged s.events.items)) s.word
        s.owns_message s.owns_waker s.message s.waker };
}

impl<'a, T, W, R: Wait> MemoryReceiver<'a, T, W, R> {
    /// Makes the ground of a new receiver, whose sender is here and has no plan yet. `alloc` allocates the
    /// events; a step that is out of memory for its event blocks forever on `rt`.
    pub fn new(rt: &'a R, alloc: Global) -> MemoryReceiver<'a, T, W, R>
        ensures rests { AtRest result.state }
        ensures word { result.word ≡ 3 }
        ensures plan { result.plan ≡ record { act = None; pauses = 0; lingers = 0; reads = 0 } }
    {
        MemoryReceiver {
            events: Vec::new(alloc),
            word: EMPTY,
            message: None,
            waker: None,
            owns_message: false,
            owns_waker: false,
            act: None,
            pauses: 0,
            lingers: 0,
            reads: 0,
            token: false,
            parked: false,
            rt,
        }
    }

    /// Returns the steps so far, in their order.
    pub fn events(&self) -> &[Event<T, W>]
        ensures { map logged_event result.now ≡ self.now.state.log.list }
    {
        &self.events
    }
}

impl<'a, T: Drop, W: Drop + Wakes, R: Wait> MemoryReceiver<'a, T, W, R> {
    /// If both ends are still here, the sender sends `message`, and wakes a waiting receiver.
    pub fn sender_sends(&mut self, message: T)
        ensures { self.new ≡ record self.old { word = word_by 4 self.old.word self.old.state.message } }
    {
        if self.both_here() {
            self.act(Act::Send(message));
        }
    }

    /// If both ends are still here, the sender is dropped, and wakes a waiting receiver.
    pub fn sender_drops(&mut self)
        ensures { self.new ≡ record self.old { word = word_by 2 self.old.word self.old.state.message } }
    {
        if self.both_here() {
            self.act(Act::Drop);
        }
    }

    /// Plans that the sender sends `message` in a pause of the receiver, after `pauses` others. In a receive
    /// that blocks, the first pause is after its waker is written, and the second in the park or reading of
    /// the clock that follows; `recv_timeout` has one before them, as it computes its deadline.
    pub fn sender_will_send(&mut self, pauses: u64, message: T)
        ensures { self.new ≡ record self.old {
          plan = record self.old.plan { act = Some (Send message); pauses = pauses };
        } }
    {
        self.act = Some(Act::Send(message));
        self.pauses = pauses;
    }

    /// Plans that the sender is dropped in a pause of the receiver, after `pauses` others.
    pub fn sender_will_drop(&mut self, pauses: u64)
        ensures { self.new ≡ record self.old {
          plan = record self.old.plan { act = Some Drop; pauses = pauses };
        } }
    {
        self.act = Some(Act::Drop);
        self.pauses = pauses;
    }

    /// Plans that the sender, if it finds the receiver waiting, lingers for `pauses` pauses: 0 means that it
    /// finishes in the pause in which it began, and 1 in the next.
    pub fn sender_will_linger(&mut self, pauses: u64)
        ensures { self.new ≡ record self.old { plan = record self.old.plan { lingers = pauses } } }
    {
        self.lingers = pauses;
    }

    /// Plans that the deadline is over after `reads` readings of the clock: 0 means at the first.
    pub fn deadline_will_be_over(&mut self, reads: u64)
        ensures { self.new ≡ record self.old { plan = record self.old.plan { reads = reads } } }
    {
        self.reads = reads;
    }

    // Performs `op` on the word, and returns the word before.
    fn operate(&mut self, op: Op) -> u8
        requires { ReceiverAsks op self.old.state }
        ensures log { Grows self.old.state.log self.new.state.log (worded op result ∷ []) }
        ensures finds { ReceiverMakes op result self.old.state self.new.state }
    {
        self.parked = false;
        let before = self.word;
        self.word = op.after(before);
        self.owns_message = has_message(op, before);
        self.owns_waker = has_waker(op, before, is_waiting(self.owns_waker, &self.waker));
        let event = Event::of(Step::Word(op), sight(op, before));
        record(self.rt, &mut self.events, event);
        finish_late(op, before, &mut self.waker);
        before
    }

    // Records a copy of a waker, or its refusal.
    pub(crate) fn note_copy(&mut self, copy: &Option<W>)
        ensures log { Grows self.old.state.log self.new.state.log (copied copy.now ∷ []) }
        ensures message { self.new.state.message ≡ self.old.state.message }
        ensures waker { self.new.state.waker ≡ self.old.state.waker }
    {
        let event = Event::copied(copy);
        record(self.rt, &mut self.events, event);
        self.pause();
    }

    // Records that the poll woke its own task.
    pub(crate) fn note_own_wake(&mut self)
        ensures log { Grows self.old.state.log self.new.state.log (did WakeOwn ∷ []) }
        ensures message { self.new.state.message ≡ self.old.state.message }
        ensures waker { self.new.state.waker ≡ self.old.state.waker }
    {
        let event = Event::of(Step::WakeOwn, Seen::Done);
        record(self.rt, &mut self.events, event);
    }

    // Pauses: the sender may act, and wake the receiver.
    fn pause(&mut self)
        ensures { self.new ≡ record self.old { word = self.new.word; plan = self.new.plan } }
    {
        if self.pauses > 0 {
            self.pauses -= 1;
            return;
        }
        if let Some(act) = self.act.take() {
            self.token = self.begin(act);
        }
    }

    // The sender acts, or begins to and lingers. Returns whether it woke the receiver.
    fn begin(&mut self, act: Act<T>) -> bool
        ensures { self.new ≡ record self.old { word = self.new.word; plan = self.new.plan } }
    {
        let waits = self.word == RECEIVING && is_waiting(self.owns_waker, &self.waker);
        if !waits || self.lingers == 0 {
            return self.act(act);
        }
        self.word = UNPARKING;
        self.act = Some(act);
        self.pauses = self.lingers - 1;
        self.lingers = 0;
        false
    }

    // The sender acts, if both ends are here or the receiver waits. Returns whether it woke the receiver.
    fn act(&mut self, act: Act<T>) -> bool
        ensures keeps { self.new ≡ record self.old { word = self.new.word } }
        ensures leaves { both_here self.old.word self.old.state.message ≡ true → self.new.word ≡ word_after_act act }
    {
        let (word, message) = act.left();
        if is_waiting(self.owns_waker, &self.waker) {
            self.word = word;
            self.message = message;
            if let Some(waker) = self.waker.take() {
                waker.wake();
            }
            return true;
        }
        if self.both_here() {
            self.word = word;
            self.message = message;
        }
        false
    }

    // Whether both ends are here.
    fn both_here(&self) -> bool
        ensures { result ≡ both_here self.now.word self.now.state.message }
    {
        (self.word == EMPTY || self.word == RECEIVING) && !self.owns_message
    }
}

impl<'a, T: Drop, W: Drop + Wakes, R: Wait> ReceiverGround<T, W> for MemoryReceiver<'a, T, W, R> {
    ghost state = { λ s. s.state };

    // It has nothing besides the channel.
    ghost keeps = { λ a b. ⊤ };

    ghost keeps_same = { λ a. tt };

    ghost keeps_on = { λ a b c f g. tt };

    // It gives and takes any waker.
    ghost has = { λ s hand. ⊤ };

    // It states nothing of a message that it returns.
    ghost gives = { λ s m. ⊤ };

    ghost gives_on = { λ a b m k g. tt };

    ghost had = { λ s m. ⊤ };

    ghost had_on = { λ a b m k h. tt };

    fn load(&mut self) -> u8 {
        let parked = self.parked;
        let found = self.operate(Op::Load);
        // A load just after a park makes no pause.
        if (found == RECEIVING || found == UNPARKING) && !parked {
            self.pause();
        }
        found
    }

    fn store(&mut self, new: u8) -> u8 {
        self.operate(Op::Store(new))
    }

    fn swap(&mut self, new: u8) -> u8 {
        self.operate(Op::Swap(new))
    }

    fn exchange(&mut self, expected: u8, new: u8) -> u8 {
        self.operate(Op::Exchange(expected, new))
    }

    fn take_message(&mut self) -> T {
        let Some(message) = self.message.take() else {
            unreachable!()
        };
        let event = Event {
            step: Step::TakeMessage,
            seen: Seen::Done,
            message: Some(Snapshot::of(&message)),
            waker: None,
        };
        record(self.rt, &mut self.events, event);
        message
    }

    fn withdraw(&mut self) -> W {
        let Some(waker) = self.waker.take() else {
            unreachable!()
        };
        let event = Event::handing(Step::Withdraw, &waker);
        record(self.rt, &mut self.events, event);
        waker
    }

    fn free(&mut self) {
        self.owns_message = false;
        self.owns_waker = false;
        let event = Event::of(Step::Free, Seen::Done);
        record(self.rt, &mut self.events, event);
    }
}

impl<'a, T: Drop, W: Drop + Wakes, R: Wait> DropGround<T, W> for MemoryReceiver<'a, T, W, R> {
    fn drop_message(&mut self) {
        self.message = None;
        let event = Event::of(Step::DropMessage, Seen::Done);
        record(self.rt, &mut self.events, event);
    }
}

impl<'a, T: Drop, W: Drop + Wakes, R: Wait> WaitGround<T, W> for MemoryReceiver<'a, T, W, R> {
    fn write_waker(&mut self, waker: W) {
        let event = Event::handing(Step::WriteWaker, &waker);
        self.waker = Some(waker);
        record(self.rt, &mut self.events, event);
        self.pause();
    }
}

impl<'a, T: Drop, W: Drop + Wakes, R: Wait> BlockGround<T, W> for MemoryReceiver<'a, T, W, R> {
    // Its log has what a park did.
    ghost parks = { λ timed a b. ⊤ };

    ghost reads = { λ over a b. ⊤ };

    ghost has_on = { λ a b hand k h. tt };

    ghost has_back = { λ a b waker slot k h. tt };

    fn park(&mut self, _timed: bool) {
        self.pause();
        let woken = self.token;
        self.token = false;
        self.parked = true;
        let event = Event::of(Step::Park, Seen::Token(woken));
        record(self.rt, &mut self.events, event);
    }

    fn over(&mut self) -> bool {
        self.pause();
        let over = self.reads == 0;
        self.reads = self.reads.saturating_sub(1);
        let event = Event::of(Step::Clock, Seen::Over(over));
        record(self.rt, &mut self.events, event);
        over
    }
}

// If the receiver leaves while the sender is about to finish, the sender uses up the waker in this slot.
fn finish_late<W: Wakes>(op: Op, found: u8, waker: &mut Option<W>)
    ensures { waker.new ≡ waker_after op found waker.old }
{
    if op == Op::Swap(DISCONNECTED) && found == UNPARKING {
        if let Some(waker) = waker.take() {
            waker.wake();
        }
    }
}

// Whether this slot has the waker of a waiting receiver.
fn is_waiting<W>(owns_waker: bool, waker: &Option<W>) -> bool
    ensures { result ≡ lies owns_waker waker.now }
{
    !owns_waker && waker.is_some()
}

// Whether the receiver owns the message's slot after an operation that found this word.
fn has_message(op: Op, found: u8) -> bool
    ensures { result ≡ keeps_message op found }
{
    match op {
        Op::Store(_) => true,
        _ => found == MESSAGE || found == DISCONNECTED,
    }
}

// Whether the receiver owns the waker's slot after an operation that found this word. `waits`: it waited.
fn has_waker(op: Op, found: u8, waits: bool) -> bool
    ensures { result ≡ keeps_waker op found waits }
{
    match op {
        Op::Swap(_) => found != EMPTY && found != UNPARKING,
        Op::Exchange(_, _) => found != EMPTY && found != UNPARKING,
        Op::Load => !waits,
        _ => true,
    }
}
