//! Moves a run of the model by what the ends of a compiled channel did, and compares.

use crate::differs::Differs;
use crate::event::{Event, Kind, Operation};
use crate::model::{Given, MOST_SILENT, Model};
use crate::reply::{reply_of, task_of};
use oneshot_machine::machine::{End, Reply, Step};
use oneshot_machine::states::Op;
use oneshot_replay::Place;

/// What no word has reported yet of one end.
#[derive(Drop)]
struct Side {
    /// The reply of a call that has ended.
    reply: Option<Reply>,
    /// Whether the end was given the message, and has not freed it.
    has_message: bool,
    is_done: bool,
}

impl Side {
    fn new() -> Side {
        Side {
            reply: None,
            has_message: false,
            is_done: false,
        }
    }
}

/// Where the steps that no word reports lead an end.
enum Reached {
    /// To a step that a word reports.
    Told(Step),
    /// To the end of the call.
    Replied(Reply),
}

/// A run of the model beside a run of the ends.
#[derive(Drop)]
pub(crate) struct Follower {
    pub(crate) model: Model,
    sender: Side,
    receiver: Side,
    block_freed: bool,
    has_acted: bool,
    /// Whether the sender's drop has loaded the word for its next exchange.
    has_loaded: bool,
    /// Whether the receiver's copy was refused, and the model's not yet.
    is_refused: bool,
    pub(crate) is_stuck: bool,
}

impl Follower {
    pub(crate) fn new(model: Model) -> Follower {
        Follower {
            model,
            sender: Side::new(),
            receiver: Side::new(),
            block_freed: false,
            has_acted: false,
            has_loaded: false,
            is_refused: false,
            is_stuck: false,
        }
    }

    fn side(&mut self, end: End) -> &mut Side {
        match end {
            End::Sender => &mut self.sender,
            End::Receiver => &mut self.receiver,
        }
    }

    /// Makes the next step of an end. Returns the word before and after it.
    fn advance(&mut self, end: End, given: Given) -> Result<(Option<u8>, Option<u8>), Differs> {
        let made = self.model.advance(end, given)?;
        let side = self.side(end);
        side.reply = made.reply;
        if let Some((_, Place::Delivered | Place::FromError)) = made.message {
            side.has_message = true;
        }
        Ok((made.before, made.after))
    }

    /// What a step that no word reports gets. A copy is refused if a word before reported so, and no older copy takes
    /// its place; that refusal is used up here.
    fn given(&mut self, step: Step) -> Given {
        if !self.is_refused || step != Step::Copy {
            return Given::Usual;
        }
        self.is_refused = false;
        if self.model.has_older_copy() {
            Given::Usual
        } else {
            Given::Refusal
        }
    }

    /// Makes those steps of an end that no word reports, until its call has replied or a word reports the next.
    fn go_silently(&mut self, end: End) -> Result<Reached, Differs> {
        for _ in 0..MOST_SILENT {
            if let Some(reply) = self.side(end).reply {
                return Ok(Reached::Replied(reply));
            }
            let Some(step) = self.model.next_step(end) else {
                return Err(Differs::NothingLeft(end));
            };
            if is_told(step) {
                return Ok(Reached::Told(step));
            }
            let given = self.given(step);
            self.advance(end, given)?;
        }
        Err(Differs::TooLong)
    }

    /// Makes those steps of an end that no word reports, and returns the next that one reports. The call has to go on
    /// until then.
    fn reach(&mut self, end: End) -> Result<Step, Differs> {
        match self.go_silently(end)? {
            Reached::Told(step) => Ok(step),
            Reached::Replied(reply) => Err(Differs::HasReplied(reply)),
        }
    }

    /// Makes the last steps of the call under way, which no word reports, and takes its reply.
    fn end_call(&mut self, end: End) -> Result<Reply, Differs> {
        match self.go_silently(end)? {
            Reached::Told(step) => Err(Differs::OtherStep(step)),
            Reached::Replied(reply) => {
                self.side(end).reply = None;
                Ok(reply)
            }
        }
    }

    /// Makes the next step of an end that a word reports, which has to be this one.
    fn make(&mut self, end: End, told: Step, given: Given) -> Result<(), Differs> {
        let step = self.reach(end)?;
        if step != told {
            return Err(Differs::OtherStep(step));
        }
        self.advance(end, given)?;
        Ok(())
    }

    /// Makes the sender's steps that no word reports: nothing comes between them and the operation before.
    fn settle_sender(&mut self) -> Result<(), Differs> {
        for _ in 0..MOST_SILENT {
            if !self.is_sender_silent() {
                return Ok(());
            }
            self.advance(End::Sender, Given::Usual)?;
        }
        Err(Differs::TooLong)
    }

    /// Whether no word reports the next step of the sender's call under way.
    fn is_sender_silent(&self) -> bool {
        match self.model.next_step(End::Sender) {
            Some(step) => self.model.is_under_way(End::Sender) && !is_told(step),
            None => false,
        }
    }

    /// Moves the run by what a word reports.
    pub(crate) fn follow(&mut self, event: Event) -> Result<(), Differs> {
        match event {
            Event::Operation(told) => self.operate(told),
            Event::Clock { over } => self.read_clock(over),
            Event::Reply { end, code } => self.reply(end, code),
            Event::Done(end) => self.finish(end),
            Event::MessageFreed(end) => self.free_message(end),
            Event::BlockFreed => {
                self.block_freed = true;
                Ok(())
            }
            Event::Stuck(end) => self.stick(end),
            Event::Task(code) => self.compare_task(code),
            Event::Refusal => self.refuse(),
            Event::Fault(fault) => Err(Differs::Fault(fault)),
            Event::Silent => Ok(()),
        }
    }

    fn operate(&mut self, told: Operation) -> Result<(), Differs> {
        if told.end == End::Sender && self.model.drops_sender() && told.tries_to_xor() {
            return self.try_to_xor(told);
        }
        match self.reach(told.end)? {
            Step::Word(op) if told.makes(op) => self.make_operation(told, op),
            step => Err(Differs::OtherStep(step)),
        }
    }

    /// Makes an operation, which has to find and to leave these words.
    fn make_operation(&mut self, told: Operation, op: Op) -> Result<(), Differs> {
        let (before, after) = self.advance(told.end, Given::Usual)?;
        if before != Some(told.found) || after != Some(told.left) {
            return Err(Differs::OtherWord(before, after));
        }
        self.has_acted = self.has_acted || matches!(op, Op::Add | Op::Xor);
        self.settle_sender()
    }

    /// An xor is a loop of exchanges until one succeeds. Before each there may be one load.
    fn try_to_xor(&mut self, told: Operation) -> Result<(), Differs> {
        let word = self.model.word();
        if word != Some(told.found) || word != Some(told.left) {
            return Err(Differs::OtherWord(word, word));
        }
        let is_load = matches!(told.kind, Kind::Load);
        if is_load && self.has_loaded {
            return Err(Differs::OtherStep(Step::Word(Op::Xor)));
        }
        self.has_loaded = is_load;
        Ok(())
    }

    /// A park until a deadline may read the clock too.
    fn read_clock(&mut self, over: bool) -> Result<(), Differs> {
        if let Some(Step::Park) = self.model.next_step(End::Receiver) {
            return Ok(());
        }
        let given = if over { Given::Over } else { Given::Usual };
        self.make(End::Receiver, Step::Clock, given)
    }

    fn reply(&mut self, end: End, code: u64) -> Result<(), Differs> {
        let Some((told, message)) = reply_of(code) else {
            return Err(Differs::UnknownWord);
        };
        let reply = self.end_call(end)?;
        if end == End::Receiver && self.is_refused {
            return Err(Differs::NoCopy);
        }
        if reply != told {
            return Err(Differs::OtherReply(reply));
        }
        match message {
            Some(message) => self.compare_message(message),
            None => Ok(()),
        }
    }

    fn compare_message(&self, message: u64) -> Result<(), Differs> {
        if message != self.model.message() {
            return Err(Differs::OtherMessage(self.model.message()));
        }
        Ok(())
    }

    fn compare_task(&self, code: u64) -> Result<(), Differs> {
        match task_of(code) {
            Some((number, woken)) => self.model.tasks().compare(number, woken),
            None => Err(Differs::UnknownWord),
        }
    }

    fn finish(&mut self, end: End) -> Result<(), Differs> {
        let side = self.side(end);
        side.is_done = true;
        if let Some(reply) = side.reply {
            return Err(Differs::HasReplied(reply));
        }
        if self.model.has_call(end) {
            return Err(Differs::CallLeft(end));
        }
        Ok(())
    }

    /// An end that was given the message frees it; else its call drops it.
    fn free_message(&mut self, end: End) -> Result<(), Differs> {
        let side = self.side(end);
        if side.has_message {
            side.has_message = false;
            return Ok(());
        }
        self.make(end, Step::DropMessage, Given::Usual)
    }

    /// The copy of a waker that the receiver makes next is refused.
    fn refuse(&mut self) -> Result<(), Differs> {
        if self.is_refused {
            return Err(Differs::NoCopy);
        }
        self.is_refused = true;
        Ok(())
    }

    /// A receiver may sleep for ever only if the sender has made all its calls and has neither sent nor been dropped.
    fn stick(&mut self, end: End) -> Result<(), Differs> {
        self.is_stuck = true;
        if end == End::Sender || self.has_acted || !self.sender.is_done {
            return Err(Differs::LostWakeup);
        }
        Ok(())
    }

    /// Compares how the run ended.
    pub(crate) fn end(&self) -> Result<(), Differs> {
        if self.is_stuck {
            return Ok(());
        }
        if !self.sender.is_done {
            return Err(Differs::CallLeft(End::Sender));
        }
        if !self.receiver.is_done {
            return Err(Differs::CallLeft(End::Receiver));
        }
        if self.model.block_freed() != self.block_freed {
            return Err(Differs::OtherBlock(self.model.block_freed()));
        }
        Ok(())
    }
}

/// Whether a word reports this step: an operation, a reading of the clock, the free of a message that a call drops.
pub(crate) fn is_told(step: Step) -> bool {
    matches!(step, Step::Word(_) | Step::Clock | Step::DropMessage)
}
