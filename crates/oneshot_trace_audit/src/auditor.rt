//! An auditor of a trace and its scripts, written from the definitions alone: the sequential object with one
//! message, the acting entry of each call, the places of the message and of the wakers, who holds the block,
//! and how the receiver waits. It has no transition table, and calls nothing that made the trace.

mod acting;
mod calls;
mod fault;
mod history;
mod holders;
mod mark;
mod message;
mod object;
mod waits;
mod wakers;

pub(crate) use crate::auditor::fault::{Fault, Finding};
use crate::auditor::history::History;
use crate::auditor::holders::Holders;
use crate::auditor::mark::Mark;
use crate::auditor::message::Message;
use crate::auditor::waits::Waits;
use oneshot_machine::machine::End;
use oneshot_replay::{Entry, Made, Place, ReceiverScript, SenderScript};

/// A sender's script and a receiver's.
#[derive(Drop)]
pub(crate) struct Scripts {
    pub(crate) sender: SenderScript<u64>,
    pub(crate) receiver: ReceiverScript,
}

/// What a trace reports.
#[derive(Drop)]
pub(crate) struct DrawnTrace {
    /// An entry for each move.
    pub(crate) entries: Vec<Entry>,
    /// Whether the block is freed.
    pub(crate) block_freed: bool,
    /// The message's last place, with the message. `None`: the script sends nothing.
    pub(crate) rest: Option<(Place, u64)>,
}

/// Accepts the trace of these scripts. `Err`: what is wrong, and the first entry that shows it.
pub(crate) fn audit(scripts: &Scripts, trace: &DrawnTrace) -> Result<(), Finding> {
    let mut auditor = Auditor::new(scripts);
    let entries = trace.entries.as_slice();
    for before in 0..entries.len() {
        let number = before + 1;
        let earlier = &entries[..before];
        let later = &entries[number..];
        let found = match entries[before] {
            Entry::Idle(end) => auditor.read_idle(scripts, end),
            Entry::Made(made) => auditor.read_made(scripts, number, made, earlier, later),
        };
        if let Err(fault) = found {
            return Err((number, fault));
        }
    }
    match auditor.read_end(trace) {
        Ok(()) => Ok(()),
        Err(fault) => Err((entries.len(), fault)),
    }
}

/// What the definitions need of the entries read so far.
#[derive(Drop)]
struct Auditor {
    history: History,
    holders: Holders,
    message: Message,
    waits: Waits,
}

impl Auditor {
    fn new(scripts: &Scripts) -> Auditor {
        Auditor {
            history: History::new(),
            holders: Holders::new(),
            message: Message::new(&scripts.sender),
            waits: Waits::new(),
        }
    }

    /// Checks that an idle end has no call under way or left.
    fn read_idle(&self, scripts: &Scripts, end: End) -> Result<(), Fault> {
        match self.history.call_of(scripts, end) {
            Some(_) => Err(Fault::IdleTooEarly(end)),
            None => Ok(()),
        }
    }

    /// Checks that a step belongs to a call, and meets each definition.
    fn read_made(
        &mut self,
        scripts: &Scripts,
        number: usize,
        made: Made,
        earlier: &[Entry],
        later: &[Entry],
    ) -> Result<(), Fault> {
        let Some(call) = self.history.call_of(scripts, made.side) else {
            return Err(Fault::NoCallLeft(made.side));
        };
        let mark = self.history.mark(number, made, call, later);
        self.read_mark(mark, earlier)?;
        if self.history.has_sender_answered() {
            self.waits.read_wait(later)?;
        }
        Ok(())
    }

    /// Checks that a step of a call meets each definition of a step.
    fn read_mark(&mut self, mark: Mark, earlier: &[Entry]) -> Result<(), Fault> {
        self.holders.read(mark)?;
        self.message.read(mark)?;
        wakers::read(mark, earlier)?;
        self.history.read(mark)?;
        self.message.read_reply(mark)?;
        self.waits.read(mark)
    }

    /// Checks what must hold after the last entry.
    fn read_end(&self, trace: &DrawnTrace) -> Result<(), Fault> {
        if self.history.have_all_ended() {
            self.message.read_end()?;
            wakers::read_end(trace.entries.as_slice())?;
            self.holders.read_end()?;
        }
        self.holders.read_told(trace.block_freed)?;
        self.message.read_told(trace.rest)
    }
}
