//! How the receiver waits, in a park or as a task: once the sender's `send` or drop has replied, it was woken.

use crate::auditor::calls::Call;
use crate::auditor::fault::Fault;
use crate::auditor::mark::Mark;
use oneshot_machine::machine::{End, Reply, Seen, Step};
use oneshot_replay::{Entry, Made, WakerName, WakerPlace};

/// What the entries so far show of a waiting receiver.
#[derive(Drop)]
pub(crate) struct Waits {
    /// Whether there is a token, which ends a park at once.
    has_token: bool,
    /// The last poll, unless a drop has begun after it.
    poll: Option<Poll>,
}

/// A poll, and its outcome so far.
#[derive(Clone, Copy)]
struct Poll {
    task: u64,
    is_pending: bool,
    /// Whether an entry in this poll or after it woke the task.
    is_woken: bool,
}

impl Waits {
    /// The state before any entry.
    pub(crate) fn new() -> Waits {
        Waits {
            has_token: false,
            poll: None,
        }
    }

    /// Reads a step: its entry is right about the token, and it may wake a waiting task.
    pub(crate) fn read(&mut self, mark: Mark) -> Result<(), Fault> {
        let Mark { made, .. } = mark;
        let sets = uses_parker(&made);
        let parks = made.step == Step::Park;
        if made.token_set != sets || parks && made.seen != Seen::Token(self.has_token) {
            return Err(Fault::ToldToken);
        }
        self.has_token = sets || self.has_token && !parks;
        self.poll = match poll_at(self.poll, mark) {
            Some(poll) => Some(poll.after(&made)),
            None => None,
        };
        Ok(())
    }

    /// Checks, after the sender has replied, that a receiver that parks next has its token, and that a
    /// pending task was woken. `later` has the entries to come. If none of them is the receiver's, the
    /// trace does not show whether it parks next.
    pub(crate) fn read_wait(&self, later: &[Entry]) -> Result<(), Fault> {
        if !self.has_token && parks_next(later) {
            return Err(Fault::UnwokenPark);
        }
        match self.poll {
            Some(poll) if poll.is_pending && !poll.is_woken => Err(Fault::UnwokenTask(poll.task)),
            _ => Ok(()),
        }
    }
}

impl Poll {
    /// The poll after this step of either end.
    fn after(self, made: &Made) -> Poll {
        Poll {
            task: self.task,
            is_pending: self.is_pending || made.reply == Some(Reply::Pending),
            is_woken: self.is_woken || wakes(made, self.task),
        }
    }
}

/// The last poll at this step, which may begin a new poll, or be one of the drop.
fn poll_at(last: Option<Poll>, mark: Mark) -> Option<Poll> {
    match mark.call {
        Call::Poll(task) if mark.begins => Some(Poll {
            task,
            is_pending: false,
            is_woken: false,
        }),
        Call::DropReceiver => None,
        _ => last,
    }
}

/// Whether a step wakes the tasks that poll with this number: a poll's own wake, or the use of a copy.
fn wakes(made: &Made, task: u64) -> bool {
    match made.waker {
        Some((WakerName::Copy { number, .. }, _, WakerPlace::Used)) if number == task => true,
        _ => made.own == Some(task),
    }
}

fn uses_parker(made: &Made) -> bool {
    matches!(made.waker, Some((WakerName::Parker, _, WakerPlace::Used)))
}

/// Whether the receiver's next step is a park.
fn parks_next(later: &[Entry]) -> bool {
    for entry in later {
        match entry {
            Entry::Made(made) if made.side == End::Receiver => return made.step == Step::Park,
            _ => {}
        }
    }
    false
}
