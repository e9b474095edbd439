//! The copies of wakers that a future keeps outside its channel. The two tasks of a program under the scheduler are in
//! two queues, and have the same number there. A future distinguishes tasks by this number, so only how many copies it
//! keeps counts.

use oneshot_machine::machine::{End, Step};
use oneshot_replay::{Made, WakerName};

/// Whether a copy is in hand, and whether another is spare.
#[derive(Clone, Copy)]
pub(crate) struct Kept {
    hand: bool,
    spare: bool,
}

impl Kept {
    pub(crate) fn new() -> Kept {
        Kept {
            hand: false,
            spare: false,
        }
    }

    /// Whether a copy is in hand. A poll stores it where its own copy is refused.
    pub(crate) fn has_copy(&self) -> bool {
        self.hand
    }

    /// Notes a step by which the receiver makes a copy, stores it or takes it back.
    pub(crate) fn note(&mut self, made: &Made) {
        if let (End::Receiver, Some((WakerName::Copy { .. }, ..))) = (made.side, made.waker) {
            self.note_copy(made.step);
        }
    }

    fn note_copy(&mut self, step: Step) {
        match step {
            Step::Copy => self.hand = true,
            Step::WriteWaker => {
                self.hand = self.spare;
                self.spare = false;
            }
            Step::Withdraw if self.hand => self.spare = true,
            Step::Withdraw => self.hand = true,
            _ => {}
        }
    }
}
