//! Who holds the block: only a holder uses it, and the last one frees it.

use crate::auditor::fault::Fault;
use crate::auditor::mark::{Mark, uses_block};
use oneshot_machine::machine::{End, Step};

/// Who holds the block. The error of a refused `send` holds it in the sender's place.
#[derive(Drop)]
pub(crate) struct Holders {
    sender: bool,
    receiver: bool,
    is_freed: bool,
}

impl Holders {
    /// Both ends hold the new block.
    pub(crate) fn new() -> Holders {
        Holders {
            sender: true,
            receiver: true,
            is_freed: false,
        }
    }

    /// Reads a step: its end holds the block if it uses it, and is the last holder if it frees it. An end
    /// lets go of the block at its free, or when its last call acts while the other end is here.
    pub(crate) fn read(&mut self, mark: Mark) -> Result<(), Fault> {
        let end = mark.made.side;
        if uses_block(mark.made.step) && !self.holds(end) {
            return Err(Fault::NotHolder(end));
        }
        if mark.made.step == Step::Free {
            if self.holds(other(end)) {
                return Err(Fault::FreedTooEarly(end));
            }
            self.is_freed = true;
            self.let_go(end);
        }
        if mark.acts && mark.call.is_last_of_end() && mark.object.is_here(other(end)) {
            self.let_go(end);
        }
        Ok(())
    }

    /// Checks, after all have ended, that the block is freed.
    pub(crate) fn read_end(&self) -> Result<(), Fault> {
        if self.is_freed {
            Ok(())
        } else {
            Err(Fault::NeverFreed)
        }
    }

    /// Checks what the trace reports of the block.
    pub(crate) fn read_told(&self, block_freed: bool) -> Result<(), Fault> {
        if block_freed == self.is_freed {
            Ok(())
        } else {
            Err(Fault::ToldFreed { block_freed })
        }
    }

    fn holds(&self, end: End) -> bool {
        match end {
            End::Sender => self.sender,
            End::Receiver => self.receiver,
        }
    }

    fn let_go(&mut self, end: End) {
        match end {
            End::Sender => self.sender = false,
            End::Receiver => self.receiver = false,
        }
    }
}

fn other(end: End) -> End {
    match end {
        End::Sender => End::Receiver,
        End::Receiver => End::Sender,
    }
}
