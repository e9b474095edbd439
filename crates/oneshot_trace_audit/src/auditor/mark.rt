//! An entry with what the definitions read beside it.

use crate::auditor::calls::Call;
use crate::auditor::object::Object;
use oneshot_machine::machine::Step;
use oneshot_replay::Made;

/// A step, with its call and the object.
#[derive(Clone, Copy)]
pub(crate) struct Mark {
    /// The entry's number, counted from 1.
    pub(crate) number: usize,
    /// The step.
    pub(crate) made: Made,
    /// The call that the step belongs to.
    pub(crate) call: Call,
    /// Whether the call begins here.
    pub(crate) begins: bool,
    /// Whether the call takes effect here.
    pub(crate) acts: bool,
    /// The object before it.
    pub(crate) object: Object,
}

/// Whether a step is an operation on the word.
pub(crate) fn is_word(step: Step) -> bool {
    matches!(step, Step::Word(_))
}

/// Whether a step always moves the message.
pub(crate) fn moves_message(step: Step) -> bool {
    matches!(
        step,
        Step::WriteMessage | Step::TakeMessage | Step::DropMessage
    )
}

/// Whether a step always moves a waker.
pub(crate) fn moves_waker(step: Step) -> bool {
    matches!(
        step,
        Step::WriteWaker | Step::TakeWaker | Step::Withdraw | Step::Wake
    )
}

/// Whether a step uses the block: an operation on the word, a step on a cell, or the free.
pub(crate) fn uses_block(step: Step) -> bool {
    match step {
        Step::Word(_)
        | Step::WriteMessage
        | Step::TakeMessage
        | Step::DropMessage
        | Step::WriteWaker
        | Step::TakeWaker
        | Step::Withdraw
        | Step::Free => true,
        Step::Park | Step::Clock | Step::Copy | Step::Wake | Step::WakeOwn | Step::Plain => false,
    }
}
