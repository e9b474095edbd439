//! The outcomes of an attempt, and what may be wrong.

use std::alloc::AllocError;

/// The outcome of an attempt.
pub(crate) enum Outcome {
    /// No allocation was refused.
    Made,
    /// One was refused, and the next attempt succeeded.
    Refused,
}

impl Outcome {
    /// Its text.
    pub(crate) fn text(self) -> &'static str {
        match self {
            Outcome::Made => "made",
            Outcome::Refused => "refused, then made",
        }
    }
}

/// What is wrong.
#[derive(Drop)]
pub(crate) enum Wrong {
    /// A line names nothing that can be made, or its number is not one of 0 to 255.
    UnknownName,
    /// The output could not be written.
    WriteFailed,
    /// The runtime of the first attempt was not dropped exactly once.
    RuntimeKept,
    /// The scripts that came back are not those of the first attempt.
    ScriptsChanged,
    /// The question that came back is not that of the first attempt.
    QuestionChanged,
    /// An allocation outside the first attempt was refused.
    RefusedAgain,
    /// What the second attempt made does not work.
    Broken,
}

impl Wrong {
    /// Its text.
    pub(crate) fn text(&self) -> &'static str {
        match self {
            Wrong::UnknownName => "unknown name",
            Wrong::WriteFailed => "write failed",
            Wrong::RuntimeKept => "the runtime was kept",
            Wrong::ScriptsChanged => "the scripts have changed",
            Wrong::QuestionChanged => "the question has changed",
            Wrong::RefusedAgain => "refused again",
            Wrong::Broken => "made, and does not work",
        }
    }
}

impl From<AllocError> for Wrong {
    fn from(_: AllocError) -> Wrong {
        Wrong::RefusedAgain
    }
}

/// Returns `Err(wrong)` unless `holds`.
pub(crate) fn ensure(holds: bool, wrong: Wrong) -> Result<(), Wrong> {
    if holds { Ok(()) } else { Err(wrong) }
}

/// The outcome of a second attempt, after a refusal: what it made has to work.
pub(crate) fn made_again(works: bool) -> Result<Outcome, Wrong> {
    if works {
        Ok(Outcome::Refused)
    } else {
        Err(Wrong::Broken)
    }
}
