//! Why a text gives no request: the errors of `parse_request`.

ghost use Rattle.oneshot_text.specs.declared.fault.ParseError.TheVariants.{Malformed as NotOfTheGrammar, OutOfMemory};
ghost use Rattle.std.specs.Prelude.{◌≡◌, alloc_error};

use crate::line::Line;
use std::alloc::{AllocError, AllocFailed};
use thiserror::Error;

/// The first fault of a text, line by line and from left to right. Words are counted from 1, after the
/// line's letter.
#[derive(Clone, Copy, Debug, Eq, Error, PartialEq)]
pub enum Malformed {
    /// The text ends before this line begins.
    #[error("{0} is missing")]
    MissingLine(Line),
    /// The line's first word is not its letter.
    #[error("{0}: must begin with {letter}", letter = .0.letter())]
    MustBegin(Line),
    /// This word is unknown here.
    #[error("{line}: unknown word {word}")]
    UnknownWord { line: Line, word: usize },
    /// A number must come here, but the word is missing or is no number below 2^64.
    #[error("{line}: bad number at word {word}")]
    BadNumber { line: Line, word: usize },
    /// The word follows the last call of its line, or the schedule's letters.
    #[error("{line}: word {word} follows the last call")]
    FollowsLastCall { line: Line, word: usize },
    /// A byte follows the third line feed.
    #[error("input after line 3")]
    InputAfterLines,
}

/// Why a text gives no request.
#[derive(Debug, Drop, Error)]
pub enum ParseError {
    /// The text does not match the grammar; this is its first fault.
    #[error(transparent)]
    Malformed(Malformed),
    /// Out of memory.
    #[error("out of memory")]
    OutOfMemory(AllocError),
}

impl From<Malformed> for ParseError {
    ghost from_gives = { λ fault error. error ≡ NotOfTheGrammar fault };

    fn from(fault: Malformed) -> ParseError {
        ParseError::Malformed(fault)
    }
}

impl From<AllocError> for ParseError {
    ghost from_gives = { λ refused error. error ≡ OutOfMemory refused };

    fn from(refused: AllocError) -> ParseError {
        ParseError::OutOfMemory(refused)
    }
}

impl<T: Drop> From<AllocFailed<T>> for ParseError {
    ghost from_gives = { λ _ error. error ≡ OutOfMemory alloc_error };

    fn from(_: AllocFailed<T>) -> ParseError {
        ParseError::OutOfMemory(AllocError)
    }
}
