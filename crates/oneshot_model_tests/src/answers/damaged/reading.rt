//! A second reading of a text, by the grammar alone: what the text asks for, or its first fault.

use crate::answers::damaged::place::{Place, Wrong};
use std::{fmt, str};

/// What a text asks for, as far as the output shows it.
#[derive(Clone, Copy)]
pub(super) struct Asked<'a> {
    /// The word after `send` in the sender's line.
    pub(super) message: Option<&'a str>,
    /// The letters of the schedule.
    pub(super) letters: &'a str,
}

/// The first fault of a text.
#[derive(Clone, Copy)]
pub(super) enum Flaw {
    /// A byte is above 127.
    NotAscii,
    /// The text ends before this line begins.
    Missing {
        line: usize,
    },
    /// A word is wrong or missing. A line's first word has the number 0.
    Word {
        line: usize,
        word: usize,
        wrong: Wrong,
    },
    /// A byte follows the third line.
    InputAfter,
}

/// The result of a reading, without lines and words.
#[derive(Clone, Copy, Debug, PartialEq)]
pub(crate) enum Kind {
    Trace,
    NotAscii,
    Missing,
    MustBegin,
    UnknownWord,
    BadNumber,
    FollowsLastCall,
    InputAfter,
}

impl Kind {
    pub(super) const ALL: &'static [Kind; 8] = &[
        Kind::Trace,
        Kind::NotAscii,
        Kind::Missing,
        Kind::MustBegin,
        Kind::UnknownWord,
        Kind::BadNumber,
        Kind::FollowsLastCall,
        Kind::InputAfter,
    ];
}

impl Flaw {
    pub(super) fn kind(&self) -> Kind {
        match self {
            Flaw::NotAscii => Kind::NotAscii,
            Flaw::Missing { .. } => Kind::Missing,
            Flaw::InputAfter => Kind::InputAfter,
            Flaw::Word { wrong, .. } => match wrong {
                Wrong::MustBegin(_) => Kind::MustBegin,
                Wrong::UnknownWord => Kind::UnknownWord,
                Wrong::BadNumber => Kind::BadNumber,
                Wrong::FollowsLastCall => Kind::FollowsLastCall,
            },
        }
    }
}

impl fmt::Display for Flaw {
    fn fmt<W: fmt::Write>(&self, f: &mut fmt::Formatter<W>) -> fmt::Result {
        match *self {
            Flaw::NotAscii => f.write_str("input is not ASCII"),
            Flaw::Missing { line } => write!(f, "line {line} is missing"),
            Flaw::InputAfter => f.write_str("input after line 3"),
            Flaw::Word { line, word, wrong } => {
                write!(f, "line {line}: ")?;
                write_wrong(f, word, wrong)
            }
        }
    }
}

/// Writes what is wrong with the word of this number.
fn write_wrong<W: fmt::Write>(f: &mut fmt::Formatter<W>, word: usize, wrong: Wrong) -> fmt::Result {
    match wrong {
        Wrong::MustBegin(letter) => write!(f, "must begin with {letter}"),
        Wrong::UnknownWord => write!(f, "unknown word {word}"),
        Wrong::BadNumber => write!(f, "bad number at word {word}"),
        Wrong::FollowsLastCall => write!(f, "word {word} follows the last call"),
    }
}

/// Reads what `input` asks for.
pub(super) fn read(input: &[u8]) -> Result<Asked<'_>, Flaw> {
    match str::from_utf8(input) {
        Ok(text) if text.is_ascii() => read_lines(text),
        _ => Err(Flaw::NotAscii),
    }
}

fn read_lines(text: &str) -> Result<Asked<'_>, Flaw> {
    let (sender, rest) = read_line(text, 1, Place::Sender)?;
    let (_, rest) = read_line(rest, 2, Place::Receiver)?;
    let (schedule, rest) = read_line(rest, 3, Place::Schedule)?;
    if !rest.is_empty() {
        return Err(Flaw::InputAfter);
    }
    Ok(Asked {
        message: message_of(sender),
        letters: schedule.strip_prefix("X ").unwrap_or(""),
    })
}

/// Reads the first line of `text`, which has the number `line` and begins at the place `begin`. Returns it, and the
/// text after it.
fn read_line(text: &str, line: usize, begin: Place) -> Result<(&str, &str), Flaw> {
    if text.is_empty() {
        return Err(Flaw::Missing { line });
    }
    let (words, rest) = text.split_once('\n').unwrap_or((text, ""));
    read_words(line, begin, words)?;
    Ok((words, rest))
}

/// Reads the words of a line that begins at the place `begin`.
fn read_words(line: usize, begin: Place, words: &str) -> Result<(), Flaw> {
    let mut place = begin;
    let mut word = 0usize;
    for text in words.split(' ') {
        match place.after(text) {
            Ok(after) => place = after,
            Err(wrong) => return Err(Flaw::Word { line, word, wrong }),
        }
        word = word.saturating_add(1);
    }
    match place.end() {
        Ok(()) => Ok(()),
        Err(wrong) => Err(Flaw::Word { line, word, wrong }),
    }
}

/// The word after `send` in the sender's line, if it has one.
fn message_of(sender: &str) -> Option<&str> {
    let (_, after) = sender.split_once(" send ")?;
    after.split(' ').next()
}
