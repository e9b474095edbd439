//! The grammar of a line: the words that each place allows, and the place after each.

/// A place on a line.
#[derive(Clone, Copy)]
pub(super) enum Place {
    /// The beginning of line 1.
    Sender,
    /// The beginning of line 2.
    Receiver,
    /// The beginning of line 3.
    Schedule,
    /// The sender's next call.
    SenderCall,
    /// The message.
    Message,
    /// The next call on the error.
    ErrorCall,
    /// The receiver's next call.
    ReceiverCall,
    /// The future's next call.
    FutureCall,
    /// The number of a polling task.
    Task,
    /// The letters of the schedule.
    Letters,
    /// After the last call or the letters.
    End,
}

/// What is wrong with a word.
#[derive(Clone, Copy)]
pub(super) enum Wrong {
    /// It is the line's first word, but not this letter.
    MustBegin(&'static str),
    /// The place does not allow it.
    UnknownWord,
    /// It is missing, or is not a number.
    BadNumber,
    /// It follows the last call or the letters.
    FollowsLastCall,
}

/// The words that a place allows, each with the place after it.
type Words = &'static [(&'static str, Place)];

const SENDER_CALLS: Words = &[
    ("closed", Place::SenderCall),
    ("drop", Place::End),
    ("send", Place::Message),
];

const ERROR_CALLS: Words = &[
    ("inner", Place::ErrorCall),
    ("into", Place::End),
    ("drop", Place::End),
];

const RECEIVER_CALLS: Words = &[
    ("try", Place::ReceiverCall),
    ("ref", Place::ReceiverCall),
    ("deadline", Place::ReceiverCall),
    ("timeout", Place::ReceiverCall),
    ("forever", Place::ReceiverCall),
    ("full", Place::ReceiverCall),
    ("closed", Place::ReceiverCall),
    ("recv", Place::End),
    ("drop", Place::End),
    ("future", Place::FutureCall),
];

const FUTURE_CALLS: Words = &[
    ("poll", Place::Task),
    ("try", Place::FutureCall),
    ("full", Place::FutureCall),
    ("closed", Place::FutureCall),
    ("drop", Place::End),
];

impl Place {
    /// Returns the place after `word`, if this place allows it.
    pub(super) fn after(self, word: &str) -> Result<Place, Wrong> {
        match self {
            Place::Sender => first(word, "S", Place::SenderCall),
            Place::Receiver => first(word, "R", Place::ReceiverCall),
            Place::Schedule => first(word, "X", Place::Letters),
            Place::SenderCall => call(word, SENDER_CALLS),
            Place::ErrorCall => call(word, ERROR_CALLS),
            Place::ReceiverCall => call(word, RECEIVER_CALLS),
            Place::FutureCall => call(word, FUTURE_CALLS),
            Place::Message => number(word, Place::ErrorCall),
            Place::Task => number(word, Place::FutureCall),
            Place::Letters => letters(word),
            Place::End => Err(Wrong::FollowsLastCall),
        }
    }

    /// Ends the line here, unless a number is missing.
    pub(super) fn end(self) -> Result<(), Wrong> {
        match self {
            Place::Message | Place::Task => Err(Wrong::BadNumber),
            Place::Sender
            | Place::Receiver
            | Place::Schedule
            | Place::SenderCall
            | Place::ErrorCall
            | Place::ReceiverCall
            | Place::FutureCall
            | Place::Letters
            | Place::End => Ok(()),
        }
    }
}

fn first(word: &str, letter: &'static str, after: Place) -> Result<Place, Wrong> {
    if word == letter {
        Ok(after)
    } else {
        Err(Wrong::MustBegin(letter))
    }
}

fn call(word: &str, words: Words) -> Result<Place, Wrong> {
    for (text, after) in words {
        if *text == word {
            return Ok(*after);
        }
    }
    Err(Wrong::UnknownWord)
}

fn letters(word: &str) -> Result<Place, Wrong> {
    if !word.is_empty() && word.chars().all(|letter| "sron".contains(letter)) {
        Ok(Place::End)
    } else {
        Err(Wrong::UnknownWord)
    }
}

fn number(word: &str, after: Place) -> Result<Place, Wrong> {
    if is_number(word) {
        Ok(after)
    } else {
        Err(Wrong::BadNumber)
    }
}

/// The largest number that a text may have.
const LARGEST: &str = "18446744073709551615";

/// Whether `word` has only digits, no leading zero, and is at most the largest number.
fn is_number(word: &str) -> bool {
    let digits = !word.is_empty() && word.chars().all(|digit| digit.is_ascii_digit());
    let leading_zero = word.len() > 1 && word.starts_with('0');
    let small = word.len() < LARGEST.len() || word.len() == LARGEST.len() && word <= LARGEST;
    digits && !leading_zero && small
}
