//! The three lines of a text, by name.

ghost use Rattle.std.specs.Prelude.{◌≡◌};
ghost use Rattle.oneshot_text.specs.Line.{letter_of_line, number_of_line};

use std::fmt;

/// A line of a text. It displays as `line` and its number.
#[derive(Clone, Copy, Debug, Eq, PartialEq)]
pub enum Line {
    /// The sender's script.
    Sender,
    /// The receiver's script.
    Receiver,
    /// The schedule.
    Schedule,
}

impl Line {
    /// Returns the letter that is the line's first word.
    pub fn letter(self) -> &'static str
        ensures { result.now ≡ letter_of_line self }
    {
        match self {
            Line::Sender => "S",
            Line::Receiver => "R",
            Line::Schedule => "X",
        }
    }

    fn number(self) -> u8
        ensures { result ≡ number_of_line self }
    {
        match self {
            Line::Sender => 1,
            Line::Receiver => 2,
            Line::Schedule => 3,
        }
    }
}

impl fmt::Display for Line {
    ghost use Rattle.std.specs.Prelude.{◌++◌, Some, codes, decimal};
    ghost use Rattle.oneshot_text.specs.Line.{number_of_line};

    ghost output = { λ l. Some (codes "line " ++ decimal (number_of_line l)) };

    fn fmt<W: fmt::Write>(&self, f: &mut fmt::Formatter<W>) -> fmt::Result {
        write!(f, "line {}", self.number())
    }
}
