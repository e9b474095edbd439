//! Cuts a text into its three lines.

ghost use Rattle.std.specs.Prelude.{◌≡◌, ◌↔◌, ℕ, ◌<◌, List, [], ◌∷◌, Err, length, map, IfOk, IsOk};
ghost use Rattle.oneshot_text.specs.Cut.{words_of, lines_of};
ghost use Rattle.oneshot_text.specs.FirstFault.{IsFirstFault};
ghost use Rattle.oneshot_text.specs.Line.{letter_of_line};
ghost use Rattle.oneshot_text.specs.Lines.{lines_left};
ghost use Rattle.oneshot_text.specs.Words.{words_left, StandsAt};
ghost use Rattle.oneshot_text.specs.declared.fault.Malformed.{Malformed};
ghost use Rattle.oneshot_text.specs.declared.line.Line.{Line};

use crate::fault::Malformed;
use crate::line::Line;
use crate::words::Words;

/// What is left of a text whose lines are taken one by one.
#[derive(Drop)]
pub(crate) struct Lines<'a> {
    rest: &'a str,
}

impl<'a> Lines<'a> {
    /// All of `text`.
    pub(crate) fn new(text: &'a str) -> Lines<'a>
        ensures { lines_left result ≡ map words_of (lines_of text.now) }
    {
        Lines { rest: text }
    }

    /// Takes the next line, which must be `line`, and returns its words after the letter.
    pub(crate) fn take(&mut self, line: Line) -> Result<Words<'a>, Malformed>
        ensures read { IfOk result (λ words.
            lines_left self.old ≡ (letter_of_line line ∷ words_left words) ∷ lines_left self.new) }
        ensures each { (words : List (List ℕ)) (rest : List (List (List ℕ))) →
            lines_left self.old ≡ (letter_of_line line ∷ words) ∷ rest → IsOk result }
        ensures first { IfOk result (λ words. StandsAt line 1 words) }
        ensures faulty { (fault : Malformed) → result ≡ Err fault → (later : List Line) →
            IsFirstFault (line ∷ later) (lines_left self.old) fault }
    {
        if self.rest.is_empty() {
            return Err(Malformed::MissingLine(line));
        }
        let (first, rest) = cut_line(self.rest);
        self.rest = rest;
        let mut words = Words::new(line, first);
        if !words.next_is(line.letter()) {
            return Err(Malformed::MustBegin(line));
        }
        words.next();
        Ok(words)
    }

    /// Ends the text: nothing may be left of it.
    pub(crate) fn end(self) -> Result<(), Malformed>
        ensures over { IsOk result ↔ (lines_left self.entry ≡ []) }
        ensures faulty { (fault : Malformed) → result ≡ Err fault →
            IsFirstFault [] (lines_left self.entry) fault }
    {
        if self.rest.is_empty() {
            Ok(())
        } else {
            Err(Malformed::InputAfterLines)
        }
    }
}

/// The first line of a text, and what follows its line feed.
fn cut_line(text: &str) -> (&str, &str)
    requires { 0 < length text.now }
    ensures { lines_of text.now ≡ result.0.now ∷ lines_of result.1.now }
{
    text.split_once('\n').unwrap_or((text, ""))
}
