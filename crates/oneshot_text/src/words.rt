//! Cuts a line into its words.

ghost use Rattle.std.specs.Prelude.{◌≡◌, ◌≢◌, ◌↔◌, ℕ, ◌+◌, ◌^◌, ◌<◌, [], ◌∷◌, ◌++◌, Some, Ok, Err, IfOk, OnOk, IsTrue, IsOk, length, slice_get, replicate, decimal};
ghost use Rattle.std.specs.Option.{option_copied};
ghost use Rattle.oneshot_text.specs.Cut.{words_of, words_in};
ghost use Rattle.oneshot_text.specs.declared.fault.Malformed.{Malformed};
ghost use Rattle.oneshot_text.specs.Grammar.{IsOver};

use crate::fault::Malformed;
use crate::line::Line;
use crate::number::parse_number;

/// A word of a line, with its number. The line's first word has the number 0.
#[derive(Clone, Copy)]
pub(crate) struct Word<'a> {
    line: Line,
    number: usize,
    pub(crate) text: &'a str,
}

impl Word<'_> {
    /// The fault that this word is unknown here.
    pub(crate) fn unknown(self) -> Malformed
        ensures { result ≡ Malformed.UnknownWord self.entry.line self.entry.number }
    {
        Malformed::UnknownWord {
            line: self.line,
            word: self.number,
        }
    }

    fn follows_last_call(self) -> Malformed
        ensures { result ≡ Malformed.FollowsLastCall self.entry.line self.entry.number }
    {
        Malformed::FollowsLastCall {
            line: self.line,
            word: self.number,
        }
    }
}

/// The words left of a line. Single spaces separate them, so a word may be empty.
#[derive(Drop)]
pub(crate) struct Words<'a> {
    line: Line,
    taken: usize,
    rest: Option<&'a str>,
    ghost countable: { taken + length (words_in rest) < 2 ^ 64 },
}

impl<'a> Words<'a> {
    ghost use Rattle.oneshot_text.specs.Words.{words_left, HasLineFault, IsSameLine, StandsAt};

    /// All words of the line `text`.
    pub(crate) fn new(line: Line, text: &'a str) -> Words<'a>
        ensures words { words_left result ≡ words_of text.now }
        ensures first { StandsAt line 0 result }
    {
        Words {
            line,
            taken: 0,
            rest: Some(text),
        }
    }

    /// The next word's text; `None` if no word is left.
    pub(crate) fn peek(&self) -> Option<&'a str>
        ensures { option_copied result ≡ slice_get (words_left self.now) 0 }
    {
        let (first, _) = cut_word(self.rest?);
        Some(first)
    }

    /// Whether there is a next word, and it is `text`.
    pub(crate) fn next_is(&self, text: &str) -> bool
        ensures { IsTrue result ↔ (slice_get (words_left self.now) 0 ≡ Some text.now) }
    {
        self.peek() == Some(text)
    }

    /// Takes the next words as long as they are `text`, and returns how many they were.
    pub(crate) fn take_run(&mut self, text: &str) -> usize
        ensures run { words_left self.old ≡ replicate result text.now ++ words_left self.new }
        ensures whole { slice_get (words_left self.new) 0 ≢ Some text.now }
        ensures line { IsSameLine self.old self.new }
    {
        let mut count = 0;
        while self.next_is(text) {
            self.next();
            count += 1;
        }
        count
    }

    /// Takes the next word, which must be a number, and returns the number.
    pub(crate) fn number(&mut self) -> Result<u64, Malformed>
        ensures written { IfOk result (λ n. words_left self.old ≡ decimal n ∷ words_left self.new) }
        ensures each { (n : ℕ) → n < 2 ^ 64 →
            slice_get (words_left self.old) 0 ≡ Some (decimal n) → result ≡ Ok n }
        ensures small { IfOk result (λ n. n < 2 ^ 64) }
        ensures line { OnOk result (IsSameLine self.old self.new) }
        ensures faulty { (fault : Malformed) → result ≡ Err fault →
            fault ≡ Malformed.BadNumber self.old.line self.old.taken }
    {
        let (line, word) = (self.line, self.taken);
        self.next()
            .and_then(|word| parse_number(word.text))
            .ok_or(Malformed::BadNumber { line, word })
    }

    /// Ends the line here. A word that is left is unknown.
    pub(crate) fn stop(mut self) -> Result<(), Malformed>
        ensures over { IsOk result ↔ (words_left self.entry ≡ []) }
        ensures faulty { (fault : Malformed) → result ≡ Err fault →
            fault ≡ Malformed.UnknownWord self.entry.line self.entry.taken }
    {
        match self.next() {
            None => Ok(()),
            Some(word) => Err(word.unknown()),
        }
    }

    /// Ends the line after its last call. A word that is left follows that call.
    pub(crate) fn end(mut self) -> Result<(), Malformed>
        ensures over { IsOk result ↔ (words_left self.entry ≡ []) }
        ensures faulty { (fault : Malformed) → result ≡ Err fault →
            HasLineFault IsOver self.entry fault }
    {
        match self.next() {
            None => Ok(()),
            Some(word) => Err(word.follows_last_call()),
        }
    }
}

impl<'a> Iterator for Words<'a> {
    ghost use Rattle.oneshot_text.specs.Words.{TakesFirst};

    type Item = Word<'a>;

    ghost next_gives = { TakesFirst };

    fn next(&mut self) -> Option<Word<'a>> {
        let (text, rest) = cut_word(self.rest?);
        let number = self.taken;
        self.taken += 1;
        self.rest = rest;
        Some(Word {
            line: self.line,
            number,
            text,
        })
    }
}

/// The first word of a text, and what follows the space after it.
fn cut_word(text: &str) -> (&str, Option<&str>)
    ensures { words_of text.now ≡ result.0.now ∷ words_in result.1 }
{
    match text.split_once(' ') {
        Some((first, rest)) => (first, Some(rest)),
        None => (text, None),
    }
}
