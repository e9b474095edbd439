//! Parses the schedule: a letter for each move.

ghost use Rattle.std.specs.Prelude.{◌≡◌, ◌↔◌, ◌<◌, List, Some, Err, IfOk, MatchResult, length, map, vec_len, alloc_error};
ghost use Rattle.oneshot_replay.specs.declared.Move.{Move};
ghost use Rattle.oneshot_text.specs.Grammar.{AsksForMoves};
ghost use Rattle.oneshot_text.specs.Schedule.{letter_of, words_of_schedule};
ghost use Rattle.oneshot_text.specs.Words.{words_left, HasLineFault};
ghost use Rattle.oneshot_text.specs.declared.fault.Malformed.{Malformed};

use crate::fault::ParseError;
use crate::words::{Word, Words};
use oneshot_replay::Move;
use std::alloc::Global;

/// Parses the moves from the words of the schedule's line.
pub(crate) fn parse_schedule(alloc: Global, mut words: Words<'_>) -> Result<Vec<Move>, ParseError>
    ensures written { IfOk result (λ moves.
        map (map Some) (words_left words.entry) ≡ words_of_schedule moves.items) }
    ensures each { (moves : List Move) →
        map (map Some) (words_left words.entry) ≡ words_of_schedule moves →
        MatchResult result (λ read. read.items ≡ moves) (λ error. error ≡ ParseError.OutOfMemory alloc_error) }
    ensures faulty { (fault : Malformed) → result ≡ Err (ParseError.Malformed fault) →
        HasLineFault AsksForMoves words.entry fault }
{
    let Some(letters) = words.next() else {
        return Ok(Vec::new(alloc));
    };
    let moves = parse_moves(alloc, letters)?;
    words.end()?;
    Ok(moves)
}

/// The moves that the letters ask for, in their order.
fn parse_moves(alloc: Global, letters: Word<'_>) -> Result<Vec<Move>, ParseError>
    ensures some { IfOk result (λ moves. 0 < vec_len moves) }
    ensures written { IfOk result (λ moves. map letter_of moves.items ≡ map Some letters.entry.text.now) }
    ensures each { (moves : List Move) → 0 < length moves →
        map letter_of moves ≡ map Some letters.entry.text.now →
        MatchResult result (λ read. read.items ≡ moves) (λ error. error ≡ ParseError.OutOfMemory alloc_error) }
    ensures faulty { (fault : Malformed) → result ≡ Err (ParseError.Malformed fault) →
        fault ≡ Malformed.UnknownWord letters.entry.line letters.entry.number }
{
    if letters.text.is_empty() {
        return Err(ParseError::Malformed(letters.unknown()));
    }
    let mut moves = Vec::with_capacity(alloc, letters.text.len())?;
    for letter in letters.text.as_bytes() {
        moves.push(move_of(*letter).ok_or(letters.unknown())?)?;
    }
    Ok(moves)
}

/// The move that a letter asks for.
fn move_of(letter: u8) -> Option<Move>
    ensures { (m : Move) → (result ≡ Some m) ↔ (letter_of m ≡ Some letter) }
{
    let (over, refuse) = match letter {
        b's' => return Some(Move::Sender),
        b'r' => (false, false),
        b'o' => (true, false),
        b'n' => (false, true),
        _ => return None,
    };
    Some(Move::Receiver { over, refuse })
}
