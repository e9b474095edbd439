//! The kinds of damage to a text.

ghost use Rattle.std.specs.Prelude.{◌<◌, length};

use crate::answers::damaged::draws::Draws;
use crate::answers::damaged::pieces::{Piece, change_end, cut, exchange, join, put};
use std::alloc::{AllocError, Global};

/// A kind of damage. Its place is drawn.
#[derive(Clone, Copy)]
pub(super) enum Damage {
    Byte(ByteDamage),
    Line(LineDamage),
    Word(WordDamage),
}

/// A damage to a byte.
#[derive(Clone, Copy)]
pub(super) enum ByteDamage {
    /// It becomes a byte of at most 127.
    Changed,
    /// It becomes a byte above 127.
    Above127,
    Cut,
    Doubled,
    /// All bytes before it are cut off.
    FrontCut,
    /// Only the bytes before it are left.
    FrontLeft,
}

/// A damage to a line.
#[derive(Clone, Copy)]
pub(super) enum LineDamage {
    /// Two lines change places.
    Exchanged,
    /// A line is inserted again.
    Put,
    /// It ends in `\r\n` or `\r`.
    Ended,
}

/// A damage to a word.
#[derive(Clone, Copy)]
pub(super) enum WordDamage {
    /// Two words change places.
    Exchanged,
    /// A word of the grammar is inserted.
    Put,
    /// Each number, and each empty word, becomes one of `NUMBERS`.
    Number,
    /// A tab follows it, in place of a space.
    Tabbed,
    /// Two spaces follow it.
    Spaced,
}

/// The damages that may be drawn.
const DAMAGES: [Damage; 14] = [
    Damage::Byte(ByteDamage::Changed),
    Damage::Byte(ByteDamage::Above127),
    Damage::Byte(ByteDamage::Cut),
    Damage::Byte(ByteDamage::Doubled),
    Damage::Byte(ByteDamage::FrontCut),
    Damage::Byte(ByteDamage::FrontLeft),
    Damage::Line(LineDamage::Exchanged),
    Damage::Line(LineDamage::Put),
    Damage::Line(LineDamage::Ended),
    Damage::Word(WordDamage::Exchanged),
    Damage::Word(WordDamage::Put),
    Damage::Word(WordDamage::Number),
    Damage::Word(WordDamage::Tabbed),
    Damage::Word(WordDamage::Spaced),
];

/// The words of the grammar.
const WORDS: [&str; 21] = [
    "S", "R", "X", "closed", "drop", "send", "inner", "into", "try", "ref", "deadline", "timeout",
    "forever", "full", "recv", "future", "poll", "7", "srr", "o", "n",
];

/// The smallest and the largest number, and words that are not numbers.
const NUMBERS: [&str; 12] = [
    "0",
    "18446744073709551615",
    "18446744073709551616",
    "18446744073709551620",
    "28446744073709551615",
    "99999999999999999999",
    "100000000000000000000",
    "018446744073709551615",
    "00",
    "07",
    "+7",
    "-7",
];

/// What a damaged line may end in.
const LINE_ENDS: [&str; 2] = ["\r\n", "\r"];

/// Returns the text with a drawn damage.
pub(super) fn damaged(
    alloc: Global,
    text: &[u8],
    draws: &mut Draws,
) -> Result<Vec<u8>, AllocError> {
    match draws.one_of(&DAMAGES) {
        Damage::Byte(damage) => damaged_at_byte(alloc, text, damage, draws),
        Damage::Line(damage) => damaged_at_line(alloc, text, damage, draws),
        Damage::Word(damage) => damaged_at_word(alloc, text, damage, draws),
    }
}

fn damaged_at_byte(
    alloc: Global,
    text: &[u8],
    damage: ByteDamage,
    draws: &mut Draws,
) -> Result<Vec<u8>, AllocError> {
    let at = draws.below(text.len());
    let (front, rest) = text.split_at_checked(at).unwrap_or((text, b""));
    let (byte, after) = rest.split_at_checked(1).unwrap_or((rest, b""));
    let other = draws.below(128) as u8;
    match damage {
        ByteDamage::Changed => [front, &[other], after].concat(alloc),
        ByteDamage::Above127 => [front, &[128 | other], after].concat(alloc),
        ByteDamage::Cut => [front, after].concat(alloc),
        ByteDamage::Doubled => [front, byte, byte, after].concat(alloc),
        ByteDamage::FrontCut => Vec::from_slice(alloc, rest),
        ByteDamage::FrontLeft => Vec::from_slice(alloc, front),
    }
}

fn damaged_at_line(
    alloc: Global,
    text: &[u8],
    damage: LineDamage,
    draws: &mut Draws,
) -> Result<Vec<u8>, AllocError> {
    let mut lines = cut(alloc, text, b"\n")?;
    damage_lines(&mut lines, damage, draws)?;
    join(alloc, &lines)
}

fn damage_lines<'a>(
    lines: &mut Vec<Piece<'a>>,
    damage: LineDamage,
    draws: &mut Draws,
) -> Result<(), AllocError> {
    match damage {
        LineDamage::Exchanged => exchange(lines, draws),
        LineDamage::Put => {
            let drawn = draws.below(lines.len());
            if let Some(line) = lines.get(drawn).copied() {
                put(lines, draws, line.body, b"\n")?;
            }
        }
        LineDamage::Ended => {
            let end = word_of(&LINE_ENDS, draws);
            change_end(lines, draws, b"\n", end);
        }
    }
    Ok(())
}

fn damaged_at_word(
    alloc: Global,
    text: &[u8],
    damage: WordDamage,
    draws: &mut Draws,
) -> Result<Vec<u8>, AllocError> {
    let mut words = cut(alloc, text, b" \n")?;
    damage_words(&mut words, damage, draws)?;
    join(alloc, &words)
}

fn damage_words<'a>(
    words: &mut Vec<Piece<'a>>,
    damage: WordDamage,
    draws: &mut Draws,
) -> Result<(), AllocError> {
    match damage {
        WordDamage::Exchanged => exchange(words, draws),
        WordDamage::Put => {
            let word = word_of(&WORDS, draws);
            put(words, draws, word, b" ")?;
        }
        WordDamage::Number => {
            let number = word_of(&NUMBERS, draws);
            change_numbers(words, number);
        }
        WordDamage::Tabbed => change_end(words, draws, b" ", b"\t"),
        WordDamage::Spaced => change_end(words, draws, b" ", b"  "),
    }
    Ok(())
}

/// Draws one of `words`.
fn word_of(words: &[&'static str], draws: &mut Draws) -> &'static [u8]
    requires { 0 < length words.now }
{
    draws.one_of(words).as_bytes()
}

/// Replaces each word of digits, and each empty word, with `number`.
fn change_numbers<'a>(words: &mut [Piece<'a>], number: &'a [u8]) {
    for word in words.iter_mut() {
        if word.body.iter().all(|byte| byte.is_ascii_digit()) {
            word.body = number;
        }
    }
}
