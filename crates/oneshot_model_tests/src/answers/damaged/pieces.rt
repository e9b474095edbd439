//! A text in pieces: its words or lines, each with the bytes that end it.

use crate::answers::damaged::draws::Draws;
use std::alloc::{AllocError, Global};
use std::slice;

/// A piece of a text.
#[derive(Clone, Copy)]
pub(super) struct Piece<'a> {
    /// A word, or a line.
    pub(super) body: &'a [u8],
    /// What ends it: nothing, at the end of the text.
    pub(super) end: &'a [u8],
}

/// Cuts `text` after each byte that is in `ends`.
pub(super) fn cut<'a>(
    alloc: Global,
    text: &'a [u8],
    ends: &[u8],
) -> Result<Vec<Piece<'a>>, AllocError> {
    let mut pieces = Vec::new(alloc);
    for piece in text.split_inclusive(|byte| ends.contains(byte)) {
        pieces.push(split_end(piece, ends))?;
    }
    Ok(pieces)
}

fn split_end<'a>(piece: &'a [u8], ends: &[u8]) -> Piece<'a> {
    match piece.split_last() {
        Some((last, body)) if ends.contains(last) => Piece {
            body,
            end: slice::from_ref(last),
        },
        _ => Piece {
            body: piece,
            end: b"",
        },
    }
}

/// Returns the text of all pieces.
pub(super) fn join(alloc: Global, pieces: &[Piece<'_>]) -> Result<Vec<u8>, AllocError> {
    let mut text = Vec::new(alloc);
    for piece in pieces {
        text.extend_from_slice(piece.body)?;
        text.extend_from_slice(piece.end)?;
    }
    Ok(text)
}

/// Exchanges the bodies of two drawn pieces.
pub(super) fn exchange(pieces: &mut [Piece<'_>], draws: &mut Draws) {
    if pieces.is_empty() {
        return;
    }
    let first = draws.below(pieces.len());
    let second = draws.below(pieces.len());
    let (one, other) = (pieces[first], pieces[second]);
    pieces[first] = Piece {
        body: other.body,
        ..one
    };
    pieces[second] = Piece {
        body: one.body,
        ..other
    };
}

/// Inserts `body` after the body of a drawn piece, which `end` then ends.
pub(super) fn put<'a>(
    pieces: &mut Vec<Piece<'a>>,
    draws: &mut Draws,
    body: &'a [u8],
    end: &'a [u8],
) -> Result<(), AllocError> {
    if pieces.is_empty() {
        return Ok(());
    }
    let at = draws.below(pieces.len());
    let before = pieces[at];
    pieces[at] = Piece { body, ..before };
    pieces.insert(at, Piece { end, ..before })?;
    Ok(())
}

/// Replaces a drawn end that is `old` with `new`.
pub(super) fn change_end<'a>(
    pieces: &mut [Piece<'a>],
    draws: &mut Draws,
    old: &[u8],
    new: &'a [u8],
) {
    let mut before = draws.below(count_ends(pieces, old));
    for piece in pieces.iter_mut() {
        if piece.end == old {
            if before == 0 {
                piece.end = new;
                return;
            }
            before -= 1;
        }
    }
}

/// Counts the pieces that end in `end`.
fn count_ends(pieces: &[Piece<'_>], end: &[u8]) -> usize {
    let mut count = 0usize;
    for piece in pieces {
        if piece.end == end {
            count = count.saturating_add(1);
        }
    }
    count
}
