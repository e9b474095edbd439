//! Reads a script: the words of one end's calls, in their order.

use crate::words::Word;
use std::alloc::{AllocError, Global};

/// Why a text cannot be read.
#[derive(Clone, Copy, Debug, PartialEq, Eq)]
pub enum Fault<'a> {
    /// There is no such word or line.
    Unknown(&'a str),
    /// Out of memory.
    OutOfMemory,
}

impl From<AllocError> for Fault<'_> {
    fn from(_: AllocError) -> Self {
        Fault::OutOfMemory
    }
}

/// Returns the calls of a script, such as `closed send inner into` of a sender, or `try future poll1 drop` of a
/// receiver.
pub fn script<C: Word + Drop>(alloc: Global, text: &str) -> Result<Vec<C>, Fault<'_>> {
    let mut calls = Vec::new(alloc);
    for word in text.split_whitespace() {
        let call = C::of_word(word).ok_or(Fault::Unknown(word))?;
        calls.push(call).map_err(AllocError::from)?;
    }
    Ok(calls)
}
