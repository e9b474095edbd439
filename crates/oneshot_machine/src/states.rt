//! The codes of the shared word, and the operations on it.
//!
//! A code means something else where an end writes after the other has finished, or is about to. docs/PROTOCOL.md lists
//! these words.

ghost use Rattle.std.specs.Prelude.{◌≡◌, ◌≤◌};
ghost use Rattle.oneshot_machine.specs.States.{word_after};

/// A waker is in its slot, and the receiver waits.
pub const RECEIVING: u8 = 0;

/// The sender owns the waker's slot and is about to finish.
pub const UNPARKING: u8 = 1;

/// An end is gone, or the message was received.
pub const DISCONNECTED: u8 = 2;

/// Both ends are alive, nothing was sent, no waker is stored. A new channel has this word.
pub const EMPTY: u8 = 3;

/// The message is in its slot, ready to be taken.
pub const MESSAGE: u8 = 4;

/// One atomic operation on the word, of six kinds.
#[derive(Clone, Copy, Debug, Eq, PartialEq)]
pub enum Op {
    /// Reads the word.
    Load,
    /// Writes this word.
    Store(u8),
    /// Writes this word, and sees the word before.
    Swap(u8),
    /// Replaces the first word by the second, and leaves any other word.
    Exchange(u8, u8),
    /// Adds one.
    Add,
    /// Xors the word with one.
    Xor,
}

impl Op {
    /// Returns the word after this operation on `word`, which is one of the codes, 0 to 4.
    /// For an `Add` or a `Xor` of 4 that is 5, which is no code. No end performs these.
    pub fn after(&self, word: u8) -> u8
        requires { word ≤ 4 }
        ensures { result ≡ word_after self.now word }
    {
        match self {
            Op::Load => word,
            Op::Store(new) | Op::Swap(new) => *new,
            Op::Exchange(expected, new) => { if word == *expected { *new } else { word } }
            Op::Add => word + 1,
            Op::Xor => word ^ 1,
        }
    }
}
