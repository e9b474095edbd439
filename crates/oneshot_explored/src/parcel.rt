//! The message of every channel: a number in a block of its own, with the question that it answers, and where the
//! channel is nested the sender of another.

ghost use Rattle.std.specs.Prelude.{⊤};

use oneshot_calls::Numbered;
use oneshot_channel::Sender;
use oneshot_channel::reply::Answer;

/// What is asked of each request.
pub const QUESTION: u64 = 5;

/// A message.
#[derive(Drop)]
pub struct Parcel {
    question: u64,
    content: Box<u64>,
    _inner: Option<Sender<u64>>,
}

impl Parcel {
    /// A message with this number, and the sender of another channel if the channel is nested.
    pub fn new(content: Box<u64>, inner: Option<Sender<u64>>) -> Parcel {
        Parcel {
            question: QUESTION,
            content,
            _inner: inner,
        }
    }
}

/// The number in the block.
impl Numbered for Parcel {
    fn number(&self) -> u64 {
        *self.content
    }
}

impl Answer<u64> for Parcel {
    ghost use Rattle.std.specs.Prelude.{⊤};

    ghost asked = { λ parcel. parcel.question };

    ghost answers = { λ _ _. ⊤ };

    ghost is_right = { λ _. tt };

    fn question(&self) -> &u64 {
        &self.question
    }
}
