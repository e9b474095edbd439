//! An answer type: the length of a text, as the answer to that text.

ghost use Rattle.std.specs.Prelude.{◌≡◌, string_len};

use crate::answer::Answer;

/// The number of bytes of a text, as the answer to that text. The type guarantees that it is right.
#[derive(Drop)]
pub struct Length {
    /// The text, which is the question.
    pub question: String,
    /// The number of its bytes in UTF-8.
    pub bytes: usize,
    ghost counted: { bytes ≡ string_len question },
}

impl Length {
    /// Counts the bytes of `question`. The result has that text as its question.
    pub fn of(question: String) -> Length
        ensures { result.question ≡ question }
    {
        let bytes = question.len();
        Length { question, bytes }
    }

    /// The number of the question's bytes in UTF-8.
    pub fn bytes(&self) -> usize
        ensures { result ≡ string_len self.now.question }
    {
        self.bytes
    }
}

impl Answer<String> for Length {
    ghost use Rattle.std.specs.Prelude.{◌≡◌, string_len};

    ghost asked = { λ length. length.question };

    ghost answers = { λ question length. length.bytes ≡ string_len question };

    ghost is_right = { λ length. length.counted };

    fn question(&self) -> &String {
        &self.question
    }
}
