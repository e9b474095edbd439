//! The promise that the maker of a channel may require of its messages.

ghost use Rattle.std.specs.Prelude.{⊤};

/// A fact that every message of a channel keeps, about the message and one value of this type. The
/// maker of the channel supplies the value. For the proofs alone: a channel stores no byte of it.
pub trait Promise<T> {
    // Of the value that the channel is about, and a message.
    ghost keeps: { Self → T → Type 0 };
}

/// The empty promise.
impl<T> Promise<T> for () {
    ghost keeps = { λ _ _. ⊤ };
}
