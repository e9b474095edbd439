//! The trait of answers: an answer names its question, and its type guarantees that it is right for it.

ghost use Rattle.std.specs.Prelude.{◌≡◌};

/// An answer to a question of type `Q`. It names its question.
///
/// An `impl` states how the rest of an answer relates to that question, and proves from the type's
/// invariant that every value of the type satisfies this.
pub trait Answer<Q> {
    // `asked answer`: the question that `answer` names. `question` returns it.
    ghost asked: { Self → Q };

    // `answers question answer`: the rest of `answer` is right for `question`.
    ghost answers: { Q → Self → Type 0 };

    /// Returns the question that this answer names.
    fn question(&self) -> &Q
        ensures { result.now ≡ asked self.now };

    // Every value of the type is right for the question that it names.
    ghost is_right: { (answer : Self) → answers (asked answer) answer };
}
