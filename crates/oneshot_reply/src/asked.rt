//! The value that the channel of a request is about: the question.

ghost use Rattle.std.specs.Prelude.{◌≡◌, true};

use crate::answer::Answer;
use oneshot_ends::Promise;

/// The value that the channel of a request is about. Every reply names a question equal to `question`.
#[derive(Drop)]
pub struct Asked<Q> {
    /// The question that the request was made with.
    pub question: Q,
}

impl<Q: Eq, A: Answer<Q>> Promise<A> for Asked<Q> {
    ghost keeps = { λ asked reply. Q.eq (A.asked reply) asked.question ≡ true };
}
