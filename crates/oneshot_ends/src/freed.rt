//! Whether an end has made its step `free`, for the proofs alone.

ghost use Rattle.std.specs.Prelude.{◌≡◌, Bool};

use std::marker::Model;

/// Whether an end has made its step `free`, which frees nothing itself: the block is freed when the last of its two
/// shares is dropped. It has no bytes, and only proofs read it.
// In place of a `Snapshot<bool>`: callers' proofs find no lemma that a `Snapshot` may go to another thread.
#[derive(Drop)]
pub(crate) struct Freed {
    pub(crate) ghost value: { Bool },
}

impl Model for Freed {
    ghost use base.Fml.{ftrue};

    ghost also_owns = { λ _. ftrue };
}

// Proved in proofs/freed/Freed/TheSendSync.
unsafe impl Send for Freed {}

impl Freed {
    /// Records `freed` for proofs.
    pub(crate) fn of(freed: bool) -> Freed
        ensures { result.value ≡ freed }
    {
        // Only the ghost field has it.
        let _ = freed;
        Freed {}
    }
}
