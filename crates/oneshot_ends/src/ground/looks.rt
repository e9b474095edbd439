//! The looks of the grounds: each performs one load, without a seat.

use super::{ReceiverBackend, Unsent};
use oneshot_machine::states::{DISCONNECTED, MESSAGE};
use oneshot_word::{Peek, Promise};

// The looks of the ends call these. Another file has to import `Peek` to perform such a load.
impl<T, H, K, P: Promise<T>> Unsent<T, H, K, P> {
    pub(crate) fn is_closed(&self) -> bool {
        self.side.peek() == DISCONNECTED
    }
}

impl<T, H, K, P: Promise<T>> ReceiverBackend<T, H, K, P> {
    pub(crate) fn is_closed(&self) -> bool {
        self.side.peek() == DISCONNECTED
    }

    pub(crate) fn has_message(&self) -> bool {
        self.side.peek() == MESSAGE
    }
}
