//! A message that counts its drops.

use oneshot_calls::Numbered;
use std::sync::atomic::{AtomicU64, Ordering};

/// How many of the messages that it made were dropped.
#[derive(Drop)]
pub(super) struct Drops(AtomicU64);

/// A value whose drop is counted.
pub(super) struct Counted<'a, T> {
    pub(super) value: T,
    drops: &'a Drops,
}

impl Drops {
    pub(super) fn new() -> Drops {
        Drops(AtomicU64::new(0))
    }

    /// Returns a message whose drop is counted here.
    pub(super) fn message<T>(&self, value: T) -> Counted<'_, T> {
        Counted { value, drops: self }
    }

    /// How many drops there were.
    pub(super) fn count(&self) -> u64 {
        self.0.load(Ordering::SeqCst)
    }
}

impl<T: Drop> Drop for Counted<'_, T> {
    fn drop(self) {
        let Counted { value: _, drops } = self;
        drops.0.fetch_add(1, Ordering::SeqCst);
    }
}

impl<T: Numbered> Numbered for Counted<'_, T> {
    fn number(&self) -> u64 {
        self.value.number()
    }
}
