//! A runtime whose drop is counted.

use crate::outcome::{Wrong, ensure};
use std::sync::atomic::{AtomicU64, Ordering};

/// A runtime whose drop is counted.
pub(crate) struct Counted<'a, R> {
    _rt: &'a R,
    drops: &'a AtomicU64,
}

impl<'a, R> Drop for Counted<'a, R> {
    fn drop(self) {
        let Counted { _rt: _, drops } = self;
        drops.fetch_add(1, Ordering::SeqCst);
    }
}

impl<'a, R> Counted<'a, R> {
    pub(crate) fn new(rt: &'a R, drops: &'a AtomicU64) -> Counted<'a, R> {
        Counted { _rt: rt, drops }
    }
}

/// A refusal has to drop so many runtimes.
pub(crate) fn ensure_dropped(drops: &AtomicU64, count: u64) -> Result<(), Wrong> {
    ensure(drops.load(Ordering::SeqCst) == count, Wrong::RuntimeKept)
}
