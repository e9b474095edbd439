//! A message that counts its drops.

use oneshot_asserts::{Asserts, assert_same};
use oneshot_calls::Numbered;
use std::fmt::Debug;
use std::sync::atomic::{AtomicU64, Ordering};

/// A message whose drop is counted.
pub(super) struct Counted<'a> {
    value: u64,
    drops: &'a AtomicU64,
}

impl<'a> Counted<'a> {
    /// Returns a message of 999, whose drop is counted in `drops`.
    pub(super) fn new(drops: &'a AtomicU64) -> Counted<'a> {
        Counted { value: 999, drops }
    }
}

impl Drop for Counted<'_> {
    fn drop(self) {
        let Counted { value: _, drops } = self;
        drops.fetch_add(1, Ordering::SeqCst);
    }
}

impl Numbered for Counted<'_> {
    fn number(&self) -> u64 {
        self.value
    }
}

/// How often the message of each round was dropped.
#[derive(Drop)]
pub(super) struct Drops(Vec<AtomicU64>);

impl Drops {
    /// Returns a count of 0 for the message of each round.
    pub(super) fn new(rt: &(impl AllocGlobal + Asserts), rounds: u64) -> Drops {
        let mut counts = Vec::new(rt.alloc());
        for _ in 0..rounds {
            counts.push(AtomicU64::new(0)).expect(rt, "memory");
        }
        Drops(counts)
    }

    /// The count of each round.
    pub(super) fn counts(&self) -> &[AtomicU64] {
        &self.0
    }

    /// Fails unless the message of each round was dropped once. `about` names the rounds.
    pub(super) fn assert_once<D: Copy + PartialEq + Debug>(&self, rt: &impl Asserts, about: D) {
        let mut round = 0u64;
        for drops in &self.0 {
            round = round.saturating_add(1);
            let count = drops.load(Ordering::SeqCst);
            assert_same!(rt; (about, round, count), (about, round, 1));
        }
    }
}

#[test]
#[should_panic(expected = "left: (\"recv\", 1, 0)")]
fn a_message_that_is_not_dropped_ends_a_test(rt: HostRuntime) {
    Drops::new(&rt, 1).assert_once(&rt, "recv");
}
