//! Tests of texts that are drawn and damaged.

use crate::answers::damaged::assert_as_read;
use crate::answers::damaged::damage::damaged;
use crate::answers::damaged::draws::Draws;
use crate::answers::damaged::reading::Kind;
use oneshot_asserts::{Asserts, assert_that};
use std::alloc::{AllocError, AllocGlobal, Global};
use std::ops::RangeInclusive;

/// Texts that ask for a run. Together they have each word of the grammar.
const TEXTS: [&str; 8] = [
    "S\nR\nX sss\n",
    "S send 7\nR try drop\nX ssrrrrr\n",
    "S closed send 0 inner into\nR full closed drop\nX srsrrsssss\n",
    "S send 18446744073709551615 inner inner drop\nR ref recv\nX rrrsssrrsrrrrs",
    "S drop\nR deadline timeout forever\nX srrrorr\n",
    "S closed closed\nR try ref deadline\nX\n",
    "S send 7\nR future poll 1 drop\nX rrrrrssrrssrrrrs\n",
    "S closed drop\nR try future full closed poll 0 try poll 18446744073709551615\nX rrnrsss",
];

/// How many texts a test draws.
const DRAWN: usize = 10_000;

/// How often each kind of result must be among them.
const OFTEN: usize = 100;

/// Draws a text that asks for a run, with one to three damages.
fn drawn(alloc: Global, draws: &mut Draws) -> Result<Vec<u8>, AllocError> {
    let mut text = Vec::from_slice(alloc, draws.one_of(&TEXTS).as_bytes())?;
    for _ in 0..=draws.below(3) {
        text = damaged(alloc, &text, draws)?;
    }
    Ok(text)
}

/// Draws this many texts from `seed`, and asserts that the program agrees with the second reading on each, and that
/// each kind of result came often.
fn assert_drawn(rt: &(impl Asserts + AllocGlobal), seed: u64, texts: usize) {
    let mut draws = Draws::new(seed);
    let mut kinds = Vec::new(rt.alloc());
    for _ in 0..texts {
        let kind = drawn_kind(rt, &mut draws);
        kinds.push(kind).expect(rt, "memory");
    }
    assert_each_came_often(rt, seed, &kinds);
}

/// Draws a text, and returns its kind of result, in which the program agrees with the second reading.
fn drawn_kind(rt: &(impl Asserts + AllocGlobal), draws: &mut Draws) -> Kind {
    let text = drawn(rt.alloc(), draws).expect(rt, "memory");
    assert_as_read(rt, &text)
}

fn assert_each_came_often(rt: &impl Asserts, seed: u64, kinds: &[Kind]) {
    for &kind in Kind::ALL {
        let count = count_of(kinds, kind);
        assert_that!(rt; count >= OFTEN, (seed, kind, count));
    }
}

fn count_of(kinds: &[Kind], wanted: Kind) -> usize {
    let mut count = 0usize;
    for kind in kinds {
        if *kind == wanted {
            count = count.saturating_add(1);
        }
    }
    count
}

fn assert_each_drawn(rt: &(impl Asserts + AllocGlobal), seeds: RangeInclusive<u64>) {
    for seed in seeds {
        assert_drawn(rt, seed, DRAWN);
    }
}

// A test has 60 seconds, also where `rt try` runs it.
#[test]
fn texts_drawn_from_seeds_one_to_three(rt: HostRuntime) {
    assert_each_drawn(&rt, 1..=3);
}

#[test]
fn texts_drawn_from_seeds_four_to_six(rt: HostRuntime) {
    assert_each_drawn(&rt, 4..=6);
}

#[test]
fn texts_drawn_from_seeds_seven_and_eight(rt: HostRuntime) {
    assert_each_drawn(&rt, 7..=8);
}

#[test]
fn texts_drawn_from_seeds_nine_and_ten(rt: HostRuntime) {
    assert_each_drawn(&rt, 9..=10);
}

#[test]
#[should_panic(expected = "(1, Trace, 0)")]
fn a_kind_that_does_not_come_ends_a_test(rt: HostRuntime) {
    assert_drawn(&rt, 1, 0);
}
