//! What the ends of a channel return, and how often.

use oneshot_asserts::{Asserts, assert_that};
use oneshot_calls::shows;
use std::fmt::{Debug, Display};

/// What one side of a round returned.
#[derive(Drop)]
pub(super) struct Outcome<A> {
    pub(super) answer: A,
    /// Whether the other side's call was over before this one's began.
    pub(super) late: bool,
}

/// In how many of these rounds each answer that may come has to come, and each order: in a hundredth.
fn often<A>(outcomes: &[Outcome<A>]) -> usize {
    (outcomes.len() / 100).max(1)
}

/// Whether `answer` is one of `answers`.
fn may_come<A: Display>(answer: &A, answers: &[&str]) -> bool {
    for text in answers {
        if shows(answer, *text) {
            return true;
        }
    }
    false
}

/// How often the answer `text` came.
fn count_of<A: Display>(outcomes: &[Outcome<A>], text: &str) -> usize {
    let mut count = 0usize;
    for outcome in outcomes {
        if shows(&outcome.answer, text) {
            count = count.saturating_add(1);
        }
    }
    count
}

/// Fails unless each of `answers` came often, and no other came. `about` names the rounds.
pub(super) fn assert_answers<D: Copy + Debug, A: Display + Debug>(
    rt: &impl Asserts,
    about: D,
    outcomes: &[Outcome<A>],
    answers: &[&str],
) {
    for outcome in outcomes {
        let answer = &outcome.answer;
        assert_that!(rt; may_come(answer, answers), (about, answer, "came"));
    }
    for text in answers {
        let count = count_of(outcomes, *text);
        assert_that!(rt; count >= often(outcomes), (about, *text, count));
    }
}

/// How often a side began after the other's call was over.
fn count_late<A>(outcomes: &[Outcome<A>]) -> usize {
    let mut count = 0usize;
    for outcome in outcomes {
        if outcome.late {
            count = count.saturating_add(1);
        }
    }
    count
}

/// Fails unless a side often began after the other's call was over, and often before. `about` names the rounds.
pub(super) fn assert_both_orders<D: Copy + Debug, A>(
    rt: &impl Asserts,
    about: D,
    outcomes: &[Outcome<A>],
) {
    let late = count_late(outcomes);
    let early = outcomes.len().saturating_sub(late);
    let often = often(outcomes);
    assert_that!(rt; late >= often && early >= often, (about, late, early));
}

const EARLY: [Outcome<u8>; 1] = [Outcome {
    answer: 1,
    late: false,
}];

#[test]
#[should_panic(expected = "(\"recv\", 1, \"came\")")]
fn an_answer_that_may_not_come_ends_a_test(rt: HostRuntime) {
    assert_answers(&rt, "recv", &EARLY, &["2"]);
}

#[test]
#[should_panic(expected = "(\"recv\", \"2\", 0)")]
fn an_answer_that_does_not_come_ends_a_test(rt: HostRuntime) {
    assert_answers(&rt, "recv", &EARLY, &["1", "2"]);
}

#[test]
#[should_panic(expected = "(\"recv\", 0, 1)")]
fn one_order_ends_a_test(rt: HostRuntime) {
    assert_both_orders(&rt, "recv", &EARLY);
}
