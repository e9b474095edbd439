//! Tests of the prefixes of an input that reach its schedule. `text/fronts.rt` has the shorter ones.

use crate::answers::damaged::assert_as_read;
use crate::answers::damaged::reading::Kind;
use crate::answers::{assert_trace, output_of};
use oneshot_asserts::{Asserts, assert_same};
use std::alloc::AllocGlobal;

/// The lines of both scripts, and the letter of the third line.
const LINES: &str = "S send 7\nR future poll 1 drop\nX";

const SCHEDULE: &str = "rrrrrssrrssrrrrs";

#[test]
fn each_front_of_a_schedule(rt: HostRuntime) {
    assert_traced(&rt, LINES, 0);
    assert_trace(&rt, LINES, "rest NotSent(7)\nblock here\n");
    for moves in 1..=SCHEDULE.len() {
        assert_traced(&rt, &front_of(&rt, moves), moves);
    }
    assert_end_changes_nothing(&rt, &front_of(&rt, SCHEDULE.len()));
}

/// Both scripts, and this many moves of the schedule.
fn front_of(rt: &(impl Asserts + AllocGlobal), moves: usize) -> String {
    let letters = SCHEDULE.get(..moves).expect(rt, "a schedule");
    format!(in rt.alloc(); "{LINES} {letters}").expect(rt, "memory")
}

/// Asserts that an input with the whole schedule has the same trace if its last line ends.
fn assert_end_changes_nothing(rt: &(impl Asserts + AllocGlobal), input: &str) {
    let ended = format!(in rt.alloc(); "{input}\n").expect(rt, "memory");
    assert_traced(rt, &ended, SCHEDULE.len());
    assert_trace(rt, &ended, &output_of(rt, input.as_bytes()));
}

/// Asserts a trace of so many entries, with which the second reading agrees.
fn assert_traced(rt: &(impl Asserts + AllocGlobal), input: &str, entries: usize) {
    let kind = assert_as_read(rt, input.as_bytes());
    let lines = output_of(rt, input.as_bytes()).lines().count();
    assert_same!(rt; (kind, lines), (Kind::Trace, entries.saturating_add(2)));
}

#[test]
#[should_panic(expected = "right: (Trace, 3)")]
fn a_trace_without_its_entry_ends_a_test(rt: HostRuntime) {
    assert_traced(&rt, LINES, 1);
}
