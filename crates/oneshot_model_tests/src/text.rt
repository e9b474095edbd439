//! Tests of texts with a fault, and of the lines of entries.

mod entries;
mod faults;
mod fronts;
mod order;

use crate::answers::{damaged, output_of, status_and_text};
use oneshot_asserts::{Asserts, assert_same};
use oneshot_text::parse_request;
use std::alloc::AllocGlobal;

/// A text and its fault.
type Case = (&'static str, &'static str);

/// Fails unless `parse_request` returns each text's fault, the program reports it, and the second reading finds it.
fn assert_faults(rt: &(impl Asserts + AllocGlobal), cases: &[Case]) {
    for case in cases {
        let input = case.0.as_bytes();
        assert_fault(rt, case, &returned_fault(rt, case.0), &output_of(rt, input));
        // The kind is ignored: the text of the fault, compared above, shows it.
        let _ = damaged::assert_as_read(rt, input);
    }
}

/// Returns the fault that `parse_request` returns. Fails if the text asks for a run.
fn returned_fault(rt: &(impl Asserts + AllocGlobal), text: &str) -> String {
    match parse_request(rt.alloc(), text) {
        Ok(_) => panic!(rt; "{text:?} asks for a run"),
        Err(fault) => fault.to_string(rt.alloc()).expect(rt, "memory"),
    }
}

/// Fails unless `returned` is the text's fault, and `reported` is that with the program's status.
fn assert_fault(
    rt: &(impl Asserts + AllocGlobal),
    (text, fault): &Case,
    returned: &str,
    reported: &str,
) {
    let line = status_and_text(rt, 2, fault);
    assert_same!(rt; (*text, returned, reported), (*text, *fault, line.as_str()));
}

#[test]
#[should_panic(expected = "left: (\"S\\nR\", \"line 3 is missing\"")]
fn another_fault_ends_a_test(rt: HostRuntime) {
    assert_faults(&rt, &[("S\nR", "line 2 is missing")]);
}

#[test]
#[should_panic(expected = "\"3 line 3 is missing\"")]
fn another_status_ends_a_test(rt: HostRuntime) {
    let case = ("S\nR", "line 3 is missing");
    assert_fault(&rt, &case, case.1, "3 line 3 is missing");
}

#[test]
#[should_panic(expected = "\"S\\nR\\nX\" asks for a run")]
fn a_text_without_a_fault_ends_a_test(rt: HostRuntime) {
    assert_faults(&rt, &[("S\nR\nX", "line 3 is missing")]);
}
