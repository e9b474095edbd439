//! Tests of writers that fail, are interrupted, or take few bytes at a time.

use super::{FAILURES, Failures, INTERRUPTS, Reader, Writer, assert_whole, ending};
use crate::answers::{SENT, SENT_TRACE, idle};
use oneshot_asserts::{Asserts, assert_same};
use oneshot_streams::answer::answer;
use std::io::ErrorKind;

/// As `SENT`, with the largest message. The line that shows this message has more than 64 bytes, so it does not
/// wait with others.
const LONG: &str = "S send 18446744073709551615\nR try drop\nX ssrrrrr\n";

/// The output for `LONG`.
const LONG_TRACE: &str = "1 S write-message 3>3 m:NotSent>InCell
2 S add 3>4 = Ok
3 R load 4>4
4 R store 4>2
5 R take-message 2>2 m:InCell>Delivered = Ok(18446744073709551615)
6 R swap 2>2
7 R free 2>- = dropped
rest Delivered(18446744073709551615)
block freed
";

/// Inputs and their traces.
const TRACES: &[(&str, &str); 2] = &[(SENT, SENT_TRACE), (LONG, LONG_TRACE)];

#[test]
fn short_reads_and_writes_move_all(rt: HostRuntime) {
    for &(input, trace) in TRACES {
        assert_moved(&rt, input, trace);
    }
}

/// Asserts that the input and its trace are moved a byte at a time.
fn assert_moved(rt: &(impl Asserts + AllocGlobal), input: &'static str, trace: &str) {
    let mut writer = Writer::new(rt.alloc(), 1, Failures::none());
    let mut reader = Reader::new(input, Failures::none());
    let ended = ending(rt, &mut reader, &mut writer);
    assert_whole(rt, (input, 0, 0), &ended, &writer.written, trace);
}

#[test]
fn a_failed_write_ends_the_output(rt: HostRuntime) {
    for &(input, trace) in TRACES {
        // The call after the last byte is the flush.
        for before in 0..=trace.len() {
            for &kind in FAILURES {
                assert_ends(&rt, (input, trace), before, kind);
            }
        }
    }
}

/// Asserts that a write that fails after this many others is the writer's last call.
fn assert_ends(
    rt: &(impl Asserts + AllocGlobal),
    (input, trace): (&str, &str),
    before: usize,
    kind: ErrorKind,
) {
    let mut writer = Writer::new(rt.alloc(), 1, Failures::of(before, 1, kind));
    let ended = ending(rt, &mut input.as_bytes(), &mut writer);
    let case = (input, kind, before);
    assert_cut(rt, case, &ended, &writer, trace);
    assert_same!(rt; (case, writer.written.len()), (case, before));
}

/// Fails unless the write that failed was the writer's last call, and what was written is a front of the trace.
fn assert_cut(
    rt: &impl Asserts,
    case: (&str, ErrorKind, usize),
    ended: &str,
    writer: &Writer,
    trace: &str,
) {
    let case = (case, writer.written.len());
    let begun = trace.as_bytes().starts_with(&writer.written);
    assert_same!(rt;
        (case, ended, begun, writer.failures.after),
        (case, "1 write failed\n", true, 0)
    );
}

#[test]
fn an_interrupted_write_is_made_again(rt: HostRuntime) {
    for &(input, trace) in TRACES {
        for before in 0..trace.len() {
            for count in [1, 2, 3, 4, INTERRUPTS] {
                assert_made_again(&rt, (input, trace), before, count);
            }
        }
    }
}

/// Asserts that all is written where this many interrupts follow this many writes.
fn assert_made_again(
    rt: &(impl Asserts + AllocGlobal),
    (input, trace): (&str, &str),
    before: usize,
    count: usize,
) {
    let interrupts = Failures::of(before, count, ErrorKind::Interrupted);
    let mut writer = Writer::new(rt.alloc(), 1, interrupts);
    let ended = ending(rt, &mut input.as_bytes(), &mut writer);
    let case = (input, count, before);
    assert_whole(rt, case, &ended, &writer.written, trace);
}

#[test]
fn a_long_output_ends_where_a_write_fails(rt: HostRuntime) {
    let (input, output) = idle(&rt, 3000);
    for before in 0..100usize {
        if assert_cut_or_whole(&rt, &input, &output, before) {
            return;
        }
    }
    panic!(rt; "100 calls were too few")
}

/// Asserts that the output ends at a write that fails after this many others, unless it is whole, because that write
/// was not made. Returns whether it is whole.
fn assert_cut_or_whole(
    rt: &(impl Asserts + AllocGlobal),
    input: &str,
    output: &str,
    before: usize,
) -> bool {
    let kind = ErrorKind::StorageFull;
    let mut writer = Writer::new(rt.alloc(), 1000, Failures::of(before, 1, kind));
    let ended = ending(rt, &mut input.as_bytes(), &mut writer);
    if ended.as_str() == "0 " {
        // The call that fails would be one after the last.
        let written = writer.written.as_slice();
        assert_same!(rt; (writer.failures.count, written), (1, output.as_bytes()));
        return true;
    }
    let case = ("a long input", kind, before);
    assert_cut(rt, case, &ended, &writer, output);
    false
}

#[test]
fn a_writer_that_takes_nothing_has_failed(rt: HostRuntime) {
    let mut writer = Writer::new(rt.alloc(), 0, Failures::none());
    let ended = ending(&rt, &mut SENT.as_bytes(), &mut writer);
    assert_same!(rt; ended.as_str(), "1 write failed\n");
}

#[test]
fn where_a_fault_cannot_be_told_the_status_tells(rt: HostRuntime) {
    let broken = Failures::of(0, 1, ErrorKind::BrokenPipe);
    let mut errors = Writer::new(rt.alloc(), 100, broken);
    let mut written = Vec::new(rt.alloc());
    let status = answer(rt.alloc(), &mut &b"Q"[..], &mut written, &mut errors);
    assert_same!(rt;
        (status, written.is_empty(), errors.written.is_empty()),
        (2, true, true)
    );
}
