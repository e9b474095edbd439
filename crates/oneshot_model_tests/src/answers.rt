//! Tests of what the program writes for an input, or of the fault that it reports.

pub(crate) mod damaged;
mod faults;
mod long;
mod overdue;
mod polls;
mod streams;
mod traces;

use oneshot_asserts::{Asserts, assert_same, assert_that};
use oneshot_streams::answer::answer;
use std::alloc::{AllocError, Global};

/// Returns the output for `input`, or the status and the one line of the fault. Fails if the program writes
/// both.
pub(crate) fn output_of(rt: &(impl Asserts + AllocGlobal), input: &[u8]) -> String {
    let mut input = input;
    let mut written = Vec::new(rt.alloc());
    let mut errors = Vec::new(rt.alloc());
    let status = answer(rt.alloc(), &mut input, &mut written, &mut errors);
    let errors = text_of(rt, errors);
    if status == 0 {
        assert_that!(rt; errors.is_empty(), (errors.as_str(), "beside the output"));
        return text_of(rt, written);
    }
    assert_that!(rt; written.is_empty(), ("output beside", errors.as_str()));
    let fault = errors.strip_suffix('\n').expect(rt, "a whole line");
    status_and_text(rt, status, fault)
}

fn text_of(rt: &impl Asserts, bytes: Vec<u8>) -> String {
    String::from_utf8(bytes).ok().expect(rt, "text")
}

pub(crate) fn status_and_text(rt: &(impl Asserts + AllocGlobal), status: u8, text: &str) -> String {
    format!(in rt.alloc(); "{status} {text}").expect(rt, "memory")
}

/// Fails unless this input has this output.
fn assert_trace(rt: &(impl Asserts + AllocGlobal), input: &str, output: &str) {
    let told = output_of(rt, input.as_bytes());
    assert_same!(rt; (input, told.as_str()), (input, output));
}

/// Fails unless each input has its output.
fn assert_traces(rt: &(impl Asserts + AllocGlobal), cases: &[(&str, &str)]) {
    for (input, output) in cases {
        assert_trace(rt, input, output);
    }
}

/// Sends and receives a message, then drops the receiver.
const SENT: &str = "S send 7\nR try drop\nX ssrrrrr\n";

/// The output for `SENT`: a line for each entry, then the end.
const SENT_TRACE: &str = "1 S write-message 3>3 m:NotSent>InCell
2 S add 3>4 = Ok
3 R load 4>4
4 R store 4>2
5 R take-message 2>2 m:InCell>Delivered = Ok(7)
6 R swap 2>2
7 R free 2>- = dropped
rest Delivered(7)
block freed
";

/// Returns an input of `moves` moves of a sender without a call, and its output.
fn idle(rt: &(impl Asserts + AllocGlobal), moves: usize) -> (String, String) {
    let input = idle_input(rt.alloc(), moves).expect(rt, "memory");
    let output = idle_output(rt.alloc(), moves).expect(rt, "memory");
    (input, output)
}

fn idle_input(alloc: Global, moves: usize) -> Result<String, AllocError> {
    let letters = "s".repeat(alloc, moves)?;
    format!(in alloc; "S\nR\nX {letters}")
}

fn idle_output(alloc: Global, moves: usize) -> Result<String, AllocError> {
    let mut output = String::new(alloc);
    for number in 1..=moves {
        writeln!(output, "{number} S idle")?;
    }
    output.push_str("rest none\nblock here\n")?;
    Ok(output)
}

/// Returns an input of `calls` receives that find nothing and of `moves` moves, and its output.
fn receives(rt: &(impl Asserts + AllocGlobal), calls: usize, moves: usize) -> (String, String) {
    let input = receives_input(rt.alloc(), calls, moves).expect(rt, "memory");
    let output = receives_output(rt.alloc(), calls, moves).expect(rt, "memory");
    (input, output)
}

fn receives_input(alloc: Global, calls: usize, moves: usize) -> Result<String, AllocError> {
    let tries = " try".repeat(alloc, calls)?;
    let letters = "r".repeat(alloc, moves)?;
    format!(in alloc; "S send 7\nR{tries}\nX {letters}")
}

fn receives_output(alloc: Global, calls: usize, moves: usize) -> Result<String, AllocError> {
    let mut output = String::new(alloc);
    for number in 1..=moves {
        let entry = if number <= calls {
            "load 3>3 = Err(Empty)"
        } else {
            "idle"
        };
        writeln!(output, "{number} R {entry}")?;
    }
    output.push_str("rest NotSent(7)\nblock here\n")?;
    Ok(output)
}

#[test]
#[should_panic(expected = "block freed")]
fn another_trace_ends_a_test(rt: HostRuntime) {
    assert_traces(&rt, &[(SENT, "")]);
}
