//! Tests of readers that fail, are interrupted or never end, and of inputs of about one or two blocks.

use super::{FAILURES, Failures, INTERRUPTS, Reader, assert_whole, ending};
use crate::answers::{SENT, SENT_TRACE, assert_trace, idle};
use oneshot_asserts::{Asserts, assert_same};
use oneshot_streams::fault::Fault;
use oneshot_streams::run::run;
use std::io;
use std::io::{ErrorKind, Read};

#[test]
fn a_failed_read_is_told_alone(rt: HostRuntime) {
    // The read after the last byte would find the end.
    for before in 0..=SENT.len() {
        for &kind in FAILURES {
            assert_told_alone(&rt, before, kind);
        }
    }
}

/// Asserts that a read that fails after this many others is the reader's last call, and that nothing is written.
fn assert_told_alone(rt: &(impl Asserts + AllocGlobal), before: usize, kind: ErrorKind) {
    let mut reader = Reader::new(SENT, Failures::of(before, 1, kind));
    let mut written = Vec::new(rt.alloc());
    let ended = ending(rt, &mut reader, &mut written);
    let found = (written.is_empty(), reader.failures.after);
    assert_same!(rt;
        (kind, before, ended.as_str(), found),
        (kind, before, "1 read failed\n", (true, 0))
    );
}

#[test]
fn an_interrupted_read_is_made_again(rt: HostRuntime) {
    for before in 0..=SENT.len() {
        for count in 1..=INTERRUPTS {
            assert_made_again(&rt, before, count);
        }
    }
}

/// Asserts that the output is whole where this many interrupts follow this many reads.
fn assert_made_again(rt: &(impl Asserts + AllocGlobal), before: usize, count: usize) {
    let interrupts = Failures::of(before, count, ErrorKind::Interrupted);
    let mut written = Vec::new(rt.alloc());
    let ended = ending(rt, &mut Reader::new(SENT, interrupts), &mut written);
    let case = (SENT, count, before);
    assert_whole(rt, case, &ended, &written, SENT_TRACE);
}

#[test]
fn inputs_of_about_one_and_two_blocks(rt: HostRuntime) {
    // Six bytes precede the moves.
    for moves in [4_089, 4_090, 4_091, 8_185, 8_186, 8_187] {
        let (input, output) = idle(&rt, moves);
        assert_trace(&rt, &input, &output);
    }
}

/// Never ends, and counts the bytes that it returned.
#[derive(Drop)]
struct Endless {
    given: usize,
}

impl Read for Endless {
    fn read(&mut self, buf: &mut [u8]) -> io::Result<usize> {
        buf.fill(b's');
        self.given = self.given.saturating_add(buf.len());
        Ok(buf.len())
    }
}

#[test]
fn an_endless_input_is_too_long(rt: HostRuntime) {
    let mut reader = Endless { given: 0 };
    let mut written = Vec::new(rt.alloc());
    let ended = run(rt.alloc(), &mut reader, &mut written);
    let too_long = matches!(ended, Err(Fault::InputTooLong));
    assert_same!(rt; (too_long, written.is_empty()), (true, true));
    assert!(rt; reader.given > 1_048_576 && reader.given <= 1_048_576 + 4096);
}
