//! Tests of long inputs: the output is whole, and the time grows with the length.

use crate::answers::{output_of, receives};
use oneshot_asserts::{Asserts, assert_same, assert_that};
use std::time::{Clock, Duration, Instant};

#[test]
fn as_many_bytes_as_an_input_may_have(rt: HostRuntime) {
    let (input, output) = receives(&rt, 260_000, 8_563);
    assert_same!(rt; input.len(), 1_048_576);
    assert!(rt; output_of(&rt, input.as_bytes()) == output);
}

/// Returns the time of `times` runs of `calls` calls, and asserts each output.
fn time_of(rt: &(impl Asserts + AllocGlobal + Clock), times: usize, calls: usize) -> Duration {
    let (input, output) = receives(rt, calls, calls);
    let begin = Instant::now(rt).expect(rt, "the time");
    for _ in 0..times {
        assert_that!(rt; output_of(rt, input.as_bytes()) == output, calls);
    }
    let end = Instant::now(rt).expect(rt, "the time");
    end.duration_since(begin)
}

#[test]
fn the_time_grows_with_the_calls(rt: HostRuntime) {
    for _ in 0..3 {
        // Both make the same number of calls, so that a busy machine delays both. If each call copied the
        // rest, the second would take up to twenty times as long.
        let few = time_of(&rt, 20, 5_000);
        let many = time_of(&rt, 1, 100_000);
        if many / 3 < few {
            return;
        }
    }
    panic!(rt; "the time grows faster than the calls")
}
