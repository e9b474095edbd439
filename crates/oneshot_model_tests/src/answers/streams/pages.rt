//! Tests of outputs with a line that ends after 4,095, 4,096 or 4,097 bytes, about a full page.

use crate::answers::{assert_trace, receives};
use oneshot_asserts::{Asserts, assert_same};

/// The number of receives and of moves, and where a line ends. The last three outputs end there.
const PAGES: &[(usize, usize, usize); 6] = &[
    (2, 400, 4095),
    (4, 400, 4096),
    (6, 400, 4097),
    (3, 375, 4095),
    (5, 372, 4096),
    (7, 369, 4097),
];

#[test]
fn a_line_ends_where_a_page_is_full(rt: HostRuntime) {
    for &(calls, moves, end) in PAGES {
        let (input, output) = receives(&rt, calls, moves);
        assert_line_ends(&rt, calls, &output, end);
        assert_trace(&rt, &input, &output);
    }
}

/// Fails unless a line of the output ends after this many bytes.
fn assert_line_ends(rt: &impl Asserts, calls: usize, output: &str, end: usize) {
    let page = output.as_bytes().get(..end).expect(rt, "a long output");
    assert_same!(rt; (calls, page.ends_with(b"\n")), (calls, true));
}
