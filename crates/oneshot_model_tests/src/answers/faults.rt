//! Tests of the faults of a whole input, with their status. The program reports them before the faults of a line.

use crate::answers::output_of;
use oneshot_asserts::{Asserts, assert_same};

/// Fails unless the program reports this fault of the input, after its status.
fn assert_fault(rt: &(impl Asserts + AllocGlobal), input: &[u8], fault: &str) {
    let told = output_of(rt, input);
    assert_same!(rt; (input, told.as_str()), (input, fault));
}

#[test]
fn bytes_above_127_are_not_ascii(rt: HostRuntime) {
    assert_fault(&rt, b"S\nR\nX\n\x80", "2 input is not ASCII");
    assert_fault(&rt, "S é\nR\nX\n".as_bytes(), "2 input is not ASCII");
    assert_fault(&rt, b"S \x7f\nR\nX\n", "2 line 1: unknown word 1");
}

#[test]
fn a_byte_above_127_is_told_before_any_line(rt: HostRuntime) {
    assert_fault(&rt, b"\xff", "2 input is not ASCII");
    assert_fault(&rt, b"Q\nR\nX\n\xff", "2 input is not ASCII");
}

/// The bytes of which a long input is made, and the fault of as many of them as fit.
const FITTING: &[(u8, &str); 2] = &[
    (b' ', "2 line 1: must begin with S"),
    (0xff, "2 input is not ASCII"),
];

/// Fails unless the program reports this fault of an input of `count` times `byte`, after its status.
fn assert_repeated(rt: &(impl Asserts + AllocGlobal), byte: u8, count: usize, fault: &str) {
    let input = vec![in rt.alloc(); byte; count].expect(rt, "memory");
    let told = output_of(rt, &input);
    assert_same!(rt; (byte, count, told.as_str()), (byte, count, fault));
}

#[test]
fn a_long_input_is_told_before_all_else(rt: HostRuntime) {
    for &(byte, fault) in FITTING {
        assert_repeated(&rt, byte, 1_048_577, "2 input too long");
        assert_repeated(&rt, byte, 1_048_576, fault);
    }
}
