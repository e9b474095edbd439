//! The texts that `{}` prints of each error, through the trait `Error`.

use oneshot_asserts::{Asserts, assert_same};
use oneshot_channel::{RecvError, RecvTimeoutError, TryRecvError};
use std::error::Error;

/// Fails unless `{}` prints this text of an error of this type.
fn assert_prints<E: Error>(rt: &(impl AllocGlobal + Asserts), name: &str, error: &E, text: &str) {
    let printed = format!(in rt.alloc(); "{error}").expect(rt, "memory");
    assert_same!(rt; (name, printed.as_str()), (name, text));
}

#[test]
fn display_texts_are_those_of_the_original(rt: HostRuntime) {
    let closed = "receiving on a closed channel";
    assert_prints(&rt, "RecvError", &RecvError, closed);
    let timed = "RecvTimeoutError";
    let late = "timed out waiting on channel";
    assert_prints(&rt, timed, &RecvTimeoutError::Timeout, late);
    let gone = "channel is empty and sending half is closed";
    assert_prints(&rt, timed, &RecvTimeoutError::Disconnected, gone);
    let tried = "TryRecvError";
    let empty = "receiving on an empty channel";
    assert_prints(&rt, tried, &TryRecvError::Empty, empty);
    assert_prints(&rt, tried, &TryRecvError::Disconnected, closed);
}
