//! The texts that `{:?}` prints.

use oneshot_asserts::{Asserts, assert_same};
use oneshot_channel::{RecvError, RecvTimeoutError, TryRecvError};
use std::fmt::Debug;

/// Fails unless `{:?}` prints this text of an error of this type.
fn assert_prints<E: Debug>(rt: &(impl AllocGlobal + Asserts), name: &str, error: &E, text: &str) {
    let printed = format!(in rt.alloc(); "{error:?}").expect(rt, "memory");
    assert_same!(rt; (name, printed.as_str()), (name, text));
}

#[test]
fn debug_texts_are_the_names(rt: HostRuntime) {
    assert_prints(&rt, "RecvError", &RecvError, "RecvError");
    let timed = "RecvTimeoutError";
    assert_prints(&rt, timed, &RecvTimeoutError::Timeout, "Timeout");
    assert_prints(&rt, timed, &RecvTimeoutError::Disconnected, "Disconnected");
    let tried = "TryRecvError";
    assert_prints(&rt, tried, &TryRecvError::Empty, "Empty");
    assert_prints(&rt, tried, &TryRecvError::Disconnected, "Disconnected");
}
