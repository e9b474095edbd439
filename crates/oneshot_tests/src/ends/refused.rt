//! The texts of the error that carries a refused message.

use super::open;
use oneshot_asserts::{Asserts, assert_same};
use oneshot_channel::SendError;
use std::alloc::AllocError;

/// The error of a refused message, which is 5.
pub(super) fn refused(rt: &(impl AllocGlobal + Asserts)) -> SendError<u8> {
    let (sender, receiver) = open(rt, ());
    drop(receiver);
    let Err(error) = sender.send(5) else {
        panic!(rt; "the receiver is gone")
    };
    error
}

/// Fails unless this text was printed.
fn assert_text(rt: &impl Asserts, printed: Result<String, AllocError>, text: &str) {
    let printed = printed.expect(rt, "memory");
    assert_same!(rt; printed.as_str(), text);
}

#[test]
fn the_errors_texts_are_printed(rt: HostRuntime) {
    let error = refused(&rt);
    let alloc = rt.alloc();
    assert_text(
        &rt,
        format!(in alloc; "{error}"),
        "sending on a closed channel",
    );
    assert_text(
        &rt,
        format!(in alloc; "{error:>30}"),
        "   sending on a closed channel",
    );
    assert_text(&rt, format!(in alloc; "{error:?}"), "SendError(_)");
}
