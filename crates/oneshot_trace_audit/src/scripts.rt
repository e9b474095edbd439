//! The scripts and schedules of the tests, by the words of `oneshot-run`.

use crate::auditor::Scripts;
use oneshot_asserts::Asserts;
use oneshot_replay::Move;
use oneshot_text::{Request, parse_request};
use std::alloc::AllocGlobal;

/// The message of each script that sends one.
pub(crate) const MESSAGE: u64 = 7;

/// Reads the lines of both scripts.
pub(crate) fn scripts_of(rt: &(impl Asserts + AllocGlobal), lines: &str) -> Scripts {
    let text = format!(in rt.alloc(); "{lines}\nX").expect(rt, "memory");
    let request = parse_request(rt.alloc(), &text).expect(rt, "scripts");
    let Request {
        sender,
        receiver,
        ..
    } = request;
    Scripts { sender, receiver }
}

/// Reads the letters of a schedule, of which there is at least one.
pub(crate) fn moves_of(rt: &(impl Asserts + AllocGlobal), letters: &str) -> Vec<Move> {
    let text = format!(in rt.alloc(); "S\nR\nX {letters}").expect(rt, "memory");
    let Request { moves, .. } = parse_request(rt.alloc(), &text).expect(rt, "a schedule");
    moves
}
