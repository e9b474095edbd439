//! The replies that the codes of a program under the scheduler mean.

use oneshot_codes::{
    DISCONNECTED, DROPPED, EMPTY, FUTURE, GOT, NO, PENDING, REFUSED, SENT, TASKS, TIMED_OUT, YES,
};
use oneshot_machine::machine::Reply;

// The last code of a message.
const LAST_GOT: u64 = 1999;

/// The reply that a code means, and its message if it has one.
pub(crate) fn reply_of(code: u64) -> Option<(Reply, Option<u64>)> {
    let reply = match code {
        SENT => Reply::Sent,
        REFUSED => Reply::Refused,
        YES => Reply::Yes,
        NO => Reply::No,
        DROPPED => Reply::Done,
        EMPTY => Reply::Empty,
        DISCONNECTED => Reply::Disconnected,
        TIMED_OUT => Reply::Timeout,
        PENDING => Reply::Pending,
        FUTURE => Reply::Future,
        GOT..=LAST_GOT => return Some((Reply::Message, Some(code % GOT))),
        _ => return None,
    };
    Some((reply, None))
}

/// The number of the task that a code is about, and whether it was woken.
pub(crate) fn task_of(code: u64) -> Option<(u64, bool)> {
    let told = code.checked_sub(TASKS)?;
    Some((told / 2 + 1, told % 2 == 1))
}
