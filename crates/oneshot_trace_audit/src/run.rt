//! Runs two scripts, for their trace or for its text.

use crate::auditor::{DrawnTrace, Scripts};
use oneshot_asserts::Asserts;
use oneshot_replay::{Move, Place, Replayer, Rest, SenderLast, replay};
use oneshot_text::write_run;
use std::alloc::AllocGlobal;
use std::io;
use std::io::Write;

/// Runs both scripts under a schedule, and returns their trace.
pub(crate) fn run(
    rt: &(impl Asserts + AllocGlobal),
    scripts: Scripts,
    moves: &[Move],
) -> DrawnTrace {
    let Scripts { sender, receiver } = scripts;
    let trace = replay(rt.alloc(), sender, receiver, moves).expect(rt, "memory");
    let entries = Vec::from_slice(rt.alloc(), trace.entries()).expect(rt, "memory");
    DrawnTrace {
        entries,
        block_freed: trace.block_freed(),
        rest: trace.into_rest().map(place_of),
    }
}

/// Writes what the program prints for both scripts under a schedule.
pub(crate) fn print_run<W: Write>(
    output: &mut W,
    scripts: Scripts,
    moves: &[Move],
) -> io::Result<()> {
    let Scripts { sender, receiver } = scripts;
    let message = match sender.last {
        SenderLast::Send(message, _) => message,
        SenderLast::Drop | SenderLast::Stop => 0,
    };
    write_run(output, Replayer::new(sender, receiver), moves, message)
}

fn place_of(rest: Rest<u64>) -> (Place, u64) {
    match rest {
        Rest::NotSent(message) => (Place::NotSent, message),
        Rest::InCell(message) => (Place::InCell, message),
        Rest::InError(message) => (Place::InError, message),
        Rest::Delivered(message) => (Place::Delivered, message),
        Rest::FromError(message) => (Place::FromError, message),
        Rest::Dropped(message) => (Place::Dropped, message),
    }
}
