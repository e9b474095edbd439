//! `replay`, which runs a whole schedule.

ghost use Rattle.std.specs.Prelude.{◌≡◌, IfOk, IfErr};
ghost use Rattle.oneshot_replay.specs.Right.{IsRight};

use crate::refused::Refused;
use crate::replayer::Replayer;
use crate::trace::Trace;
use oneshot_world::{Move, ReceiverScript, SenderScript};
use std::alloc::Global;

/// Runs the sender's script `s` and the receiver's `r` under the schedule `moves`, an entry for each move.
/// `alloc` allocates the trace's memory; a step allocates nothing.
///
/// - `Ok`: the trace, which satisfies every law; `specs/Right.antt` has them, one in each field.
/// - `Err`: out of memory. No step was made, and both scripts come back.
pub fn replay<T: Drop>(
    alloc: Global,
    s: SenderScript<T>,
    r: ReceiverScript,
    moves: &[Move],
) -> Result<Trace<T>, Refused<T>>
    ensures right { IfOk result (IsRight s r moves.now) }
    ensures sender_back { IfErr result (λ e. e.sender ≡ s) }
    ensures receiver_back { IfErr result (λ e. e.receiver ≡ r) }
{
    let Ok(mut entries) = Vec::with_capacity(alloc, moves.len()) else {
        return Err(Refused {
            sender: s,
            receiver: r,
        });
    };
    let mut end = Replayer::new(s, r);
    for m in moves {
        let Ok(()) = entries.push(end.step(*m)) else {
            unreachable!()
        };
    }
    Ok(Trace { entries, end })
}
