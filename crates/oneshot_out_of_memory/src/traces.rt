//! Attempts to replay a trace.

use crate::outcome::{Outcome, Wrong, ensure, made_again};
use oneshot::replay::{
    CallList, ErrorLast, ErrorScript, Move, ReceiverCall, ReceiverLast, ReceiverScript, Refused,
    SenderLast, SenderScript, Trace, replay,
};
use std::alloc::{AllocError, Global};

/// The sender's two looks.
const MOVES: [Move; 2] = [Move::Sender, Move::Sender];

/// The receiver's two calls before its drop.
const CALLS: [ReceiverCall; 2] = [ReceiverCall::TryRecv, ReceiverCall::HasMessage];

/// Calls `replay`. A refusal has to return both scripts unchanged.
pub(crate) fn make_trace(alloc: Global) -> Result<Outcome, Wrong> {
    let receiver = receiver_script(alloc)?;
    match replay(alloc, sender_script(), receiver, &MOVES) {
        Ok(_) => Ok(Outcome::Made),
        Err(Refused { sender, receiver }) => replay_again(alloc, sender, receiver),
    }
}

/// Replays the scripts that a refusal returned.
fn replay_again(
    alloc: Global,
    sender: SenderScript<u64>,
    receiver: ReceiverScript,
) -> Result<Outcome, Wrong> {
    ensure(is_whole(&sender, &receiver), Wrong::ScriptsChanged)?;
    match replay(alloc, sender, receiver, &MOVES) {
        Ok(trace) => made_again(trace.entries().len() == MOVES.len()),
        Err(_) => Err(Wrong::RefusedAgain),
    }
}

fn sender_script() -> SenderScript<u64> {
    let error = ErrorScript {
        looks: 1,
        last: ErrorLast::IntoInner,
    };
    SenderScript {
        looks: 2,
        last: SenderLast::Send(7, error),
    }
}

/// A refused allocation is repeated, since the script is not what is tested.
fn receiver_script(alloc: Global) -> Result<ReceiverScript, AllocError> {
    let calls = match Vec::from_slice(alloc, &CALLS) {
        Ok(calls) => calls,
        Err(_) => Vec::from_slice(alloc, &CALLS)?,
    };
    Ok(ReceiverScript {
        calls: CallList::from(calls),
        last: ReceiverLast::Drop,
    })
}

/// Whether these are the two scripts above.
fn is_whole(sender: &SenderScript<u64>, receiver: &ReceiverScript) -> bool {
    is_sender_script(sender)
        && matches!(receiver.last, ReceiverLast::Drop)
        && receiver.calls.as_slice() == CALLS.as_slice()
}

fn is_sender_script(script: &SenderScript<u64>) -> bool {
    matches!(
        script,
        SenderScript {
            looks: 2,
            last: SenderLast::Send(
                7,
                ErrorScript {
                    looks: 1,
                    last: ErrorLast::IntoInner
                }
            )
        }
    )
}
