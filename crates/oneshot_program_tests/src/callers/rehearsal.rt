//! Callers of `replay`, proved and tested; docs/MODEL.md shows their contracts.

ghost use Rattle.std.specs.Prelude.{◌≡◌, IfOk, IfSome};
ghost use Rattle.oneshot_laws.specs.Unwoken.{NeverUnwoken};
ghost use Rattle.oneshot_replay.specs.declared.rest.Rest.TheVariants as Rest;

use oneshot::replay::{
    CallList, ErrorLast, ErrorScript, Move, ReceiverLast, ReceiverScript, Refused, Rest,
    SenderLast, SenderScript, Trace, replay,
};
use oneshot_asserts::assert_same;
use std::alloc::Global;

/// Replays both scripts. Once the sender's `send` or drop has replied, the receiver never waits unwoken.
fn rehearsed(
    alloc: Global,
    sender: SenderScript<u64>,
    receiver: ReceiverScript,
    moves: &[Move],
) -> Result<Trace<u64>, Refused<u64>>
    ensures { IfOk result (λ trace. NeverUnwoken sender receiver moves.now trace.entries) }
{
    replay(alloc, sender, receiver, moves)
}

/// Replays a `send` after the receiver's drop: the message comes back in the error.
fn refused(alloc: Global, message: u64) -> Option<Rest<u64>>
    ensures { IfSome result (λ rest. rest ≡ Rest.InError message) }
{
    let error = ErrorScript {
        looks: 0,
        last: ErrorLast::Stop,
    };
    let sender = SenderScript {
        looks: 0,
        last: SenderLast::Send(message, error),
    };
    let receiver = ReceiverScript {
        calls: CallList::from(Vec::new(alloc)),
        last: ReceiverLast::Drop,
    };
    let drop = Move::Receiver {
        over: false,
        refuse: false,
    };
    match replay(alloc, sender, receiver, &[drop, Move::Sender, Move::Sender]) {
        Ok(trace) => trace.into_rest(),
        Err(_) => None,
    }
}

#[test]
fn a_message_comes_back_from_a_dropped_receiver(rt: HostRuntime) {
    assert!(rt; matches!(refused(rt.alloc(), 7), Some(Rest::InError(7))));
}

#[test]
fn a_rehearsal_has_an_entry_for_each_move(rt: HostRuntime) {
    let sender = SenderScript {
        looks: 0,
        last: SenderLast::Drop,
    };
    let receiver = ReceiverScript {
        calls: CallList::from(Vec::new(rt.alloc())),
        last: ReceiverLast::Recv,
    };
    let moves = [Move::Sender; 3];
    match rehearsed(rt.alloc(), sender, receiver, &moves) {
        Ok(trace) => assert_same!(rt; trace.entries().len(), 3),
        Err(_) => panic!(rt; "out of memory"),
    }
}
