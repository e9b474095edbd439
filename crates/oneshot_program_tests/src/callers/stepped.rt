//! A caller that makes the moves of a `Replayer` one by one, proved and tested.

ghost use Rattle.std.specs.Prelude.{IfOk, IsTrue};
ghost use Rattle.oneshot_world.specs.Scripts.{calls_of};
ghost use Rattle.oneshot_laws.specs.MessagePlaces.{is_message_followed};
ghost use Rattle.oneshot_laws.specs.Unwoken.{NeverUnwoken};

use oneshot::machine::{End, Reply, Step};
use oneshot::replay::laws::a_run_is_right;
use oneshot::replay::{
    CallList, Entry, ErrorLast, ErrorScript, Move, ReceiverLast, ReceiverScript, Replayer,
    SenderLast, SenderScript,
};
use oneshot_asserts::assert_same;
use std::alloc::{AllocError, Global};

/// Makes these moves one by one, and returns their entries.
fn stepped(
    alloc: Global,
    s: SenderScript<u64>,
    r: ReceiverScript,
    moves: &[Move],
) -> Result<Vec<Entry>, AllocError>
    ensures message_followed { IfOk result (λ entries. IsTrue (is_message_followed (calls_of s r) entries.items)) }
    ensures never_unwoken { IfOk result (λ entries. NeverUnwoken s r moves.now entries.items) }
{
    a_run_is_right::<u64>();
    let mut replayer = Replayer::new(s, r);
    let mut entries = Vec::new(alloc);
    for m in moves {
        entries.push(replayer.step(*m))?;
    }
    Ok(entries)
}

/// A `send` of this message, whose error is left as it is.
fn send(message: u64) -> SenderScript<u64> {
    let error = ErrorScript {
        looks: 0,
        last: ErrorLast::Stop,
    };
    SenderScript {
        looks: 0,
        last: SenderLast::Send(message, error),
    }
}

#[test]
fn a_send_is_two_steps_and_the_sender_is_idle_then(rt: HostRuntime) {
    let receiver = ReceiverScript {
        calls: CallList::from(Vec::new(rt.alloc())),
        last: ReceiverLast::Stop,
    };
    let moves = [Move::Sender, Move::Sender, Move::Sender];
    let entries = stepped(rt.alloc(), send(7), receiver, &moves).expect(&rt, "memory");
    let [
        Entry::Made(write),
        Entry::Made(add),
        Entry::Idle(End::Sender),
    ] = entries.as_slice()
    else {
        panic!(rt; "the send ends with its second step")
    };
    assert_same!(rt;
        (write.step, add.reply),
        (Step::WriteMessage, Some(Reply::Sent))
    );
}
