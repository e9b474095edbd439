//! The drivers of the receiver's calls that never block.

ghost use Rattle.std.specs.Prelude.{[], IfOk};
ghost use Rattle.oneshot_machine.specs.declared.machine.Reply.TheVariants as R;
ghost use Rattle.oneshot_machine.specs.declared.machine.receiver.ReceiverStart.TheVariants.{TryRecv, Drop};
ghost use Rattle.oneshot_machine.specs.Counts.{receiver_bound, MakesWithin};
ghost use Rattle.oneshot_machine.specs.Logs.{receiver_of};
ghost use Rattle.oneshot_machine.specs.Runs.{ReceiverRan};
ghost use Rattle.oneshot_machine.specs.Over.{HasLeft};
ghost use Rattle.oneshot_drive.specs.BetweenCalls.{AtRest, try_recv_reply, received};

use crate::ground::{DropGround, ReceiverGround};
use oneshot_errors::TryRecvError;
use oneshot_machine::states::{DISCONNECTED, EMPTY, MESSAGE};

/// Receives the message if it is there. `g` is between two calls. It never blocks and frees nothing.
///
/// - `Ok`: the message. The receiver is closed.
/// - `Err(Empty)`: nothing was sent yet, and the sender was not dropped.
/// - `Err(Disconnected)`: the sender was dropped without sending, or the message was received before.
pub fn try_recv<T, W, G: ReceiverGround<T, W>>(g: &mut G) -> Result<T, TryRecvError>
    requires { AtRest (G.state g.old) }
    ensures run { ReceiverRan TryRecv (G.state g.old).log (G.state g.new).log
        (try_recv_reply result) [] (received result) }
    ensures rests { AtRest (G.state g.new) }
    ensures bounded { MakesWithin (receiver_bound TryRecv) (G.state g.old).log (G.state g.new).log }
    ensures given { IfOk result (λ message. G.gives g.old message) }
    ensures had { IfOk result (λ message. G.had g.new message) }
    ensures keeps { G.keeps g.old g.new }
{
    match g.load() {
        MESSAGE => {
            g.store(DISCONNECTED);
            Ok(g.take_message())
        }
        EMPTY => Err(TryRecvError::Empty),
        DISCONNECTED => Err(TryRecvError::Disconnected),
        _ => unreachable!(),
    }
}

/// Drops the receiver, and the message if it is there. `g` is between two calls. It never blocks and cannot
/// fail.
///
/// It frees the block if the sender was gone or had sent. Otherwise the sender's side frees it.
pub fn drop_receiver<T, W, G: DropGround<T, W>>(g: &mut G)
    requires { AtRest (G.state g.old) }
    ensures run { ReceiverRan Drop (G.state g.old).log (G.state g.new).log R.Done [] [] }
    ensures left { HasLeft (receiver_of (G.state g.new).log) }
    ensures bounded { MakesWithin (receiver_bound Drop) (G.state g.old).log (G.state g.new).log }
{
    match g.swap(DISCONNECTED) {
        MESSAGE => {
            g.drop_message();
            g.free();
        }
        EMPTY => {}
        DISCONNECTED => g.free(),
        _ => unreachable!(),
    }
}
