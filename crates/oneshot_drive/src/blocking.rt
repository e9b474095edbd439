//! The drivers of the receives that block.

ghost use Rattle.std.specs.Prelude.{◌≡◌, IfOk, []};
ghost use Rattle.oneshot_machine.specs.declared.machine.receiver.ReceiverPos.TheVariants.{Ref};
ghost use Rattle.oneshot_machine.specs.declared.machine.by_ref.RefPos.TheVariants.{StartLoad};
ghost use Rattle.oneshot_machine.specs.declared.machine.receiver.ReceiverStart.TheVariants.{Recv, RecvRef, RecvDeadline, RecvTimeout};
ghost use Rattle.oneshot_machine.specs.Logs.{receiver_of};
ghost use Rattle.oneshot_machine.specs.Slots.{away};
ghost use Rattle.oneshot_machine.specs.Receiver.{receiver_step, receiver_row};
ghost use Rattle.oneshot_machine.specs.Runs.{Ran, ReceiverRan};
ghost use Rattle.oneshot_machine.specs.Over.{FoundTheEnd};
ghost use Rattle.oneshot_drive.specs.BetweenCalls.{AtRest, IsReady, recv_reply, timed_reply, received};

use crate::found::Found;
use crate::ground::BlockGround;
use crate::waiting::find;
use oneshot_errors::{RecvError, RecvTimeoutError};
use oneshot_machine::states::DISCONNECTED;
use std::sync::Wait;

/// Blocks until the sender sends or is dropped, and leaves the receiver closed.
///
/// `g` is between two calls. `rt` permits blocking. `hand` has the waker with which the sender wakes the
/// receiver; it may be empty if the receiver is closed.
///
/// - `Ok`: the message.
/// - `Err`: the sender was dropped without sending, or the receiver was closed before.
pub fn recv_ref<T, W: Drop, G: BlockGround<T, W>>(
    g: &mut G,
    rt: &impl Wait,
    hand: &mut Option<W>,
) -> Result<T, RecvError>
    requires rests { AtRest (G.state g.old) }
    requires ready { IsReady hand.old (receiver_of (G.state g.old).log) }
    requires has { G.has g.old hand.old }
    ensures run { ReceiverRan RecvRef (G.state g.old).log (G.state g.new).log
        (recv_reply result) [] (received result) }
    ensures rests { AtRest (G.state g.new) }
    ensures has { G.has g.new hand.new }
    ensures given { IfOk result (λ message. G.gives g.old message) }
    ensures had { IfOk result (λ message. G.had g.new message) }
    ensures keeps { G.keeps g.old g.new }
{
    match receive(g, rt, hand, false) {
        Ok(message) => Ok(message),
        Err(_) => Err(RecvError),
    }
}

/// Blocks until the sender sends or is dropped, or until the deadline is over by the ground's clock.
///
/// `g`, `rt` and `hand` are as for `recv_ref`. After `Timeout` the hand has a waker, perhaps another.
///
/// - `Ok`: the message. The receiver is closed.
/// - `Err(Timeout)`: the deadline is over, and the call's last operation found that the sender had not
///   acted. The receiver stays open.
/// - `Err(Disconnected)`: the sender was dropped without sending, or the receiver was closed before.
///   It is closed.
pub fn recv_deadline<T, W: Drop, G: BlockGround<T, W>>(
    g: &mut G,
    rt: &impl Wait,
    hand: &mut Option<W>,
) -> Result<T, RecvTimeoutError>
    requires rests { AtRest (G.state g.old) }
    requires ready { IsReady hand.old (receiver_of (G.state g.old).log) }
    requires has { G.has g.old hand.old }
    ensures run { ReceiverRan RecvDeadline (G.state g.old).log (G.state g.new).log
        (timed_reply result) [] (received result) }
    ensures rests { AtRest (G.state g.new) }
    ensures ready { IsReady hand.new (receiver_of (G.state g.new).log) }
    ensures has { G.has g.new hand.new }
    ensures given { IfOk result (λ message. G.gives g.old message) }
    ensures had { IfOk result (λ message. G.had g.new message) }
    ensures keeps { G.keeps g.old g.new }
{
    receive(g, rt, hand, true)
}

/// Reads the clock once, to add a timeout to it, then blocks as `recv_deadline` does.
///
/// `representable`: whether the call has a deadline. If not, it blocks without one and never returns `Timeout`. The
/// receives of `oneshot_ends` pass `false` only if the clock was read and no instant can hold the sum.
///
/// The other arguments and the results are as for `recv_deadline`.
pub fn recv_timeout<T, W: Drop, G: BlockGround<T, W>>(
    g: &mut G,
    rt: &impl Wait,
    hand: &mut Option<W>,
    representable: bool,
) -> Result<T, RecvTimeoutError>
    requires rests { AtRest (G.state g.old) }
    requires ready { IsReady hand.old (receiver_of (G.state g.old).log) }
    requires has { G.has g.old hand.old }
    ensures run { ReceiverRan (RecvTimeout representable) (G.state g.old).log (G.state g.new).log
        (timed_reply result) [] (received result) }
    ensures rests { AtRest (G.state g.new) }
    ensures ready { IsReady hand.new (receiver_of (G.state g.new).log) }
    ensures has { G.has g.new hand.new }
    ensures given { IfOk result (λ message. G.gives g.old message) }
    ensures had { IfOk result (λ message. G.had g.new message) }
    ensures keeps { G.keeps g.old g.new }
{
    // Whether a deadline is over by this reading decides nothing: the timeout is added to it.
    g.over();
    receive(g, rt, hand, representable)
}

// Receives by reference, until a deadline if `timed`.
fn receive<T, W: Drop, G: BlockGround<T, W>>(
    g: &mut G,
    rt: &impl Wait,
    hand: &mut Option<W>,
    timed: bool,
) -> Result<T, RecvTimeoutError>
    requires rests { AtRest (G.state g.old) }
    requires ready { IsReady hand.old (receiver_of (G.state g.old).log) }
    requires has { G.has g.old hand.old }
    ensures run { Ran receiver_step receiver_row (Ref (StartLoad timed)) (G.state g.old).log (G.state g.new).log
        (timed_reply result) [] (received result) }
    ensures rests { AtRest (G.state g.new) }
    ensures ready { IsReady hand.new (receiver_of (G.state g.new).log) }
    ensures has { G.has g.new hand.new }
    ensures given { IfOk result (λ message. G.gives g.old message) }
    ensures had { IfOk result (λ message. G.had g.new message) }
    ensures keeps { G.keeps g.old g.new }
{
    match find(g, rt, hand, timed) {
        Found::Message => {
            g.store(DISCONNECTED);
            Ok(g.take_message())
        }
        Found::Closed => Err(RecvTimeoutError::Disconnected),
        Found::Overwritten => {
            g.store(DISCONNECTED);
            Err(RecvTimeoutError::Disconnected)
        }
        Found::Nothing => Err(RecvTimeoutError::Timeout),
    }
}

/// Blocks until the sender sends or is dropped, then frees the block. This ends the receiver.
///
/// `g`, `rt` and `hand` are as for `recv_ref`.
///
/// - `Ok`: the message.
/// - `Err`: the sender was dropped without sending, or the receiver was closed before.
pub fn recv<T, W: Drop, G: BlockGround<T, W>>(
    g: &mut G,
    rt: &impl Wait,
    hand: &mut Option<W>,
) -> Result<T, RecvError>
    requires rests { AtRest (G.state g.old) }
    requires ready { IsReady hand.old (receiver_of (G.state g.old).log) }
    requires has { G.has g.old hand.old }
    ensures run { ReceiverRan Recv (G.state g.old).log (G.state g.new).log
        (recv_reply result) [] (received result) }
    ensures found { FoundTheEnd (receiver_of (G.state g.new).log) }
    ensures freed { (G.state g.new).message ≡ away }
    ensures given { IfOk result (λ message. G.gives g.old message) }
    ensures had { IfOk result (λ message. G.had g.new message) }
    ensures keeps { G.keeps g.old g.new }
{
    let Found::Message = find(g, rt, hand, false) else {
        g.free();
        return Err(RecvError);
    };
    let message = g.take_message();
    g.free();
    Ok(message)
}
