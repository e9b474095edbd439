//! The drivers of the sender's calls, and of the error of its refused `send`.

ghost use Rattle.std.specs.Prelude.{◌≡◌, false, true, [], ◌∷◌};
ghost use Rattle.oneshot_machine.specs.declared.machine.Reply.TheVariants.{Message, Done};
ghost use Rattle.oneshot_machine.specs.declared.machine.sender.SenderCall.TheVariants.{Send, Drop, IntoInner, DropError};
ghost use Rattle.oneshot_machine.specs.Counts.{sender_bound, MakesWithin};
ghost use Rattle.oneshot_machine.specs.Logs.{sender_of, Grows};
ghost use Rattle.oneshot_machine.specs.Phases.{By, sending, dropping, finished, owes};
ghost use Rattle.oneshot_machine.specs.Runs.{SenderRan};
ghost use Rattle.oneshot_machine.specs.Slots.{away, held};
ghost use Rattle.oneshot_machine.specs.Over.{IsLate};
ghost use Rattle.oneshot_drive.specs.BetweenCalls.{IsFresh, IsError, Owes, LastLeaves, Finishes, IsOvertaken, send_reply};

use crate::ground::{ErrorGround, SenderGround};
use oneshot_machine::states::{DISCONNECTED, EMPTY, MESSAGE, RECEIVING};

/// Sends `message`, and wakes a waiting receiver. `g` has performed no operation yet. It never blocks.
///
/// - `true`: the receiver was there. The receiver's side frees the block.
/// - `false`: the receiver was dropped, before or while `send` took its waker. The message is in its slot,
///   and `g` owns the block, which `into_inner` or `drop_error` frees.
pub fn send<T, W, G: SenderGround<T, W>>(g: &mut G, message: T) -> bool
    requires fresh { IsFresh (G.state g.old) }
    requires promise { G.admits g.old message }
    ensures run { SenderRan Send (G.state g.old).log (G.state g.new).log (send_reply result) (message ∷ []) [] }
    ensures refused { result ≡ false →
        IsError (held message) (G.state g.new) }
    ensures late { result ≡ false → IsLate (sender_of (G.state g.new).log) }
    ensures sent { result ≡ true → sender_of (G.state g.new).log ≡ finished sending }
    ensures ended { G.ended sending g.new }
    ensures bounded { MakesWithin (sender_bound Send) (G.state g.old).log (G.state g.new).log }
    ensures gave { result ≡ true → G.gave g.new message }
    ensures keeps { G.keeps g.old g.new }
{
    g.write_message(message);
    match g.add() {
        EMPTY => true,
        RECEIVING => finish(g, MESSAGE),
        DISCONNECTED => false,
        _ => unreachable!(),
    }
}

/// Drops the sender, and wakes a waiting receiver. `g` has performed no operation yet. It never blocks and
/// cannot fail.
///
/// It frees the block if the receiver was dropped, before or while this drop took its waker. Otherwise the
/// receiver's side frees it.
pub fn drop_sender<T, W, G: SenderGround<T, W>>(g: &mut G)
    requires { IsFresh (G.state g.old) }
    ensures run { SenderRan Drop (G.state g.old).log (G.state g.new).log Done [] [] }
    ensures ended { G.ended dropping g.new }
    ensures bounded { MakesWithin (sender_bound Drop) (G.state g.old).log (G.state g.new).log }
{
    match g.xor() {
        EMPTY => {}
        RECEIVING => {
            if !finish(g, DISCONNECTED) {
                g.free();
            }
        }
        DISCONNECTED => g.free(),
        _ => unreachable!(),
    }
}

// Leaves the word `last` to a waiting receiver, and uses its waker. `false`: the receiver was dropped.
fn finish<T, W, G: SenderGround<T, W>>(g: &mut G, last: u8) -> bool
    requires { Owes last (G.state g.old) }
    ensures finishes { Finishes last result (G.woken g.new) (G.state g.old).log (G.state g.new).log }
    ensures gone { result ≡ false → IsOvertaken (G.state g.old) (G.state g.new) }
    ensures over { (by : By) → sender_of (G.state g.old).log ≡ owes by
        → LastLeaves by result (sender_of (G.state g.new).log) }
    ensures gave { result ≡ true → (x : T) → (G.state g.old).message ≡ held x → G.gave g.new x }
    ensures keeps { G.keeps g.old g.new }
{
    let waker = g.take_waker();
    let found = g.swap(last);
    g.wake(waker);
    found != DISCONNECTED
}

/// Returns the message of a refused `send`, and frees the block. It never blocks and cannot fail.
pub fn into_inner<T, W, G: ErrorGround<T, W>>(g: &mut G) -> T
    requires { (x : T) × IsError (held x) (G.state g.old) }
    ensures run { SenderRan IntoInner (G.state g.old).log (G.state g.new).log Message [] (result ∷ []) }
    ensures message { (G.state g.old).message ≡ held result }
    ensures freed { (G.state g.new).message ≡ away }
{
    let message = g.take_message();
    g.free();
    message
}

/// Drops the message of a refused `send`, and frees the block. It never blocks and cannot fail.
pub fn drop_error<T, W, G: ErrorGround<T, W>>(g: &mut G)
    requires { (x : T) × IsError (held x) (G.state g.old) }
    ensures run { SenderRan DropError (G.state g.old).log (G.state g.new).log Done [] [] }
    ensures freed { (G.state g.new).message ≡ away }
{
    g.drop_message();
    g.free();
}
