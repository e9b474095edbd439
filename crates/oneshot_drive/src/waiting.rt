//! How a receive that blocks waits for the word that decides it.

ghost use Rattle.std.specs.Prelude.{◌≡◌, true, false, Some, None};
ghost use Rattle.oneshot_machine.specs.declared.machine.receiver.ReceiverPos.TheVariants.{Timed};
ghost use Rattle.oneshot_machine.specs.declared.machine.timed.TimedPos.TheVariants.{EndSwap, LatePark};
ghost use Rattle.oneshot_machine.specs.Logs.{receiver_of};
ghost use Rattle.oneshot_machine.specs.Phases.{idle, after_load, waits, blocked, overdue};
ghost use Rattle.oneshot_machine.specs.TableRows.{Goes};
ghost use Rattle.oneshot_drive.specs.declared.found.Found.TheVariants as F;
ghost use Rattle.oneshot_drive.specs.Blocking.{Path, ReceiveBy, load_of, write_of, wait_of, asked_of, ref_end, end_of, EndsAt};
ghost use Rattle.oneshot_drive.specs.BetweenCalls.{AtRest, IsReady};
ghost use Rattle.oneshot_drive.specs.Grounds.{Stands};

use crate::found::Found;
use crate::ground::BlockGround;
use oneshot_machine::states::{DISCONNECTED, EMPTY, MESSAGE, RECEIVING, UNPARKING};
use std::sync::Wait;

// Loads, and waits if nothing is there yet; until the deadline if `timed`.
pub(crate) fn find<T, W: Drop, G: BlockGround<T, W>>(
    g: &mut G,
    rt: &impl Wait,
    hand: &mut Option<W>,
    timed: bool,
) -> Found
    requires rests { AtRest (G.state g.old) }
    requires ready { IsReady hand.old (receiver_of (G.state g.old).log) }
    requires has { G.has g.old hand.old }
    ensures path { (way : ReceiveBy timed)
        → Path (load_of way) (end_of way result) (G.state g.old).log (G.state g.new).log }
    ensures ends { EndsAt timed result (G.state g.new) }
    ensures hand { result ≡ F.Nothing → ¬ (hand.new ≡ None) }
    ensures has { G.has g.new hand.new }
    ensures keeps { G.keeps g.old g.new }
{
    match g.load() {
        MESSAGE => Found::Message,
        EMPTY => store_and_wait(g, rt, hand, timed),
        DISCONNECTED => Found::Closed,
        _ => unreachable!(),
    }
}

// Stores the waker and waits, unless the sender has acted.
fn store_and_wait<T, W: Drop, G: BlockGround<T, W>>(
    g: &mut G,
    rt: &impl Wait,
    hand: &mut Option<W>,
    timed: bool,
) -> Found
    requires open { Stands (idle after_load) (G.state g.old) }
    requires ready { (k : W) × (hand.old ≡ Some k) }
    requires has { G.has g.old hand.old }
    ensures path { (way : ReceiveBy timed)
        → Path (write_of way) (end_of way result) (G.state g.old).log (G.state g.new).log }
    ensures ends { EndsAt timed result (G.state g.new) }
    ensures hand { result ≡ F.Nothing → ¬ (hand.new ≡ None) }
    ensures has { G.has g.new hand.new }
    ensures keeps { G.keeps g.old g.new }
{
    let Some(waker) = hand.take() else {
        unreachable!()
    };
    g.write_waker(waker);
    let word = g.swap(RECEIVING);
    if word == EMPTY {
        return wait(g, rt, hand, timed);
    }
    *hand = Some(g.withdraw());
    if word == MESSAGE {
        Found::Message
    } else {
        Found::Overwritten
    }
}

// Parks until the sender has acted or the deadline is over.
fn wait<T, W: Drop, G: BlockGround<T, W>>(
    g: &mut G,
    rt: &impl Wait,
    hand: &mut Option<W>,
    timed: bool,
) -> Found
    requires waits { Stands (waits blocked) (G.state g.old) }
    requires empty { hand.old ≡ None }
    requires has { G.has g.old None }
    ensures path { (way : ReceiveBy timed)
        → Path (wait_of way) (end_of way result) (G.state g.old).log (G.state g.new).log }
    ensures ends { EndsAt timed result (G.state g.new) }
    ensures hand { result ≡ F.Nothing → ¬ (hand.new ≡ None) }
    ensures has { G.has g.new hand.new }
    ensures keeps { G.keeps g.old g.new }
{
    for _ in rt.forever() {
        if is_over(g, timed) {
            return stop(g, rt, hand);
        }
        g.park(timed);
        match g.load() {
            MESSAGE => return Found::Message,
            DISCONNECTED => return Found::Closed,
            RECEIVING | UNPARKING => {}
            _ => unreachable!(),
        }
    }
    unreachable!()
}

// Whether there is a deadline and it is over. Without one the clock is not read. It is a function of its own, so that
// its contract refuses a body that reads the clock and ignores the answer.
fn is_over<T, W, G: BlockGround<T, W>>(g: &mut G, timed: bool) -> bool
    requires { Stands (waits blocked) (G.state g.old) }
    ensures path { (way : ReceiveBy timed)
        → Path (wait_of way) (Goes (asked_of way result)) (G.state g.old).log (G.state g.new).log }
    ensures waits { Stands (waits blocked) (G.state g.new) }
    ensures deadline { result ≡ true → timed ≡ true }
    ensures keeps { G.keeps g.old g.new }
{
    if timed { g.over() } else { false }
}

// Ends the wait of a receiver whose deadline is over, unless the sender has acted.
fn stop<T, W: Drop, G: BlockGround<T, W>>(g: &mut G, rt: &impl Wait, hand: &mut Option<W>) -> Found
    requires waits { Stands (waits blocked) (G.state g.old) }
    requires empty { hand.old ≡ None }
    requires has { G.has g.old None }
    ensures path { Path (Timed EndSwap) (ref_end result) (G.state g.old).log (G.state g.new).log }
    ensures ends { EndsAt true result (G.state g.new) }
    ensures hand { result ≡ F.Nothing → ¬ (hand.new ≡ None) }
    ensures has { G.has g.new hand.new }
    ensures keeps { G.keeps g.old g.new }
{
    match g.swap(EMPTY) {
        RECEIVING => {
            *hand = Some(g.withdraw());
            Found::Nothing
        }
        MESSAGE => Found::Message,
        DISCONNECTED => Found::Overwritten,
        // The sender has the waker and is about to finish. Its swap comes over this EMPTY.
        UNPARKING => wait_late(g, rt),
        _ => unreachable!(),
    }
}

// Parks, past the deadline, until the sender has finished.
fn wait_late<T, W, G: BlockGround<T, W>>(g: &mut G, rt: &impl Wait) -> Found
    requires late { Stands overdue (G.state g.old) }
    requires has { G.has g.old None }
    ensures path { Path (Timed LatePark) (ref_end result) (G.state g.old).log (G.state g.new).log }
    ensures ends { EndsAt false result (G.state g.new) }
    ensures keeps { G.keeps g.old g.new }
{
    for _ in rt.forever() {
        g.park(false);
        match g.load() {
            MESSAGE => return Found::Message,
            DISCONNECTED => return Found::Closed,
            EMPTY => {}
            _ => unreachable!(),
        }
    }
    unreachable!()
}
