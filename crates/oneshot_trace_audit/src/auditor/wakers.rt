//! The wakers' places: each waker is always in one place, and moves only from there.

use crate::auditor::calls::Call;
use crate::auditor::fault::{Fault, no_move};
use crate::auditor::mark::{Mark, moves_waker};
use oneshot_machine::machine::End;
use oneshot_replay::{Entry, WakerName, WakerPlace};

/// A waker's move.
type WakerMove = (WakerName, WakerPlace, WakerPlace);

/// Reads a step after the entries `earlier`: a waker that moves leaves its place, by an allowed move of the
/// end that may make it, into the cell only if that is empty. A new copy is named for its task and entry.
pub(crate) fn read(mark: Mark, earlier: &[Entry]) -> Result<(), Fault> {
    let Some((name, from, to)) = mark.made.waker else {
        return no_move(moves_waker(mark.made.step));
    };
    let place = place_of(name, earlier);
    if place != from {
        return Err(Fault::WakerElsewhere { from, place });
    }
    if !may_go(name, from, to) {
        return Err(Fault::WakerMove { from, to });
    }
    if mover_to(to) != mark.made.side {
        return Err(Fault::WakerOfOther(mark.made.side));
    }
    if from == WakerPlace::New && !is_named_so(name, mark) {
        return Err(Fault::MisnamedWaker);
    }
    if to == WakerPlace::Cell && is_cell_full(earlier) {
        return Err(Fault::WakerCellFull);
    }
    Ok(())
}

/// After all have ended, each copy was used or dropped, and the parker's half was used or is in the hand.
pub(crate) fn read_end(entries: &[Entry]) -> Result<(), Fault> {
    for entry in entries {
        if let Some((name, _, _)) = move_of(entry) {
            let place = place_of(name, entries);
            if !may_end(name, place) {
                return Err(Fault::WakerLeft(place));
            }
        }
    }
    Ok(())
}

fn move_of(entry: &Entry) -> Option<WakerMove> {
    match entry {
        Entry::Made(made) => made.waker,
        Entry::Idle(_) => None,
    }
}

/// Where a waker is after these entries. A copy begins as new, and the parker's half in the receiver's hand.
fn place_of(name: WakerName, entries: &[Entry]) -> WakerPlace {
    let mut place = match name {
        WakerName::Parker => WakerPlace::Hand,
        WakerName::Copy { .. } => WakerPlace::New,
    };
    for entry in entries {
        match move_of(entry) {
            Some((moved, _, to)) if moved == name => place = to,
            _ => {}
        }
    }
    place
}

/// Whether a waker is in the cell after these entries.
fn is_cell_full(entries: &[Entry]) -> bool {
    let mut is_full = false;
    for entry in entries {
        match move_of(entry) {
            Some((_, _, WakerPlace::Cell)) => is_full = true,
            Some((_, WakerPlace::Cell, _)) => is_full = false,
            _ => {}
        }
    }
    is_full
}

fn may_go(name: WakerName, from: WakerPlace, to: WakerPlace) -> bool {
    match (from, to) {
        (WakerPlace::New, WakerPlace::Hand)
        | (WakerPlace::Hand, WakerPlace::Cell)
        | (WakerPlace::Cell, WakerPlace::SenderHand)
        | (WakerPlace::SenderHand, WakerPlace::Used) => true,
        (WakerPlace::Hand | WakerPlace::Cell, WakerPlace::Dropped) => name != WakerName::Parker,
        (WakerPlace::Cell, WakerPlace::Hand) => name == WakerName::Parker,
        _ => false,
    }
}

/// The end that moves a waker there: the sender moves it into its hand, and uses it by a wake.
fn mover_to(to: WakerPlace) -> End {
    match to {
        WakerPlace::SenderHand | WakerPlace::Used => End::Sender,
        WakerPlace::New | WakerPlace::Hand | WakerPlace::Cell | WakerPlace::Dropped => {
            End::Receiver
        }
    }
}

/// Whether a copy that this entry makes is named for the poll's task and for the entry.
fn is_named_so(name: WakerName, mark: Mark) -> bool {
    match (name, mark.call) {
        (WakerName::Copy { number, entry }, Call::Poll(task)) => {
            number == task && entry == mark.number
        }
        _ => false,
    }
}

fn may_end(name: WakerName, place: WakerPlace) -> bool {
    match place {
        WakerPlace::Used => true,
        WakerPlace::Dropped => name != WakerName::Parker,
        WakerPlace::Hand => name == WakerName::Parker,
        WakerPlace::New | WakerPlace::Cell | WakerPlace::SenderHand => false,
    }
}
