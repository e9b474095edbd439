//! The names of ends, steps, places and wakers.

ghost use Rattle.std.specs.Prelude.{◌≡◌, ◌++◌, codes};
ghost use Rattle.oneshot_text.specs.Names.{letter_of_end, name_of_operation, name_of_step, name_of_place, name_of_waker_place};

use oneshot_machine::machine::{End, Step};
use oneshot_machine::states::Op;
use oneshot_replay::{Place, WakerName, WakerPlace};
use std::fmt;

/// An end's letter, between two spaces.
pub(crate) fn end_letter(end: End) -> &'static str
    ensures { result.now ≡ codes " " ++ letter_of_end end ++ codes " " }
{
    match end {
        End::Sender => " S ",
        End::Receiver => " R ",
    }
}

/// A step's name, and a space.
pub(crate) fn step_name(step: Step) -> &'static str
    ensures { result.now ≡ name_of_step step ++ codes " " }
{
    match step {
        Step::Word(operation) => operation_name(operation),
        Step::WriteMessage => "write-message ",
        Step::TakeMessage => "take-message ",
        Step::DropMessage => "drop-message ",
        Step::WriteWaker => "write-waker ",
        Step::TakeWaker => "take-waker ",
        Step::Withdraw => "withdraw ",
        Step::Park => "park ",
        Step::Clock => "clock ",
        Step::Copy => "copy ",
        Step::Wake => "wake ",
        Step::WakeOwn => "wake ",
        Step::Free => "free ",
        Step::Plain => "plain ",
    }
}

/// An operation's name, and a space.
fn operation_name(operation: Op) -> &'static str
    ensures { result.now ≡ name_of_operation operation ++ codes " " }
{
    match operation {
        Op::Load => "load ",
        Op::Store(_) => "store ",
        Op::Swap(_) => "swap ",
        Op::Exchange(_, _) => "exchange ",
        Op::Add => "add ",
        Op::Xor => "xor ",
    }
}

/// The name of a place of the message.
pub(crate) fn message_place(place: Place) -> &'static str
    ensures { result.now ≡ name_of_place place }
{
    match place {
        Place::NotSent => "NotSent",
        Place::InCell => "InCell",
        Place::InError => "InError",
        Place::Delivered => "Delivered",
        Place::FromError => "FromError",
        Place::Dropped => "Dropped",
    }
}

/// The name of a place of a waker.
pub(crate) fn waker_place(place: WakerPlace) -> &'static str
    ensures { result.now ≡ name_of_waker_place place }
{
    match place {
        WakerPlace::New => "New",
        WakerPlace::Hand => "Hand",
        WakerPlace::Cell => "Cell",
        WakerPlace::SenderHand => "SenderHand",
        WakerPlace::Used => "Used",
        WakerPlace::Dropped => "Dropped",
    }
}

/// A waker. It displays as `p` for the parker's half; a copy as `w`, its number, `@` and the entry that
/// made it.
#[derive(Clone, Copy)]
pub(crate) struct WakerText(pub(crate) WakerName);

impl fmt::Display for WakerText {
    ghost use Rattle.std.specs.Prelude.{Some};
    ghost use Rattle.oneshot_text.specs.Names.{name_of_waker};

    ghost output = { λ w. Some (name_of_waker w.0) };

    fn fmt<W: fmt::Write>(&self, f: &mut fmt::Formatter<W>) -> fmt::Result {
        match self.0 {
            WakerName::Parker => write!(f, "p"),
            WakerName::Copy { number, entry } => write!(f, "w{number}@{entry}"),
        }
    }
}
