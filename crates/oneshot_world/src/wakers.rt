//! The wakers of the world: where each is, and what a step does to them.

ghost use Rattle.std.specs.Prelude.{◌≡◌, ◌||◌, None};
ghost use Rattle.std.specs.Option.{option_map};
ghost use Rattle.oneshot_world.specs.State.{hand_kept};
ghost use Rattle.oneshot_world.specs.Wakers.{opening_wakers, is_parker, withdrawn, back_to, wakers_left, waker_move, sets_token};
ghost use Rattle.oneshot_world.specs.declared.trace.WakerPlace.TheVariants as Places;

use crate::trace::{WakerName, WakerPlace};
use oneshot_machine::machine::Step;
use oneshot_machine::states::Op;

/// A move of a waker: the waker, and the places that it leaves and goes to.
type WakerMove = (WakerName, WakerPlace, WakerPlace);

/// What a move decides for the step that it makes.
#[derive(Clone, Copy)]
pub struct Input {
    /// Whether a clock is past the deadline, or whether a copy of a waker is refused.
    pub answer: bool,
    /// In a poll, the copy of a waker that the step may make.
    pub copy: Option<WakerName>,
    /// In a poll, the number of its own waker.
    pub own: Option<u64>,
}

/// The waker in each place, and the token on which the receiver parks.
#[derive(Clone, Copy)]
pub struct Wakers {
    /// The one in the channel's cell.
    pub cell: Option<WakerName>,
    /// The one in the receiver's hand.
    pub hand: Option<WakerName>,
    /// The one that the sender took from the cell.
    pub taken: Option<WakerName>,
    /// Whether the parker was woken since it last parked.
    pub token: bool,
}

impl Wakers {
    /// Before the first move: the receiver has its parker's half in its hand.
    pub(crate) fn new() -> Wakers
        ensures { result ≡ opening_wakers }
    {
        Wakers {
            cell: None,
            hand: Some(WakerName::Parker),
            taken: None,
            token: false,
        }
    }

    /// Moves wakers as `step` does if it finds `word` with the input `input`. Returns the waker that it
    /// moved, with the places that this left and went to.
    #[inline(always)]
    pub(crate) fn moved(&mut self, input: Input, word: u8, step: Step) -> Option<WakerMove>
        ensures leaves { self.new ≡ wakers_left input word self.old step }
        ensures waker { result ≡ waker_move input word self.old step }
    {
        // Most steps move no waker, so the moves are not inlined.
        match step {
            Step::WriteWaker => self.write(),
            Step::TakeWaker => self.take(),
            Step::Withdraw => self.withdraw(),
            Step::Wake => self.wake(),
            Step::Copy => {
                if input.answer {
                    None
                } else {
                    self.copy(input.copy)
                }
            }
            Step::Word(Op::Exchange(expected, _)) => {
                if word == expected {
                    None
                } else {
                    self.drop_hand()
                }
            }
            Step::Park => {
                self.token = false;
                None
            }
            _ => None,
        }
    }

    /// Moves the waker in the hand into the cell.
    #[inline(never)]
    fn write(&mut self) -> Option<WakerMove>
        ensures leaves { self.new ≡ record self.old { cell = self.old.hand; hand = None } }
        ensures waker { result ≡ option_map (λ name. (name, Places.Hand, Places.Cell)) self.old.hand }
    {
        self.cell = self.hand.take();
        Some((self.cell?, WakerPlace::Hand, WakerPlace::Cell))
    }

    /// Moves the waker in the cell to the sender.
    #[inline(never)]
    fn take(&mut self) -> Option<WakerMove>
        ensures leaves { self.new ≡ record self.old { cell = None; taken = self.old.cell } }
        ensures waker { result ≡ option_map (λ name. (name, Places.Cell, Places.SenderHand)) self.old.cell }
    {
        self.taken = self.cell.take();
        Some((self.taken?, WakerPlace::Cell, WakerPlace::SenderHand))
    }

    /// Takes the parker's half in the cell back into the hand, or drops a copy in the cell.
    #[inline(never)]
    fn withdraw(&mut self) -> Option<WakerMove>
        ensures leaves { self.new ≡ record self.old { cell = None; hand = withdrawn self.old.cell self.old.hand } }
        ensures waker { result ≡ option_map (λ name. (name, Places.Cell, back_to name)) self.old.cell }
    {
        match self.cell.take()? {
            WakerName::Parker => {
                self.hand = Some(WakerName::Parker);
                Some((WakerName::Parker, WakerPlace::Cell, WakerPlace::Hand))
            }
            copy => Some((copy, WakerPlace::Cell, WakerPlace::Dropped)),
        }
    }

    /// Uses the waker that the sender took.
    #[inline(never)]
    fn wake(&mut self) -> Option<WakerMove>
        ensures leaves { self.new ≡ record self.old {
          taken = None;
          token = self.old.token || is_parker self.old.taken;
        } }
        ensures waker { result ≡ option_map (λ name. (name, Places.SenderHand, Places.Used)) self.old.taken }
    {
        let waker = self.taken.take()?;
        self.token = self.token || waker == WakerName::Parker;
        Some((waker, WakerPlace::SenderHand, WakerPlace::Used))
    }

    /// Puts a new copy into the hand.
    #[inline(never)]
    fn copy(&mut self, copy: Option<WakerName>) -> Option<WakerMove>
        ensures leaves { self.new ≡ record self.old { hand = copy } }
        ensures waker { result ≡ option_map (λ name. (name, Places.New, Places.Hand)) copy }
    {
        self.hand = copy;
        Some((copy?, WakerPlace::New, WakerPlace::Hand))
    }

    /// Drops the waker in the hand.
    #[inline(never)]
    fn drop_hand(&mut self) -> Option<WakerMove>
        ensures leaves { self.new ≡ record self.old { hand = None } }
        ensures waker { result ≡ option_map (λ name. (name, Places.Hand, Places.Dropped)) self.old.hand }
    {
        Some((self.hand.take()?, WakerPlace::Hand, WakerPlace::Dropped))
    }

    /// Gives up the waker in the hand if `future`: the receiver becomes a future.
    pub(crate) fn keep_hand(&mut self, future: bool)
        ensures { self.new ≡ hand_kept future self.old }
    {
        if future {
            self.hand = None;
        }
    }

    /// Whether a step wakes the parker.
    pub(crate) fn sets_token(self, step: Step) -> bool
        ensures { result ≡ sets_token self step }
    {
        step == Step::Wake && self.taken == Some(WakerName::Parker)
    }
}
