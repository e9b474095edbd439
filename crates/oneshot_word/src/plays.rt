//! Types for the proofs alone: what each operation on the word notes in its seat.

ghost use Rattle.std.specs.Prelude.{◌≡◌, ◌∷◌, [], None};
ghost use Rattle.oneshot_word.specs.declared.rule.Role.TheVariants.{MakerWithSlot, Sender, Receiver};
ghost use Rattle.oneshot_word.specs.declared.rule.Slot.TheVariants.{Empty};
ghost use Rattle.oneshot_word.specs.Plays.{AddFound, XorFound, FinalSwapFound, LoadFound, StoreFound, SwapFound, ExchangeFound};
ghost use Rattle.oneshot_word.specs.Seats.{view};

use crate::promise::Promise;
use crate::rule::{Slot, View};
use atomic_table::{Play, Split};

pub(crate) struct Adds;

impl<T, H, K, P: Promise<T>> Play<Slot<T, H, K>, View<T, H, K, P>> for Adds {
    ghost then = { AddFound P.keeps };
}

pub(crate) struct Xors;

impl<T, H, K, P: Promise<T>> Play<Slot<T, H, K>, View<T, H, K, P>> for Xors {
    ghost then = { XorFound P.keeps };
}

pub(crate) struct Finishes;

impl<T, H, K, P: Promise<T>> Play<Slot<T, H, K>, View<T, H, K, P>> for Finishes {
    ghost then = { FinalSwapFound P.keeps };
}

pub(crate) struct Loads;

impl<T, H, K, P: Promise<T>> Play<Slot<T, H, K>, View<T, H, K, P>> for Loads {
    ghost then = { LoadFound P.keeps };
}

pub(crate) struct Stores;

impl<T, H, K, P: Promise<T>> Play<Slot<T, H, K>, View<T, H, K, P>> for Stores {
    ghost then = { StoreFound P.keeps };
}

pub(crate) struct Swaps;

impl<T, H, K, P: Promise<T>> Play<Slot<T, H, K>, View<T, H, K, P>> for Swaps {
    ghost then = { SwapFound P.keeps };
}

pub(crate) struct Exchanges;

impl<T, H, K, P: Promise<T>> Play<Slot<T, H, K>, View<T, H, K, P>> for Exchanges {
    ghost then = { ExchangeFound P.keeps };
}

// The maker takes the message's slot.
pub(crate) struct TakesMessageSlot;

impl<T, H, K, P> Play<Slot<T, H, K>, View<T, H, K, P>> for TakesMessageSlot {
    ghost then = { λ _ before found after. after ≡ (view before.0.about MakerWithSlot [] None None, (0, Empty) ∷ []) };
}

// The sender's seat keeps the slot, and the receiver gets a new seat.
pub(crate) struct MakesReceiver;

impl<T, H, K, P> Split<View<T, H, K, P>> for MakesReceiver {
    ghost left = { λ v. view v.about Sender [] None None };

    ghost right = { λ v. view v.about Receiver [] None None };
}
