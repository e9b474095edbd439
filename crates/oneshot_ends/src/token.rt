//! The two halves of a thread's parker, under the rule of its token: the waking half gives the token once, and the
//! parking half takes it once.

ghost use Rattle.std.specs.Prelude.{◌≡◌, Bool, true, false, ◌||◌, IfOk};
ghost use Rattle.std.specs.Arc.{arc_value};
ghost use Rattle.crossbeam_utils.specs.Token.{IsSamePass, parker_view};
ghost use Rattle.oneshot_ends.specs.declared.token.Half.TheVariants.{Both, Parking, Waking};
ghost use Rattle.oneshot_ends.specs.Tokens.{TokenIs, took};

use crate::ground::ChannelReceiver;
use atomic_table::Split;
use crossbeam_utils::rule::{Outcome, Protocol};
use crossbeam_utils::sync::parker::{Pass, RuledParker, RuledUnparker};
use oneshot_word::Promise;
use std::alloc::{AllocError, Global};
use std::marker::Model;
use std::sync::Wait;
use std::time::{Clock, Instant};

/// What a half of a parker knows of the token. Only proofs use it: no value of it is made.
#[derive(Drop)]
pub(crate) enum Half {
    /// The undivided parker, which has done nothing.
    Both,
    /// The parking half: whether it took the token.
    Parking(bool),
    /// The waking half: whether it gave the token.
    Waking(bool),
}

/// The rule that both halves keep.
pub(crate) struct TokenRule;

impl Protocol<bool, Half> for TokenRule {
    ghost holds = { TokenIs };

    ghost first = { Both };
}

struct SplitsToken;

impl Split<Half> for SplitsToken {
    ghost left = { λ _. Parking false };

    ghost right = { λ _. Waking false };
}

struct Takes;

impl Outcome<bool, Half> for Takes {
    ghost then = { λ before was _ after.
        (was ≡ true → took before ≡ false) × (after ≡ Parking (was || took before)) };
}

struct Gives;

impl Outcome<bool, Half> for Gives {
    ghost then = { λ _ _ _ after. after ≡ Waking true };
}

/// The half by which a thread parks. A contract sees its parker, and whether it took the token.
// It has no `Drop`, so that none can be forgotten.
pub(crate) struct ParkingHalf {
    parker: RuledParker<Half, TokenRule>,
    pass: Pass<Half>,
    // Whether it took the token.
    has_taken: bool,
}

impl Model for ParkingHalf {
    ghost use Rattle.std.specs.Prelude.{◌≡◌};
    ghost use Rattle.std.specs.Arc.{arc_value};
    ghost use Rattle.crossbeam_utils.specs.Token.{parker_view};
    ghost use Rattle.oneshot_ends.specs.declared.token.Half.TheVariants.{Parking};
    ghost use Rattle.oneshot_ends.specs.Tokens.{ParkingView, took};

    ghost Value = { ParkingView };

    ghost view = { λ p. record { taken = took (parker_view p.pass); parker = p.pass.table_id } };

    ghost invariant = { λ p. (p.pass.table_id ≡ (arc_value p.parker.unparker.state).shared.table_id)
        × (parker_view p.pass ≡ Parking (took (parker_view p.pass)))
        × (p.has_taken ≡ took (parker_view p.pass)) };
}

/// The half that wakes the thread. It has not given the token yet.
#[derive(Drop)]
pub struct WakingHalf {
    unparker: RuledUnparker<Half, TokenRule>,
    pass: Pass<Half>,
    ghost one_parker: { pass.table_id ≡ (arc_value unparker.state).shared.table_id },
    ghost not_given: { parker_view pass ≡ Waking false },
}

/// Evidence that a waking half gave the token. It has the half's pass, and only `WakingHalf::wake` makes one.
#[derive(Drop)]
pub(crate) struct Given {
    pass: Pass<Half>,
    ghost given: { parker_view pass ≡ Waking true },
}

/// Makes a parker in its halves, without a token. `Err`: an allocation failed.
// Inlined, so that the parking half is made in its place.
#[inline(always)]
pub(crate) fn parker(alloc: Global) -> Result<(ParkingHalf, WakingHalf), AllocError>
    ensures no_token { IfOk result (λ halves. halves.0.taken ≡ false) }
    ensures one_parker { IfOk result (λ halves. halves.1.pass.table_id ≡ halves.0.parker) }
{
    let (parker, mut pass): (RuledParker<Half, TokenRule>, Pass<Half>) = RuledParker::ruled(alloc)?;
    let unparker = parker.unparker().clone()?;
    let waking = unparker.split_pass::<SplitsToken>(&mut pass);
    Ok((
        ParkingHalf {
            parker,
            pass,
            has_taken: false,
        },
        WakingHalf {
            unparker,
            pass: waking,
        },
    ))
}

// The argument `receiver` is there for the clauses alone, which state whether it waits.
impl ParkingHalf {
    ghost use Rattle.oneshot_machine.specs.Phases.{receiver_at};
    ghost use Rattle.oneshot_ends.specs.NoLostWakeup.{SleepsOn};
    ghost use Rattle.oneshot_ends.specs.OwnWakers.{is_waiting};

    /// Releases the half's share of the parker. The receiver that is passed does not wait. No clause states that it is
    /// the half's own.
    pub(crate) fn let_go<T, P: Promise<T>>(self, receiver: &ChannelReceiver<T, P>)
        requires { is_waiting (receiver_at receiver.now.log) ≡ false }
    {
        let _ground = receiver;
        let ParkingHalf {
            parker: _,
            pass: _,
            has_taken: _,
        } = self;
    }

    /// Whether it took the token.
    pub(crate) fn has_taken(&self) -> bool
        ensures { result ≡ self.now.taken }
    {
        self.has_taken
    }

    /// Blocks until the token is there, and takes it. The receiver sleeps as `no_wakeup_is_lost` assumes.
    pub(crate) fn park<R: Wait, T, P: Promise<T>>(
        &mut self,
        rt: &R,
        receiver: &ChannelReceiver<T, P>,
    )
        requires { SleepsOn self.old receiver.now }
        ensures takes { self.new ≡ record self.old { taken = true } }
    {
        let _ground = receiver;
        self.parker.park_as::<Takes, R>(rt, &mut self.pass);
        self.has_taken = true;
    }

    /// Blocks until the token is there, and takes it, or until `deadline`. Returns whether it took the token. The
    /// receiver sleeps as `no_wakeup_is_lost` assumes.
    pub(crate) fn park_until<R: Wait + Clock, T, P: Promise<T>>(
        &mut self,
        rt: &R,
        deadline: Instant,
        receiver: &ChannelReceiver<T, P>,
    ) -> bool
        requires { SleepsOn self.old receiver.now }
        ensures takes { self.new ≡ record self.old { taken = result } }
    {
        let _ground = receiver;
        let in_time = self
            .parker
            .park_deadline_as::<Takes, R>(rt, &mut self.pass, deadline);
        self.has_taken = in_time;
        in_time
    }
}

impl WakingHalf {
    /// Gives the token, and wakes the thread.
    pub(crate) fn wake(self) -> Given
        ensures { IsSamePass self.pass result.pass }
    {
        let WakingHalf { unparker, mut pass } = self;
        unparker.unpark_as::<Gives>(&mut pass);
        Given { pass }
    }
}
