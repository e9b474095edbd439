//! The orders that runs have met, and those that the model allows and no run met.

use crate::differs::Differs;
use crate::follower::is_told;
use crate::model::{Given, MOST_SILENT, Model};
use crate::scripts::Scripts;
use oneshot_machine::machine::{End, Step};
use oneshot_replay::Move;
use std::alloc::{AllocError, Global};
use std::collections::BTreeSet;

/// The most runs of the model that are gone through, the most choices of one, and how often a receiver parks in it.
const MOST_RUNS: usize = 200_000;

const MOST_CHOICES: usize = 64;

const MOST_PARKS: usize = 3;

/// What a choice means: the end that goes next, and what it gets. The last is only for pairs that may be refused.
const CHOICES: [(End, Given); 4] = [
    (End::Sender, Given::Usual),
    (End::Receiver, Given::Usual),
    (End::Receiver, Given::Over),
    (End::Receiver, Given::Refusal),
];

/// The orders of the model, counted: all, and those that no run met, with the moves of the first of these.
#[derive(Drop)]
pub(crate) struct Missed {
    pub(crate) orders: usize,
    pub(crate) missed: usize,
    pub(crate) first: Option<Vec<Move>>,
    pub(crate) is_whole: bool,
}

/// A run of the model by some choices.
#[derive(Drop)]
enum Run {
    Ended(Model),
    /// A choice that is no step.
    Refused,
    /// It has more choices or parks than are gone through.
    Cut,
}

/// What a choice did.
enum Went {
    On,
    Nowhere,
    TooFar,
}

/// Goes through the orders of the model, and counts those that are not among `met`.
pub(crate) fn find_missed(
    alloc: Global,
    scripts: &Scripts,
    met: &BTreeSet<u64>,
) -> Result<Missed, Differs> {
    let mut told = Missed::none();
    let mut seen = BTreeSet::new(alloc);
    let mut choices = Vec::new(alloc);
    for _ in 0..MOST_RUNS {
        told.take_up(
            alloc,
            &make_run(alloc, scripts, &mut choices)?,
            &mut seen,
            met,
        )?;
        if !next_choices(&mut choices, choices_of(scripts))? {
            return Ok(told);
        }
    }
    told.is_whole = false;
    Ok(told)
}

/// How many choices there are at each point of a run.
fn choices_of(scripts: &Scripts) -> usize {
    if scripts.may_refuse() {
        CHOICES.len()
    } else {
        CHOICES.len() - 1
    }
}

impl Missed {
    /// Before the first run.
    fn none() -> Missed {
        Missed {
            orders: 0,
            missed: 0,
            first: None,
            is_whole: true,
        }
    }

    /// Counts the order of a run, unless it was seen before.
    fn take_up(
        &mut self,
        alloc: Global,
        run: &Run,
        seen: &mut BTreeSet<u64>,
        met: &BTreeSet<u64>,
    ) -> Result<(), AllocError> {
        match run {
            Run::Ended(run) => {
                if seen.insert(run.digest())? {
                    self.count(alloc, run, met)?;
                }
            }
            Run::Refused => {}
            Run::Cut => self.is_whole = false,
        }
        Ok(())
    }

    fn count(&mut self, alloc: Global, run: &Model, met: &BTreeSet<u64>) -> Result<(), AllocError> {
        self.orders = self.orders.saturating_add(1);
        if met.contains(&run.digest()) {
            return Ok(());
        }
        self.missed = self.missed.saturating_add(1);
        if self.first.is_none() {
            self.first = Some(Vec::from_slice(alloc, run.moves())?);
        }
        Ok(())
    }
}

/// Makes a run by these choices, and where they end by the first ones. The last is the one that ends the run early.
fn make_run(alloc: Global, scripts: &Scripts, choices: &mut Vec<usize>) -> Result<Run, Differs> {
    let mut run = scripts.begin(alloc)?;
    Ok(match go_by(&mut run, choices)? {
        Went::On => Run::Ended(run),
        Went::Nowhere => Run::Refused,
        Went::TooFar => Run::Cut,
    })
}

/// Makes the steps of all choices, until both ends have made their calls.
fn go_by(run: &mut Model, choices: &mut Vec<usize>) -> Result<Went, Differs> {
    for at in 0..MOST_CHOICES {
        if !run.has_call(End::Sender) && !run.has_call(End::Receiver) {
            return Ok(Went::On);
        }
        match go(run, choice_at(choices, at)?)? {
            Went::On => {}
            ended => return Ok(ended),
        }
    }
    Ok(Went::TooFar)
}

/// The choice at this place. Where the choices end, it is the first one, which then joins them.
fn choice_at(choices: &mut Vec<usize>, at: usize) -> Result<usize, AllocError> {
    if let Some(chosen) = choices.get(at) {
        return Ok(*chosen);
    }
    choices.push(0)?;
    Ok(0)
}

/// Makes the steps of a choice, up to one that a word reports.
fn go(run: &mut Model, chosen: usize) -> Result<Went, Differs> {
    match CHOICES.get(chosen) {
        Some((end, given)) if run.has_call(*end) => go_on(run, *end, *given),
        _ => Ok(Went::Nowhere),
    }
}

/// Makes the steps of an end, up to one that a word reports. One of them has to ask for what is given, unless that is
/// the usual.
fn go_on(run: &mut Model, end: End, given: Given) -> Result<Went, Differs> {
    let mut is_own = matches!(given, Given::Usual);
    for _ in 0..MOST_SILENT {
        let Some(step) = run.next_step(end) else {
            return Ok(if is_own { Went::On } else { Went::Nowhere });
        };
        let asks = asks_for(run, step, given);
        is_own = is_own || asks;
        if is_told(step) && !is_own {
            return Ok(Went::Nowhere);
        }
        run.advance(end, if asks { given } else { Given::Usual })?;
        if is_told(step) {
            return Ok(end_choice(run));
        }
    }
    Err(Differs::TooLong)
}

/// What a choice did that has led a run here.
fn end_choice(run: &Model) -> Went {
    if run.parks() > MOST_PARKS {
        Went::TooFar
    } else {
        Went::On
    }
}

/// Whether a step of the receiver depends on what it gets.
fn asks_for(run: &Model, step: Step, given: Given) -> bool {
    match given {
        Given::Usual => false,
        Given::Over => matches!(step, Step::Clock) && !run.computes_deadline(),
        Given::Refusal => matches!(step, Step::Copy) && !run.has_older_copy(),
    }
}

/// Moves to the next choices, of so many kinds; `false` if there are none.
fn next_choices(choices: &mut Vec<usize>, kinds: usize) -> Result<bool, AllocError> {
    for _ in 0..MOST_CHOICES {
        let Some(last) = choices.pop() else {
            return Ok(false);
        };
        let next = last.saturating_add(1);
        if next < kinds {
            choices.push(next)?;
            return Ok(true);
        }
    }
    Ok(false)
}
