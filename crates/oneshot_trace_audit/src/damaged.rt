//! Tests of damaged traces: the auditor refuses each, at the entry that breaks the definitions.

mod futures;
mod received;
mod refused;
mod unwoken;
mod waited;
mod waits;

use crate::auditor::{DrawnTrace, Fault, Finding, Scripts, audit};
use crate::damage::{Edit, apply};
use crate::run::run;
use crate::scripts::{MESSAGE, moves_of, scripts_of};
use oneshot_asserts::{Asserts, assert_same, assert_that};
use oneshot_machine::machine::End;
use oneshot_replay::Entry;
use oneshot_text::EntryLine;
use std::alloc::{AllocError, AllocGlobal, Global};

/// What is wrong, the schedule of the right trace, the changes that damage it, and the auditor's finding.
type Damage = (&'static str, &'static str, &'static [Edit], Finding);

/// The lines of both scripts, and damages to their traces.
type Damaged = (&'static str, &'static [Damage]);

/// The right trace of both scripts by this schedule.
fn right_trace(rt: &(impl Asserts + AllocGlobal), lines: &str, letters: &str) -> DrawnTrace {
    run(rt, scripts_of(rt, lines), &moves_of(rt, letters))
}

/// Damages the trace by these changes.
fn damaged_by(rt: &impl Asserts, mut trace: DrawnTrace, edits: &[Edit]) -> DrawnTrace {
    for change in edits {
        apply(rt, &mut trace, *change);
    }
    trace
}

/// Asserts that the auditor accepts the trace, and finds this in it once it is damaged.
fn assert_finds(rt: &impl Asserts, scripts: &Scripts, trace: DrawnTrace, damage: &Damage) {
    let (name, _, edits, finding) = damage;
    assert_accepts(rt, scripts, &trace, name);
    let trace = damaged_by(rt, trace, edits);
    assert_found(rt, scripts, &trace, name, *finding);
}

/// Asserts that the auditor accepts the trace, to which the damage of this name is not done yet.
fn assert_accepts(rt: &impl Asserts, scripts: &Scripts, trace: &DrawnTrace, name: &str) {
    assert_that!(rt; audit(scripts, trace).is_ok(), (name, "undamaged"));
}

/// Asserts that the auditor finds this in the trace, to which the damage of this name is done.
fn assert_found(
    rt: &impl Asserts,
    scripts: &Scripts,
    trace: &DrawnTrace,
    name: &str,
    finding: Finding,
) {
    assert_same!(rt; (name, audit(scripts, trace)), (name, Err(finding)));
}

/// Asserts for each damage that the auditor accepts the right trace, and finds this in the damaged one.
fn assert_refused(rt: &(impl Asserts + AllocGlobal), damaged: Damaged) {
    let (lines, damages) = damaged;
    let scripts = scripts_of(rt, lines);
    for damage in damages {
        let trace = right_trace(rt, lines, damage.1);
        assert_finds(rt, &scripts, trace, damage);
    }
}

/// A trace without a damage, with a finding that the auditor does not make.
const NO_DAMAGE: Damaged = (
    "S send 7\nR try drop",
    &[(
        "no damage",
        "ssrrrrr",
        &[],
        (1, Fault::FreedTooEarly(End::Sender)),
    )],
);

#[test]
#[should_panic(expected = "left: (\"no damage\", ")]
fn a_damage_that_is_not_found_ends_a_test(rt: HostRuntime) {
    assert_refused(&rt, NO_DAMAGE);
}

// Passes a trace that has lost an entry as a right one.
fn find_in_a_damaged_trace(rt: &(impl Asserts + AllocGlobal)) {
    let (lines, damages) = NO_DAMAGE;
    let scripts = scripts_of(rt, lines);
    for damage in damages {
        let trace = right_trace(rt, lines, damage.1);
        let trace = damaged_by(rt, trace, &[Edit::Remove(5)]);
        assert_finds(rt, &scripts, trace, damage);
    }
}

#[test]
#[should_panic(expected = "(\"no damage\", \"undamaged\")")]
fn a_trace_that_is_not_right_ends_a_test(rt: HostRuntime) {
    find_in_a_damaged_trace(&rt);
}

#[test]
fn a_message_that_is_received_or_dropped(rt: HostRuntime) {
    assert_refused(&rt, received::TAKEN);
    assert_refused(&rt, received::DROPPED);
    assert_refused(&rt, received::LOOKED_AT);
}

#[test]
fn a_message_that_is_refused(rt: HostRuntime) {
    assert_refused(&rt, refused::TAKEN_BACK);
    assert_refused(&rt, refused::DROPPED);
    assert_refused(&rt, refused::BESIDE_A_RECEIVE);
}

#[test]
fn a_receiver_that_parks(rt: HostRuntime) {
    assert_refused(&rt, waits::OVERDUE);
    assert_refused(&rt, waits::WOKEN);
    assert_refused(&rt, waits::LEFT_EARLY);
}

#[test]
fn a_future_that_is_polled(rt: HostRuntime) {
    assert_refused(&rt, futures::POLLED_ONCE);
    assert_refused(&rt, futures::POLLED_ANEW);
    assert_refused(&rt, futures::LEFT_BY_A_FUTURE);
    assert_refused(&rt, futures::POLLED_BESIDE_A_DROP);
}

#[test]
fn a_receiver_that_nothing_wakes(rt: HostRuntime) {
    assert_refused(&rt, unwoken::PARKED_AT_A_DROP);
    assert_refused(&rt, unwoken::PARKED_AT_A_SEND);
    assert_refused(&rt, unwoken::POLLED);
    assert_refused(&rt, unwoken::POLLED_BY_ANOTHER_TASK);
    assert_refused(&rt, unwoken::POLLED_AGAIN);
}

/// The lines of a trace whose message is `MESSAGE`.
fn lines_of(alloc: Global, trace: &DrawnTrace) -> Result<String, AllocError> {
    let mut text = String::new(alloc);
    for (number, entry) in (1usize..).zip(trace.entries.as_slice()) {
        write_line(&mut text, number, *entry)?;
    }
    Ok(text)
}

fn write_line(text: &mut String, number: usize, entry: Entry) -> Result<(), AllocError> {
    let line = EntryLine {
        number,
        entry,
        call: None,
        sender_call: None,
        message: MESSAGE,
    };
    writeln!(text, "{line}")
}

/// Asserts that this is the trace in `waited::LINES`, and that the auditor accepts it.
fn assert_waited(rt: &(impl Asserts + AllocGlobal), scripts: &Scripts, trace: &DrawnTrace) {
    let lines = lines_of(rt.alloc(), trace).expect(rt, "memory");
    assert_same!(rt;
        (lines.as_str(), audit(scripts, trace)),
        (waited::LINES, Ok(()))
    );
}

// A drop that waits for its sender breaks no definition: only the transition table and the bounds refuse it. In
// the damaged trace the drop frees the block while the sender, about to finish, still holds it.
#[test]
fn a_future_whose_drop_waits_for_its_sender(rt: HostRuntime) {
    let scripts = scripts_of(&rt, "S send 7\nR future poll 1 drop");
    let trace = waited::trace(rt.alloc()).expect(&rt, "memory");
    assert_waited(&rt, &scripts, &trace);
    let trace = damaged_by(&rt, trace, &[Edit::MoveBefore(15, 11)]);
    let freed = (11, Fault::FreedTooEarly(End::Receiver));
    assert_found(&rt, &scripts, &trace, "freed too early", freed);
}
