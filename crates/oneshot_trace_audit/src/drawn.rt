//! Tests of drawn schedules of pairs of scripts: the auditor accepts each trace, and the digests of traces
//! and texts are those that another program computed.

use crate::auditor::{Finding, Scripts, audit};
use crate::digest::Digest;
use crate::moves::Draws;
use crate::run::{print_run, run};
use crate::scripts::scripts_of;
use oneshot_asserts::{Asserts, assert_same};
use oneshot_replay::Move;
use std::alloc::AllocGlobal;

/// How many moves are drawn from a seed.
const MOVES: usize = 64;

/// The lines of a pair of scripts, and the digests of its traces and of their printed text.
///
/// Another program computed both digests, from both transition tables and the format of entries and text.
type Pair = (&'static str, u64, u64);

/// The digests of all traces of a pair of scripts, and of their printed text.
#[derive(Drop)]
struct Digests {
    traces: Digest,
    texts: Digest,
}

impl Digests {
    /// Runs both scripts under the schedule of `seed`, and adds the trace and its text. Fails unless the
    /// auditor accepts the trace.
    fn add(
        &mut self,
        rt: &(impl Asserts + AllocGlobal),
        scripts: &Scripts,
        lines: &str,
        seed: u64,
    ) {
        let moves = schedule(seed);
        let trace = run(rt, scripts_of(rt, lines), &moves);
        assert_accepted(rt, audit(scripts, &trace), lines, seed);
        self.traces.add_trace(&trace);
        let printed = print_run(&mut self.texts, scripts_of(rt, lines), &moves);
        printed.expect(rt, "a printed run");
    }
}

/// Fails if the audit of the trace of both scripts under the schedule of `seed` found a fault.
fn assert_accepted(rt: &impl Asserts, audited: Result<(), Finding>, lines: &str, seed: u64) {
    assert_same!(rt; (lines, seed, audited), (lines, seed, Ok(())));
}

/// Draws a schedule from each seed from 1 to 10,000, and runs both scripts under it. Asserts that the
/// auditor accepts each trace. Returns the digests of all traces and of all texts.
fn drawn_digests(rt: &(impl Asserts + AllocGlobal), lines: &str) -> (u64, u64) {
    let scripts = scripts_of(rt, lines);
    let mut digests = Digests {
        traces: Digest::new(),
        texts: Digest::new(),
    };
    for seed in 1..=10_000 {
        digests.add(rt, &scripts, lines, seed);
    }
    (digests.traces.value(), digests.texts.value())
}

/// Asserts that the auditor accepts each trace that is drawn for the pair, and that the digests of all traces
/// and of all texts are the pair's.
fn assert_drawn(rt: &(impl Asserts + AllocGlobal), pair: Pair) {
    let (lines, traces, texts) = pair;
    let drawn = drawn_digests(rt, lines);
    assert_same!(rt; (lines, drawn), (lines, (traces, texts)));
}

#[test]
#[should_panic(expected = "right: (\"S send 7\\nR recv\", (0, 0))")]
fn another_digest_ends_a_test(rt: HostRuntime) {
    assert_drawn(&rt, ("S send 7\nR recv", 0, 0));
}

fn schedule(seed: u64) -> [Move; MOVES] {
    let mut draws = Draws::new(seed);
    let mut moves = [Move::Sender; MOVES];
    for drawn in &mut moves {
        *drawn = draws.draw();
    }
    moves
}

const TRIES: [Pair; 3] = [
    (
        "S send 7\nR try try drop",
        0xae26_69a1_7266_c2b9,
        0xcff8_4de4_a5da_9a0e,
    ),
    (
        "S drop\nR try try drop",
        0xb17a_83c1_5fa4_0857,
        0x089b_067e_abaa_1494,
    ),
    (
        "S closed send 7 inner into\nR try try drop",
        0x90d6_db8b_dd9b_ef05,
        0xdddb_08b2_61dc_90d4,
    ),
];

#[test]
fn a_send_beside_two_tries(rt: HostRuntime) {
    assert_drawn(&rt, TRIES[0]);
}

#[test]
fn a_drop_beside_two_tries(rt: HostRuntime) {
    assert_drawn(&rt, TRIES[1]);
}

#[test]
fn a_look_and_a_send_beside_two_tries(rt: HostRuntime) {
    assert_drawn(&rt, TRIES[2]);
}

const RECEIVES_BY_VALUE: [Pair; 3] = [
    (
        "S send 7\nR recv",
        0x0df2_6dd1_bf1c_cc1c,
        0x6542_8ebb_1eb1_4d02,
    ),
    (
        "S drop\nR recv",
        0xbf11_9959_eb55_8ef0,
        0x9f98_0f8a_2e55_2ff5,
    ),
    (
        "S closed send 7 inner into\nR recv",
        0x9b6e_7fff_b4bf_7348,
        0x5971_c128_887c_d81c,
    ),
];

#[test]
fn a_send_beside_a_receive_by_value(rt: HostRuntime) {
    assert_drawn(&rt, RECEIVES_BY_VALUE[0]);
}

#[test]
fn a_drop_beside_a_receive_by_value(rt: HostRuntime) {
    assert_drawn(&rt, RECEIVES_BY_VALUE[1]);
}

#[test]
fn a_look_and_a_send_beside_a_receive_by_value(rt: HostRuntime) {
    assert_drawn(&rt, RECEIVES_BY_VALUE[2]);
}

const RECEIVES_BY_REFERENCE: [Pair; 3] = [
    (
        "S send 7\nR ref drop",
        0x76b4_e6fa_5b7a_7e90,
        0x3db9_1d8e_9dc6_e1de,
    ),
    (
        "S drop\nR ref drop",
        0x6e11_7663_154c_a1b2,
        0x5f0c_945e_7ab3_284a,
    ),
    (
        "S closed send 7 inner into\nR ref drop",
        0xcaa9_5aa6_1f2a_0ef0,
        0xe2f7_1790_fab2_71c2,
    ),
];

#[test]
fn a_send_beside_a_receive_by_reference(rt: HostRuntime) {
    assert_drawn(&rt, RECEIVES_BY_REFERENCE[0]);
}

#[test]
fn a_drop_beside_a_receive_by_reference(rt: HostRuntime) {
    assert_drawn(&rt, RECEIVES_BY_REFERENCE[1]);
}

#[test]
fn a_look_and_a_send_beside_a_receive_by_reference(rt: HostRuntime) {
    assert_drawn(&rt, RECEIVES_BY_REFERENCE[2]);
}

const DEADLINES: [Pair; 3] = [
    (
        "S send 7\nR deadline try drop",
        0x01df_5b5e_9fde_2ada,
        0xf57b_5934_ea70_003a,
    ),
    (
        "S drop\nR deadline try drop",
        0xbd0b_8ebe_a5ec_db5e,
        0x4390_cb68_8b57_0cb5,
    ),
    (
        "S closed send 7 inner into\nR deadline try drop",
        0x4746_26d8_0b5d_be23,
        0x0309_26ac_faf2_da6b,
    ),
];

#[test]
fn a_send_beside_a_deadline(rt: HostRuntime) {
    assert_drawn(&rt, DEADLINES[0]);
}

#[test]
fn a_drop_beside_a_deadline(rt: HostRuntime) {
    assert_drawn(&rt, DEADLINES[1]);
}

#[test]
fn a_look_and_a_send_beside_a_deadline(rt: HostRuntime) {
    assert_drawn(&rt, DEADLINES[2]);
}

const ENDLESS_WAITS: [Pair; 3] = [
    (
        "S send 7\nR forever",
        0xfcbe_ff98_4572_910a,
        0xb57f_daaa_d216_5f4c,
    ),
    (
        "S drop\nR forever",
        0x0bd5_ea37_93b0_abf9,
        0x5450_d0f3_9bb6_b84a,
    ),
    (
        "S closed send 7 inner into\nR forever",
        0xc7ad_dcf9_03e4_d9a6,
        0xb73c_3a71_a2e9_1ece,
    ),
];

#[test]
fn a_send_beside_an_endless_wait(rt: HostRuntime) {
    assert_drawn(&rt, ENDLESS_WAITS[0]);
}

#[test]
fn a_drop_beside_an_endless_wait(rt: HostRuntime) {
    assert_drawn(&rt, ENDLESS_WAITS[1]);
}

#[test]
fn a_look_and_a_send_beside_an_endless_wait(rt: HostRuntime) {
    assert_drawn(&rt, ENDLESS_WAITS[2]);
}

const POLLS: [Pair; 3] = [
    (
        "S send 7\nR future poll 1 poll 2 poll 3 drop",
        0xc24d_c315_6763_fa34,
        0x40cf_d14a_f4cd_b8b8,
    ),
    (
        "S drop\nR future poll 1 poll 2 poll 3 drop",
        0x125c_7e7b_50c6_3781,
        0x3a5f_5b30_0ac3_88a0,
    ),
    (
        "S closed send 7 inner into\nR future poll 1 poll 2 poll 3 drop",
        0x3c50_4faa_3ef0_9567,
        0x6966_eefe_8d78_9dc1,
    ),
];

#[test]
fn a_send_beside_three_polls(rt: HostRuntime) {
    assert_drawn(&rt, POLLS[0]);
}

#[test]
fn a_drop_beside_three_polls(rt: HostRuntime) {
    assert_drawn(&rt, POLLS[1]);
}

#[test]
fn a_look_and_a_send_beside_three_polls(rt: HostRuntime) {
    assert_drawn(&rt, POLLS[2]);
}

const TRIES_OF_A_FUTURE: [Pair; 3] = [
    (
        "S send 7\nR future poll 1 try poll 2 try drop",
        0x7323_1dad_8b9e_b9c7,
        0x1c1c_3161_d113_6056,
    ),
    (
        "S drop\nR future poll 1 try poll 2 try drop",
        0x511a_7b46_b8ea_e8d0,
        0x688c_3312_06ce_25a3,
    ),
    (
        "S closed send 7 inner into\nR future poll 1 try poll 2 try drop",
        0x838f_8605_2ff4_1969,
        0xa6ae_4b23_2ddd_dac8,
    ),
];

#[test]
fn a_send_beside_polls_and_tries(rt: HostRuntime) {
    assert_drawn(&rt, TRIES_OF_A_FUTURE[0]);
}

#[test]
fn a_drop_beside_polls_and_tries(rt: HostRuntime) {
    assert_drawn(&rt, TRIES_OF_A_FUTURE[1]);
}

#[test]
fn a_look_and_a_send_beside_polls_and_tries(rt: HostRuntime) {
    assert_drawn(&rt, TRIES_OF_A_FUTURE[2]);
}
