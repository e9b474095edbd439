//! Prefixes of texts that ask for a run.

use crate::text::{Case, assert_faults};

const WITHOUT_A_SCHEDULE: &[Case; 21] = &[
    ("", "line 1 is missing"),
    ("S", "line 2 is missing"),
    ("S ", "line 1: unknown word 1"),
    ("S s", "line 1: unknown word 1"),
    ("S se", "line 1: unknown word 1"),
    ("S sen", "line 1: unknown word 1"),
    ("S send", "line 1: bad number at word 2"),
    ("S send ", "line 1: bad number at word 2"),
    ("S send 7", "line 2 is missing"),
    ("S send 7\n", "line 2 is missing"),
    ("S send 7\nR", "line 3 is missing"),
    ("S send 7\nR ", "line 2: unknown word 1"),
    ("S send 7\nR t", "line 2: unknown word 1"),
    ("S send 7\nR tr", "line 2: unknown word 1"),
    ("S send 7\nR try", "line 3 is missing"),
    ("S send 7\nR try ", "line 2: unknown word 2"),
    ("S send 7\nR try d", "line 2: unknown word 2"),
    ("S send 7\nR try dr", "line 2: unknown word 2"),
    ("S send 7\nR try dro", "line 2: unknown word 2"),
    ("S send 7\nR try drop", "line 3 is missing"),
    ("S send 7\nR try drop\n", "line 3 is missing"),
];

const OF_LOOKS_AND_OF_AN_ERRORS_SCRIPT: &[Case; 23] = &[
    ("S c", "line 1: unknown word 1"),
    ("S close", "line 1: unknown word 1"),
    ("S closed", "line 2 is missing"),
    ("S closed ", "line 1: unknown word 2"),
    ("S closed s", "line 1: unknown word 2"),
    ("S closed send", "line 1: bad number at word 3"),
    ("S closed send ", "line 1: bad number at word 3"),
    ("S closed send 5", "line 2 is missing"),
    ("S closed send 5 ", "line 1: unknown word 4"),
    ("S closed send 5 i", "line 1: unknown word 4"),
    ("S closed send 5 in", "line 1: unknown word 4"),
    ("S closed send 5 inne", "line 1: unknown word 4"),
    ("S closed send 5 inner", "line 2 is missing"),
    ("S closed send 5 inner ", "line 1: unknown word 5"),
    ("S closed send 5 inner in", "line 1: unknown word 5"),
    ("S closed send 5 inner into", "line 2 is missing"),
    ("S closed send 5 inner into\n", "line 2 is missing"),
    (
        "S closed send 5 inner into\nR ful",
        "line 2: unknown word 1",
    ),
    ("S closed send 5 inner into\nR full", "line 3 is missing"),
    (
        "S closed send 5 inner into\nR full c",
        "line 2: unknown word 2",
    ),
    (
        "S closed send 5 inner into\nR full closed",
        "line 3 is missing",
    ),
    (
        "S closed send 5 inner into\nR full closed ",
        "line 2: unknown word 3",
    ),
    (
        "S closed send 5 inner into\nR full closed drop\n",
        "line 3 is missing",
    ),
];

const OF_RECEIVES: &[Case; 8] = &[
    ("S\nR r", "line 2: unknown word 1"),
    ("S\nR re", "line 2: unknown word 1"),
    ("S\nR ref", "line 3 is missing"),
    ("S\nR ref ", "line 2: unknown word 2"),
    ("S\nR ref re", "line 2: unknown word 2"),
    ("S\nR ref rec", "line 2: unknown word 2"),
    ("S\nR ref recv", "line 3 is missing"),
    ("S\nR ref recv\n", "line 3 is missing"),
];

const OF_A_FUTURE: &[Case; 21] = &[
    ("S send 7\nR ", "line 2: unknown word 1"),
    ("S send 7\nR f", "line 2: unknown word 1"),
    ("S send 7\nR fu", "line 2: unknown word 1"),
    ("S send 7\nR fut", "line 2: unknown word 1"),
    ("S send 7\nR futu", "line 2: unknown word 1"),
    ("S send 7\nR futur", "line 2: unknown word 1"),
    ("S send 7\nR future", "line 3 is missing"),
    ("S send 7\nR future ", "line 2: unknown word 2"),
    ("S send 7\nR future p", "line 2: unknown word 2"),
    ("S send 7\nR future po", "line 2: unknown word 2"),
    ("S send 7\nR future pol", "line 2: unknown word 2"),
    ("S send 7\nR future poll", "line 2: bad number at word 3"),
    ("S send 7\nR future poll ", "line 2: bad number at word 3"),
    ("S send 7\nR future poll 1", "line 3 is missing"),
    ("S send 7\nR future poll 1 ", "line 2: unknown word 4"),
    ("S send 7\nR future poll 1 d", "line 2: unknown word 4"),
    ("S send 7\nR future poll 1 dr", "line 2: unknown word 4"),
    ("S send 7\nR future poll 1 dro", "line 2: unknown word 4"),
    ("S send 7\nR future poll 1 drop", "line 3 is missing"),
    ("S send 7\nR future poll 1 drop\n", "line 3 is missing"),
    (
        "S send 7\nR future poll 1 drop\nX ",
        "line 3: unknown word 1",
    ),
];

#[test]
fn each_front_has_its_fault(rt: HostRuntime) {
    assert_faults(&rt, WITHOUT_A_SCHEDULE);
    assert_faults(&rt, OF_LOOKS_AND_OF_AN_ERRORS_SCRIPT);
    assert_faults(&rt, OF_RECEIVES);
    assert_faults(&rt, OF_A_FUTURE);
}
