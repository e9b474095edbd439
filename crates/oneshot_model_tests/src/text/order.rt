//! Texts with two faults, of which the first is reported. Input after line 3 is reported last.

use crate::text::{Case, assert_faults};

const TWO_FAULTS: &[Case; 18] = &[
    ("Q\nQ\n", "line 1: must begin with S"),
    ("S wait\n", "line 1: unknown word 1"),
    ("S wait\nR wait\nX\n", "line 1: unknown word 1"),
    (
        "S drop drop\nR wait\n",
        "line 1: word 2 follows the last call",
    ),
    ("S\nR wait", "line 2: unknown word 1"),
    ("S\nR wait\nX q\n", "line 2: unknown word 1"),
    ("S wait drop drop\n", "line 1: unknown word 1"),
    ("S send x x\n", "line 1: bad number at word 2"),
    ("S send x into into\n", "line 1: bad number at word 2"),
    ("S closed wait send x\n", "line 1: unknown word 2"),
    ("S send 7 wait into into\n", "line 1: unknown word 3"),
    (
        "S send 7 into wait\nR wait\n",
        "line 1: word 4 follows the last call",
    ),
    ("S\nR wait drop drop\n", "line 2: unknown word 1"),
    ("S\nR drop wait\n", "line 2: word 2 follows the last call"),
    ("S\nR recv wait", "line 2: word 2 follows the last call"),
    ("S\nR ref wait recv ref\n", "line 2: unknown word 2"),
    ("S\nR\nX q s\n", "line 3: unknown word 1"),
    ("S wait\nR\nX\ns", "line 1: unknown word 1"),
];

const BEFORE_MORE_INPUT: &[Case; 12] = &[
    ("S\nR\nX\ns", "input after line 3"),
    ("s\nR\nX\ns", "line 1: must begin with S"),
    ("S\ns\nX\ns", "line 2: must begin with R"),
    ("S\nR\ns\ns", "line 3: must begin with X"),
    ("S s\nR\nX\ns", "line 1: unknown word 1"),
    ("S\nR s\nX\ns", "line 2: unknown word 1"),
    ("S\nR\nX q\ns", "line 3: unknown word 1"),
    ("S send s\nR\nX\ns", "line 1: bad number at word 2"),
    ("S\nR future poll s\nX\ns", "line 2: bad number at word 3"),
    ("S drop s\nR\nX\ns", "line 1: word 2 follows the last call"),
    ("S\nR drop s\nX\ns", "line 2: word 2 follows the last call"),
    ("S\nR\nX s s\ns", "line 3: word 2 follows the last call"),
];

#[test]
fn lines_go_in_order_and_words_from_left_to_right(rt: HostRuntime) {
    assert_faults(&rt, TWO_FAULTS);
}

#[test]
fn input_after_line_3_is_reported_last(rt: HostRuntime) {
    assert_faults(&rt, BEFORE_MORE_INPUT);
}
