//! Texts for each fault. Later lines may be missing.

use crate::text::{Case, assert_faults};

const OF_A_TEXT: &[Case; 53] = &[
    ("", "line 1 is missing"),
    ("S", "line 2 is missing"),
    ("S\n", "line 2 is missing"),
    ("S\nR", "line 3 is missing"),
    ("S\nR\n", "line 3 is missing"),
    ("\n", "line 1: must begin with S"),
    ("R\n", "line 1: must begin with S"),
    ("s\n", "line 1: must begin with S"),
    ("Sdrop\n", "line 1: must begin with S"),
    (" S\n", "line 1: must begin with S"),
    ("S\n\n", "line 2: must begin with R"),
    ("S\nX\n", "line 2: must begin with R"),
    ("S\nR\n\n", "line 3: must begin with X"),
    ("S\nR\nR", "line 3: must begin with X"),
    ("S \n", "line 1: unknown word 1"),
    ("S  drop\n", "line 1: unknown word 1"),
    ("S Drop\n", "line 1: unknown word 1"),
    ("S drop\r\n", "line 1: unknown word 1"),
    ("S\nR poll 1\n", "line 2: unknown word 1"),
    ("S\nR future try\n", "line 3 is missing"),
    ("S\nR future recv\n", "line 2: unknown word 2"),
    ("S\nR future future\n", "line 2: unknown word 2"),
    ("S\nR future poll 1 dr\n", "line 2: unknown word 4"),
    ("S\nR future poll 1 2\n", "line 2: unknown word 4"),
    ("S\nR future poll\n", "line 2: bad number at word 3"),
    ("S\nR future poll 07\n", "line 2: bad number at word 3"),
    ("S\nR future poll  1\n", "line 2: bad number at word 3"),
    (
        "S\nR future full poll drop\n",
        "line 2: bad number at word 4",
    ),
    (
        "S\nR future poll 18446744073709551616\n",
        "line 2: bad number at word 3",
    ),
    (
        "S\nR future drop poll 1\n",
        "line 2: word 3 follows the last call",
    ),
    (
        "S\nR try future closed drop \n",
        "line 2: word 5 follows the last call",
    ),
    ("S\nR tryrecv\n", "line 2: unknown word 1"),
    ("S\nR try  drop\n", "line 2: unknown word 2"),
    ("S\nR try try Try\n", "line 2: unknown word 3"),
    ("S\nR\nX sq\n", "line 3: unknown word 1"),
    ("S\nR\nX \n", "line 3: unknown word 1"),
    ("S\nR\nX  s\n", "line 3: unknown word 1"),
    ("S send\n", "line 1: bad number at word 2"),
    ("S send \n", "line 1: bad number at word 2"),
    ("S send  7\n", "line 1: bad number at word 2"),
    ("S send 07\n", "line 1: bad number at word 2"),
    ("S send 00\n", "line 1: bad number at word 2"),
    ("S send +7\n", "line 1: bad number at word 2"),
    ("S send -7\n", "line 1: bad number at word 2"),
    ("S send 7a\n", "line 1: bad number at word 2"),
    (
        "S send 18446744073709551616\nR\nX\n",
        "line 1: bad number at word 2",
    ),
    ("S drop drop\n", "line 1: word 2 follows the last call"),
    ("S drop \n", "line 1: word 2 follows the last call"),
    ("S\nR drop try\n", "line 2: word 2 follows the last call"),
    ("S\nR try drop \n", "line 2: word 3 follows the last call"),
    ("S\nR\nX s r\n", "line 3: word 2 follows the last call"),
    ("S\nR\nX s \n", "line 3: word 2 follows the last call"),
    ("S\nR\nX\n\n", "input after line 3"),
];

const OF_LOOKS: &[Case; 17] = &[
    ("S closed\n", "line 2 is missing"),
    ("S closed closed", "line 2 is missing"),
    ("S closed \n", "line 1: unknown word 2"),
    ("S closed  closed\n", "line 1: unknown word 2"),
    ("S closed closed Closed\n", "line 1: unknown word 3"),
    ("S closed 7\n", "line 1: unknown word 2"),
    ("S closed send\n", "line 1: bad number at word 3"),
    ("S closed send closed\n", "line 1: bad number at word 3"),
    (
        "S closed drop closed\n",
        "line 1: word 3 follows the last call",
    ),
    ("S full\n", "line 1: unknown word 1"),
    ("S inner\n", "line 1: unknown word 1"),
    ("S into\n", "line 1: unknown word 1"),
    ("S\nR closed full try\n", "line 3 is missing"),
    ("S\nR full full \n", "line 2: unknown word 3"),
    ("S\nR closed fullclosed\n", "line 2: unknown word 2"),
    ("S\nR inner\n", "line 2: unknown word 1"),
    (
        "S\nR full drop full\n",
        "line 2: word 3 follows the last call",
    ),
];

const OF_RECEIVES: &[Case; 20] = &[
    ("S ref\n", "line 1: unknown word 1"),
    ("S recv\n", "line 1: unknown word 1"),
    ("S closed recv\n", "line 1: unknown word 2"),
    ("S send recv\n", "line 1: bad number at word 2"),
    ("S send 7 recv\n", "line 1: unknown word 3"),
    ("S send 7 inner ref\n", "line 1: unknown word 4"),
    ("S drop recv\n", "line 1: word 2 follows the last call"),
    ("S\nR recv", "line 3 is missing"),
    ("S\nR ref ref try recv\n", "line 3 is missing"),
    ("S\nR Recv\n", "line 2: unknown word 1"),
    ("S\nR recv_ref\n", "line 2: unknown word 1"),
    ("S\nR ref \n", "line 2: unknown word 2"),
    ("S\nR ref  recv\n", "line 2: unknown word 2"),
    ("S\nR recv \n", "line 2: word 2 follows the last call"),
    ("S\nR recv ref\n", "line 2: word 2 follows the last call"),
    ("S\nR recv recv\n", "line 2: word 2 follows the last call"),
    ("S\nR recv drop\n", "line 2: word 2 follows the last call"),
    ("S\nR drop recv\n", "line 2: word 2 follows the last call"),
    (
        "S\nR ref recv 7 7\n",
        "line 2: word 3 follows the last call",
    ),
    ("S\nR\nX recv\n", "line 3: unknown word 1"),
];

const AFTER_A_SEND: &[Case; 15] = &[
    ("S send 7 inner inner\n", "line 2 is missing"),
    ("S send 7 x\n", "line 1: unknown word 3"),
    ("S send 7 \n", "line 1: unknown word 3"),
    ("S send 7 7\n", "line 1: unknown word 3"),
    ("S send 7 closed\n", "line 1: unknown word 3"),
    ("S send 7 send 7\n", "line 1: unknown word 3"),
    ("S send 7  into\n", "line 1: unknown word 3"),
    ("S send inner\n", "line 1: bad number at word 2"),
    ("S send 7 inner x\n", "line 1: unknown word 4"),
    ("S send 7 inner \n", "line 1: unknown word 4"),
    ("S send 7 inner closed\n", "line 1: unknown word 4"),
    (
        "S send 7 into drop\n",
        "line 1: word 4 follows the last call",
    ),
    ("S send 7 drop \n", "line 1: word 4 follows the last call"),
    (
        "S send 7 inner into inner\n",
        "line 1: word 5 follows the last call",
    ),
    (
        "S closed send 7 inner drop drop\n",
        "line 1: word 6 follows the last call",
    ),
];

const OF_A_LONG_LINE: &[Case; 2] = &[
    (
        "S closed closed closed closed closed closed closed closed closed try\n",
        "line 1: unknown word 10",
    ),
    (
        "S\nR try try try try try try try try try try recv try\n",
        "line 2: word 12 follows the last call",
    ),
];

const OF_A_FUTURE: &[Case; 3] = &[
    ("S\nR future try ref\n", "line 2: unknown word 3"),
    ("S\nR future poll try\n", "line 2: bad number at word 3"),
    (
        "S\nR future poll 1 try drop try\n",
        "line 2: word 6 follows the last call",
    ),
];

const OF_LETTERS_AND_TABS: &[Case; 9] = &[
    ("Q\n", "line 1: must begin with S"),
    ("S\nR\nS\n", "line 3: must begin with X"),
    ("S\tsend 7\nR\nX\n", "line 1: must begin with S"),
    ("S send\t7\nR\nX\n", "line 1: unknown word 1"),
    ("S send 7\nR try\t\nX\n", "line 2: unknown word 1"),
    ("S\nR\nX s\tr\n", "line 3: unknown word 1"),
    ("S\nR\nX S\n", "line 3: unknown word 1"),
    ("S\nR\nX srx\n", "line 3: unknown word 1"),
    ("S\nR\nX sr0\n", "line 3: unknown word 1"),
];

#[test]
fn each_fault_is_reported(rt: HostRuntime) {
    assert_faults(&rt, OF_A_TEXT);
    assert_faults(&rt, OF_LOOKS);
    assert_faults(&rt, OF_RECEIVES);
    assert_faults(&rt, AFTER_A_SEND);
    assert_faults(&rt, OF_A_LONG_LINE);
    assert_faults(&rt, OF_A_FUTURE);
    assert_faults(&rt, OF_LETTERS_AND_TABS);
}
