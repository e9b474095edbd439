//! Tests of a deadline that is over after each step of a `send`.

use crate::answers::assert_traces;

/// Inputs whose deadline is over after each step of a `send`, each with its trace.
const TRACES: &[(&str, &str); 6] = &[
    // before the `send` begins
    (
        "S send 7\nR deadline\nX rrrorr\n",
        "1 R load 3>3
2 R write-waker 3>3 p:Hand>Cell
3 R swap 3>0
4 R clock 0>0 over
5 R swap 0>3
6 R withdraw 3>3 p:Cell>Hand = Err(Timeout)
rest NotSent(7)
block here
",
    ),
    // after the message was written
    (
        "S send 7\nR deadline\nX rrrsorr\n",
        "1 R load 3>3
2 R write-waker 3>3 p:Hand>Cell
3 R swap 3>0
4 S write-message 0>0 m:NotSent>InCell
5 R clock 0>0 over
6 R swap 0>3
7 R withdraw 3>3 p:Cell>Hand = Err(Timeout)
rest InCell(7)
block here
",
    ),
    // after the word was changed
    (
        "S send 7\nR deadline\nX rrrssorsssrrrr\n",
        "1 R load 3>3
2 R write-waker 3>3 p:Hand>Cell
3 R swap 3>0
4 S write-message 0>0 m:NotSent>InCell
5 S add 0>1
6 R clock 1>1 over
7 R swap 1>3
8 S take-waker 3>3 p:Cell>SenderHand
9 S swap 3>4
10 S wake 4>4 p:SenderHand>Used token+ = Ok
11 R park 4>4 token-
12 R load 4>4
13 R store 4>2
14 R take-message 2>2 m:InCell>Delivered = Ok(7)
rest Delivered(7)
block here
",
    ),
    // after the waker was taken
    (
        "S send 7\nR deadline\nX rrrsssorssrrrr\n",
        "1 R load 3>3
2 R write-waker 3>3 p:Hand>Cell
3 R swap 3>0
4 S write-message 0>0 m:NotSent>InCell
5 S add 0>1
6 S take-waker 1>1 p:Cell>SenderHand
7 R clock 1>1 over
8 R swap 1>3
9 S swap 3>4
10 S wake 4>4 p:SenderHand>Used token+ = Ok
11 R park 4>4 token-
12 R load 4>4
13 R store 4>2
14 R take-message 2>2 m:InCell>Delivered = Ok(7)
rest Delivered(7)
block here
",
    ),
    // after the last word was stored
    (
        "S send 7\nR deadline\nX rrrssssorrr\n",
        "1 R load 3>3
2 R write-waker 3>3 p:Hand>Cell
3 R swap 3>0
4 S write-message 0>0 m:NotSent>InCell
5 S add 0>1
6 S take-waker 1>1 p:Cell>SenderHand
7 S swap 1>4
8 R clock 4>4 over
9 R swap 4>3
10 R store 3>2
11 R take-message 2>2 m:InCell>Delivered = Ok(7)
rest Delivered(7)
block here
",
    ),
    // after the wake
    (
        "S send 7\nR deadline\nX rrrsssssorrr\n",
        "1 R load 3>3
2 R write-waker 3>3 p:Hand>Cell
3 R swap 3>0
4 S write-message 0>0 m:NotSent>InCell
5 S add 0>1
6 S take-waker 1>1 p:Cell>SenderHand
7 S swap 1>4
8 S wake 4>4 p:SenderHand>Used token+ = Ok
9 R clock 4>4 over
10 R swap 4>3
11 R store 3>2
12 R take-message 2>2 m:InCell>Delivered = Ok(7)
rest Delivered(7)
block here
",
    ),
];

#[test]
fn a_deadline_runs_out_after_each_step_of_a_send(rt: HostRuntime) {
    assert_traces(&rt, TRACES);
}
