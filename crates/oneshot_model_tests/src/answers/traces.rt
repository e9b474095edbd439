//! Tests of inputs that are run, each with its trace.

use crate::answers::{SENT, SENT_TRACE, assert_trace, assert_traces};
use std::alloc::{AllocError, Global};

const OF_EACH_CALL: &[(&str, &str); 11] = &[
    (SENT, SENT_TRACE),
    ("S send 7\nR\nX\n", "rest NotSent(7)\nblock here\n"),
    (
        "S\nR\nX sss\n",
        "1 S idle\n2 S idle\n3 S idle\nrest none\nblock here\n",
    ),
    (
        "S send 18446744073709551615\nR\nX\n",
        "rest NotSent(18446744073709551615)\nblock here\n",
    ),
    ("S send 0\nR\nX\n", "rest NotSent(0)\nblock here\n"),
    (
        "S\nR try\nX r\n",
        "1 R load 3>3 = Err(Empty)\nrest none\nblock here\n",
    ),
    (
        "S send 7\nR drop\nX ssrrr\n",
        "1 S write-message 3>3 m:NotSent>InCell
2 S add 3>4 = Ok
3 R swap 4>2
4 R drop-message 2>2 m:InCell>Dropped
5 R free 2>- = dropped
rest Dropped(7)
block freed
",
    ),
    (
        "S send 7\nR drop\nX rss\n",
        "1 R swap 3>2 = dropped
2 S write-message 2>2 m:NotSent>InCell
3 S add 2>3 m:InCell>InError = Err
rest InError(7)
block here
",
    ),
    (
        "S drop\nR drop\nX rss\n",
        "1 R swap 3>2 = dropped
2 S xor 2>3
3 S free 3>- = dropped
rest none
block freed
",
    ),
    (
        "S drop\nR try drop\nX srrr\n",
        "1 S xor 3>2 = dropped
2 R load 2>2 = Err(Disconnected)
3 R swap 2>2
4 R free 2>- = dropped
rest none
block freed
",
    ),
    // No call of these scripts reads a clock or copies a waker.
    (
        "S drop\nR try drop\nX sonr\n",
        "1 S xor 3>2 = dropped
2 R load 2>2 = Err(Disconnected)
3 R swap 2>2
4 R free 2>- = dropped
rest none
block freed
",
    ),
];

const OF_LOOKS: &[(&str, &str); 4] = &[
    (
        "S closed send 7\nR closed full try closed\nX srssrrrrr\n",
        "1 S load 3>3 = false
2 R load 3>3 = false
3 S write-message 3>3 m:NotSent>InCell
4 S add 3>4 = Ok
5 R load 4>4 = true
6 R load 4>4
7 R store 4>2
8 R take-message 2>2 m:InCell>Delivered = Ok(7)
9 R load 2>2 = true
rest Delivered(7)
block here
",
    ),
    (
        "S drop\nR full closed try\nX srrr\n",
        "1 S xor 3>2 = dropped
2 R load 2>2 = false
3 R load 2>2 = true
4 R load 2>2 = Err(Disconnected)
rest none
block here
",
    ),
    (
        "S closed closed\nR drop\nX srs\n",
        "1 S load 3>3 = false
2 R swap 3>2 = dropped
3 S load 2>2 = true
rest none
block here
",
    ),
    (
        "S send 7\nR full closed\nX srsr\n",
        "1 S write-message 3>3 m:NotSent>InCell
2 R load 3>3 = false
3 S add 3>4 = Ok
4 R load 4>4 = false
rest InCell(7)
block here
",
    ),
];

const OF_A_REFUSED_SEND: &[(&str, &str); 4] = &[
    (
        "S send 5 inner into\nR drop\nX rssssss\n",
        "1 R swap 3>2 = dropped
2 S write-message 2>2 m:NotSent>InCell
3 S add 2>3 m:InCell>InError = Err
4 S plain 3>3 = 5
5 S take-message 3>3 m:InError>FromError
6 S free 3>- = 5
7 S idle
rest FromError(5)
block freed
",
    ),
    (
        "S send 5 drop\nR drop\nX rssss\n",
        "1 R swap 3>2 = dropped
2 S write-message 2>2 m:NotSent>InCell
3 S add 2>3 m:InCell>InError = Err
4 S drop-message 3>3 m:InError>Dropped
5 S free 3>- = dropped
rest Dropped(5)
block freed
",
    ),
    (
        "S closed send 7 inner inner\nR drop\nX rssssss\n",
        "1 R swap 3>2 = dropped
2 S load 2>2 = true
3 S write-message 2>2 m:NotSent>InCell
4 S add 2>3 m:InCell>InError = Err
5 S plain 3>3 = 7
6 S plain 3>3 = 7
7 S idle
rest InError(7)
block here
",
    ),
    // A `send` that returned `Ok` leaves no error to call.
    (
        "S send 7 inner into\nR\nX sss\n",
        "1 S write-message 3>3 m:NotSent>InCell
2 S add 3>4 = Ok
3 S idle
rest InCell(7)
block here
",
    ),
];

const OF_RECEIVES_THAT_WAIT: &[(&str, &str); 10] = &[
    // a receive that is woken late
    (
        "S send 7\nR recv\nX rrrsssrrsrrrrs\n",
        "1 R load 3>3
2 R write-waker 3>3 p:Hand>Cell
3 R swap 3>0
4 S write-message 0>0 m:NotSent>InCell
5 S add 0>1
6 S take-waker 1>1 p:Cell>SenderHand
7 R park 1>1 spurious
8 R load 1>1
9 S swap 1>4
10 R park 4>4 spurious
11 R load 4>4
12 R take-message 4>4 m:InCell>Delivered
13 R free 4>- = Ok(7)
14 S wake ->- p:SenderHand>Used token+ = Ok
rest Delivered(7)
block freed
",
    ),
    // a park that takes its token
    (
        "S send 7\nR ref\nX rrrsssssrrrr\n",
        "1 R load 3>3
2 R write-waker 3>3 p:Hand>Cell
3 R swap 3>0
4 S write-message 0>0 m:NotSent>InCell
5 S add 0>1
6 S take-waker 1>1 p:Cell>SenderHand
7 S swap 1>4
8 S wake 4>4 p:SenderHand>Used token+ = Ok
9 R park 4>4 token-
10 R load 4>4
11 R store 4>2
12 R take-message 2>2 m:InCell>Delivered = Ok(7)
rest Delivered(7)
block here
",
    ),
    // a message sent before the wait
    (
        "S send 7\nR ref\nX rrssrrrr\n",
        "1 R load 3>3
2 R write-waker 3>3 p:Hand>Cell
3 S write-message 3>3 m:NotSent>InCell
4 S add 3>4 = Ok
5 R swap 4>0
6 R withdraw 0>0 p:Cell>Hand
7 R store 0>2
8 R take-message 2>2 m:InCell>Delivered = Ok(7)
rest Delivered(7)
block here
",
    ),
    // a receiver that the sender's drop wakes
    (
        "S drop\nR recv\nX rrrssssrrr\n",
        "1 R load 3>3
2 R write-waker 3>3 p:Hand>Cell
3 R swap 3>0
4 S xor 0>1
5 S take-waker 1>1 p:Cell>SenderHand
6 S swap 1>2
7 S wake 2>2 p:SenderHand>Used token+ = dropped
8 R park 2>2 token-
9 R load 2>2
10 R free 2>- = Err(RecvError)
rest none
block freed
",
    ),
    // a sender dropped during the wait
    (
        "S closed drop\nR recv\nX rrrsssssrrr\n",
        "1 R load 3>3
2 R write-waker 3>3 p:Hand>Cell
3 R swap 3>0
4 S load 0>0 = false
5 S xor 0>1
6 S take-waker 1>1 p:Cell>SenderHand
7 S swap 1>2
8 S wake 2>2 p:SenderHand>Used token+ = dropped
9 R park 2>2 token-
10 R load 2>2
11 R free 2>- = Err(RecvError)
rest none
block freed
",
    ),
    // the error of each call
    (
        "S drop\nR try ref closed try recv\nX srrrrrrr\n",
        "1 S xor 3>2 = dropped
2 R load 2>2 = Err(Disconnected)
3 R load 2>2 = Err(RecvError)
4 R load 2>2 = true
5 R load 2>2 = Err(Disconnected)
6 R load 2>2
7 R free 2>- = Err(RecvError)
8 R idle
rest none
block freed
",
    ),
    // a sender dropped before the wait
    (
        "S drop\nR recv\nX rrsrrr\n",
        "1 R load 3>3
2 R write-waker 3>3 p:Hand>Cell
3 S xor 3>2 = dropped
4 R swap 2>0
5 R withdraw 0>0 p:Cell>Hand
6 R free 0>- = Err(RecvError)
rest none
block freed
",
    ),
    (
        "S drop\nR ref\nX rrsrrr\n",
        "1 R load 3>3
2 R write-waker 3>3 p:Hand>Cell
3 S xor 3>2 = dropped
4 R swap 2>0
5 R withdraw 0>0 p:Cell>Hand
6 R store 0>2 = Err(RecvError)
rest none
block here
",
    ),
    // a receive that takes its waker back, then the message
    (
        "S send 7\nR recv\nX rrssrrrr\n",
        "1 R load 3>3
2 R write-waker 3>3 p:Hand>Cell
3 S write-message 3>3 m:NotSent>InCell
4 S add 3>4 = Ok
5 R swap 4>0
6 R withdraw 0>0 p:Cell>Hand
7 R take-message 0>0 m:InCell>Delivered
8 R free 0>- = Ok(7)
rest Delivered(7)
block freed
",
    ),
    // a wake of a receiver that has freed the block
    (
        "S drop\nR recv\nX rrrsssrrrs\n",
        "1 R load 3>3
2 R write-waker 3>3 p:Hand>Cell
3 R swap 3>0
4 S xor 0>1
5 S take-waker 1>1 p:Cell>SenderHand
6 S swap 1>2
7 R park 2>2 spurious
8 R load 2>2
9 R free 2>- = Err(RecvError)
10 S wake ->- p:SenderHand>Used token+ = dropped
rest none
block freed
",
    ),
];

const OF_DEADLINES: &[(&str, &str); 15] = &[
    // a message sent after the deadline
    (
        "S send 7\nR deadline\nX rrrossrrrsssrrrr\n",
        "1 R load 3>3
2 R write-waker 3>3 p:Hand>Cell
3 R swap 3>0
4 R clock 0>0 over
5 S write-message 0>0 m:NotSent>InCell
6 S add 0>1
7 R swap 1>3
8 R park 3>3 spurious
9 R load 3>3
10 S take-waker 3>3 p:Cell>SenderHand
11 S swap 3>4
12 S wake 4>4 p:SenderHand>Used token+ = Ok
13 R park 4>4 token-
14 R load 4>4
15 R store 4>2
16 R take-message 2>2 m:InCell>Delivered = Ok(7)
rest Delivered(7)
block here
",
    ),
    // a message that is there at the deadline
    (
        "S send 7\nR deadline\nX rrrosssssrrr\n",
        "1 R load 3>3
2 R write-waker 3>3 p:Hand>Cell
3 R swap 3>0
4 R clock 0>0 over
5 S write-message 0>0 m:NotSent>InCell
6 S add 0>1
7 S take-waker 1>1 p:Cell>SenderHand
8 S swap 1>4
9 S wake 4>4 p:SenderHand>Used token+ = Ok
10 R swap 4>3
11 R store 3>2
12 R take-message 2>2 m:InCell>Delivered = Ok(7)
rest Delivered(7)
block here
",
    ),
    // a timeout whose deadline no instant can hold
    (
        "S\nR forever\nX orrrr\n",
        "1 R clock 3>3 over
2 R load 3>3
3 R write-waker 3>3 p:Hand>Cell
4 R swap 3>0
5 R park 0>0 spurious
rest none
block here
",
    ),
    // a timeout that is over after a park
    (
        "S\nR timeout\nX orrrrrrorr\n",
        "1 R clock 3>3 over
2 R load 3>3
3 R write-waker 3>3 p:Hand>Cell
4 R swap 3>0
5 R clock 0>0 left
6 R park 0>0 spurious
7 R load 0>0
8 R clock 0>0 over
9 R swap 0>3
10 R withdraw 3>3 p:Cell>Hand = Err(Timeout)
rest none
block here
",
    ),
    // timed calls after the sender was dropped
    (
        "S drop\nR deadline timeout forever\nX srrrorr\n",
        "1 S xor 3>2 = dropped
2 R load 2>2 = Err(Disconnected)
3 R clock 2>2 left
4 R load 2>2 = Err(Disconnected)
5 R clock 2>2 over
6 R load 2>2 = Err(Disconnected)
7 R idle
rest none
block here
",
    ),
    // a sender dropped at the deadline
    (
        "S drop\nR deadline\nX rrrossssrr\n",
        "1 R load 3>3
2 R write-waker 3>3 p:Hand>Cell
3 R swap 3>0
4 R clock 0>0 over
5 S xor 0>1
6 S take-waker 1>1 p:Cell>SenderHand
7 S swap 1>2
8 S wake 2>2 p:SenderHand>Used token+ = dropped
9 R swap 2>3
10 R store 3>2 = Err(Disconnected)
rest none
block here
",
    ),
    // a sender dropped before the wait
    (
        "S drop\nR deadline\nX rrsrrr\n",
        "1 R load 3>3
2 R write-waker 3>3 p:Hand>Cell
3 S xor 3>2 = dropped
4 R swap 2>0
5 R withdraw 0>0 p:Cell>Hand
6 R store 0>2 = Err(Disconnected)
rest none
block here
",
    ),
    // a clock read while the sender has the waker
    (
        "S send 7\nR deadline\nX rrrssr\n",
        "1 R load 3>3
2 R write-waker 3>3 p:Hand>Cell
3 R swap 3>0
4 S write-message 0>0 m:NotSent>InCell
5 S add 0>1
6 R clock 1>1 left
rest InCell(7)
block here
",
    ),
    // a message that is there at the deadline, received before the wake
    (
        "S send 7\nR deadline\nX rrrssssorrrs\n",
        "1 R load 3>3
2 R write-waker 3>3 p:Hand>Cell
3 R swap 3>0
4 S write-message 0>0 m:NotSent>InCell
5 S add 0>1
6 S take-waker 1>1 p:Cell>SenderHand
7 S swap 1>4
8 R clock 4>4 over
9 R swap 4>3
10 R store 3>2
11 R take-message 2>2 m:InCell>Delivered = Ok(7)
12 S wake 2>2 p:SenderHand>Used token+ = Ok
rest Delivered(7)
block here
",
    ),
    // the same, received after the wake
    (
        "S send 7\nR deadline\nX rrrssssorsrr\n",
        "1 R load 3>3
2 R write-waker 3>3 p:Hand>Cell
3 R swap 3>0
4 S write-message 0>0 m:NotSent>InCell
5 S add 0>1
6 S take-waker 1>1 p:Cell>SenderHand
7 S swap 1>4
8 R clock 4>4 over
9 R swap 4>3
10 S wake 3>3 p:SenderHand>Used token+ = Ok
11 R store 3>2
12 R take-message 2>2 m:InCell>Delivered = Ok(7)
rest Delivered(7)
block here
",
    ),
    // a sender whose drop has begun at the deadline
    (
        "S drop\nR deadline\nX rrrosrrssrs\n",
        "1 R load 3>3
2 R write-waker 3>3 p:Hand>Cell
3 R swap 3>0
4 R clock 0>0 over
5 S xor 0>1
6 R swap 1>3
7 R park 3>3 spurious
8 S take-waker 3>3 p:Cell>SenderHand
9 S swap 3>2
10 R load 2>2 = Err(Disconnected)
11 S wake 2>2 p:SenderHand>Used token+ = dropped
rest none
block here
",
    ),
    // a message sent after the wait
    (
        "S send 7\nR deadline\nX rrrorssr\n",
        "1 R load 3>3
2 R write-waker 3>3 p:Hand>Cell
3 R swap 3>0
4 R clock 0>0 over
5 R swap 0>3
6 S write-message 3>3 m:NotSent>InCell
7 S add 3>4 = Ok
8 R withdraw 4>4 p:Cell>Hand = Err(Timeout)
rest InCell(7)
block here
",
    ),
    // a sender dropped after the wait
    (
        "S drop\nR deadline\nX rrrorsr\n",
        "1 R load 3>3
2 R write-waker 3>3 p:Hand>Cell
3 R swap 3>0
4 R clock 0>0 over
5 R swap 0>3
6 S xor 3>2 = dropped
7 R withdraw 2>2 p:Cell>Hand = Err(Timeout)
rest none
block here
",
    ),
    // a timeout's first reading of the clock
    (
        "S\nR timeout\nX r\n",
        "1 R clock 3>3 left
rest none
block here
",
    ),
    // each call's reply for no message, in a channel whose message is 0
    (
        "S send 0\nR try deadline\nX rrrrorr\n",
        "1 R load 3>3 = Err(Empty)
2 R load 3>3
3 R write-waker 3>3 p:Hand>Cell
4 R swap 3>0
5 R clock 0>0 over
6 R swap 0>3
7 R withdraw 3>3 p:Cell>Hand = Err(Timeout)
rest NotSent(0)
block here
",
    ),
];

/// The largest message, in each reply that has it and at each place.
const OF_A_LARGE_MESSAGE: &[(&str, &str); 5] = &[
    (
        "S send 18446744073709551615\nR\nX ss\n",
        "1 S write-message 3>3 m:NotSent>InCell
2 S add 3>4 = Ok
rest InCell(18446744073709551615)
block here
",
    ),
    (
        "S send 18446744073709551615\nR recv\nX ssrrr\n",
        "1 S write-message 3>3 m:NotSent>InCell
2 S add 3>4 = Ok
3 R load 4>4
4 R take-message 4>4 m:InCell>Delivered
5 R free 4>- = Ok(18446744073709551615)
rest Delivered(18446744073709551615)
block freed
",
    ),
    (
        "S send 18446744073709551615 inner\nR drop\nX rsss\n",
        "1 R swap 3>2 = dropped
2 S write-message 2>2 m:NotSent>InCell
3 S add 2>3 m:InCell>InError = Err
4 S plain 3>3 = 18446744073709551615
rest InError(18446744073709551615)
block here
",
    ),
    (
        "S send 18446744073709551615 into\nR drop\nX rssss\n",
        "1 R swap 3>2 = dropped
2 S write-message 2>2 m:NotSent>InCell
3 S add 2>3 m:InCell>InError = Err
4 S take-message 3>3 m:InError>FromError
5 S free 3>- = 18446744073709551615
rest FromError(18446744073709551615)
block freed
",
    ),
    (
        "S send 18446744073709551615\nR drop\nX ssrrr\n",
        "1 S write-message 3>3 m:NotSent>InCell
2 S add 3>4 = Ok
3 R swap 4>2
4 R drop-message 2>2 m:InCell>Dropped
5 R free 2>- = dropped
rest Dropped(18446744073709551615)
block freed
",
    ),
];

#[test]
fn each_input_has_its_trace(rt: HostRuntime) {
    assert_traces(&rt, OF_EACH_CALL);
    assert_traces(&rt, OF_LOOKS);
    assert_traces(&rt, OF_A_REFUSED_SEND);
    assert_traces(&rt, OF_RECEIVES_THAT_WAIT);
    assert_traces(&rt, OF_DEADLINES);
    assert_traces(&rt, OF_A_LARGE_MESSAGE);
}

const SCHEDULES: &[&str; 4] = &[
    "S\nR deadline\nX rrrrrrr\n",
    "S\nR deadline\nX nnnnnnn\n",
    "S\nR deadline\nX ooonoon\n",
    "S\nR deadline\nX onornor\n",
];

/// `o` acts as `r` at each step except a reading of the clock, and `n` at each except a copy of a waker.
#[test]
fn a_letter_says_only_what_its_step_asks(rt: HostRuntime) {
    let trace = "1 R load 3>3
2 R write-waker 3>3 p:Hand>Cell
3 R swap 3>0
4 R clock 0>0 left
5 R park 0>0 spurious
6 R load 0>0
7 R clock 0>0 left
rest none
block here
";
    for input in SCHEDULES {
        assert_trace(&rt, input, trace);
    }
}

/// A front of `SENT`, and the last two lines of its trace: the message's place after its moves, and the block.
const FRONTS: &[(&str, &str); 8] = &[
    ("S send 7\nR try drop\nX", "rest NotSent(7)\nblock here\n"),
    ("S send 7\nR try drop\nX s", "rest InCell(7)\nblock here\n"),
    ("S send 7\nR try drop\nX ss", "rest InCell(7)\nblock here\n"),
    (
        "S send 7\nR try drop\nX ssr",
        "rest InCell(7)\nblock here\n",
    ),
    (
        "S send 7\nR try drop\nX ssrr",
        "rest InCell(7)\nblock here\n",
    ),
    (
        "S send 7\nR try drop\nX ssrrr",
        "rest Delivered(7)\nblock here\n",
    ),
    (
        "S send 7\nR try drop\nX ssrrrr",
        "rest Delivered(7)\nblock here\n",
    ),
    (
        "S send 7\nR try drop\nX ssrrrrr",
        "rest Delivered(7)\nblock freed\n",
    ),
];

#[test]
fn traces_of_fronts_of_a_schedule(rt: HostRuntime) {
    for (entries, (input, end)) in FRONTS.iter().enumerate() {
        let output = trace_of_front(rt.alloc(), entries, end);
        assert_trace(&rt, input, &output.expect(&rt, "memory"));
    }
}

/// The first entries of `SENT_TRACE`, then this end.
fn trace_of_front(alloc: Global, entries: usize, end: &str) -> Result<String, AllocError> {
    let mut output = String::new(alloc);
    for line in SENT_TRACE.split_inclusive('\n').take(entries) {
        output.push_str(line)?;
    }
    output.push_str(end)?;
    Ok(output)
}
