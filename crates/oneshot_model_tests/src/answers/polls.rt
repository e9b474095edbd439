//! Tests of inputs with a future, each with its trace.

use crate::answers::assert_traces;

/// Inputs with a future, each with its trace.
const POLLS: &[(&str, &str); 14] = &[
    // the drop leaves a sender that is about to finish
    (
        "S send 7\nR future poll 1 drop\nX rrrrrssrrssrrrrs\n",
        "1 R plain 3>3 = future
2 R load 3>3
3 R copy 3>3 w1@3:New>Hand
4 R write-waker 3>3 w1@3:Hand>Cell
5 R exchange 3>0 = Pending
6 S write-message 0>0 m:NotSent>InCell
7 S add 0>1
8 R load 1>1
9 R swap 1>2 = dropped
10 S take-waker 2>2 w1@3:Cell>SenderHand
11 S swap 2>4
12 R idle
13 R idle
14 R idle
15 R idle
16 S wake 4>4 m:InCell>InError w1@3:SenderHand>Used = Err
rest InError(7)
block here
",
    ),
    // a send that came late gives its message back
    (
        "S send 7 into\nR future poll 1 drop\nX rrrrrssrrsssss\n",
        "1 R plain 3>3 = future
2 R load 3>3
3 R copy 3>3 w1@3:New>Hand
4 R write-waker 3>3 w1@3:Hand>Cell
5 R exchange 3>0 = Pending
6 S write-message 0>0 m:NotSent>InCell
7 S add 0>1
8 R load 1>1
9 R swap 1>2 = dropped
10 S take-waker 2>2 w1@3:Cell>SenderHand
11 S swap 2>4
12 S wake 4>4 m:InCell>InError w1@3:SenderHand>Used = Err
13 S take-message 4>4 m:InError>FromError
14 S free 4>- = 7
rest FromError(7)
block freed
",
    ),
    // a sender that came late frees the block
    (
        "S drop\nR future poll 1 drop\nX rrrrrsrrssss\n",
        "1 R plain 3>3 = future
2 R load 3>3
3 R copy 3>3 w1@3:New>Hand
4 R write-waker 3>3 w1@3:Hand>Cell
5 R exchange 3>0 = Pending
6 S xor 0>1
7 R load 1>1
8 R swap 1>2 = dropped
9 S take-waker 2>2 w1@3:Cell>SenderHand
10 S swap 2>2
11 S wake 2>2 w1@3:SenderHand>Used
12 S free 2>- = dropped
rest none
block freed
",
    ),
    // a poll that finds the sender finishing wakes its own task
    (
        "S send 7\nR future poll 1 poll 2\nX rrrrrssrr\n",
        "1 R plain 3>3 = future
2 R load 3>3
3 R copy 3>3 w1@3:New>Hand
4 R write-waker 3>3 w1@3:Hand>Cell
5 R exchange 3>0 = Pending
6 S write-message 0>0 m:NotSent>InCell
7 S add 0>1
8 R load 1>1
9 R wake 1>1 own:2 = Pending
rest InCell(7)
block here
",
    ),
    // the drop frees after a sender that has gone
    (
        "S drop\nR future poll 1 drop\nX rrrrrsrssrrrs\n",
        "1 R plain 3>3 = future
2 R load 3>3
3 R copy 3>3 w1@3:New>Hand
4 R write-waker 3>3 w1@3:Hand>Cell
5 R exchange 3>0 = Pending
6 S xor 0>1
7 R load 1>1
8 S take-waker 1>1 w1@3:Cell>SenderHand
9 S swap 1>2
10 R swap 2>2
11 R free 2>- = dropped
12 R idle
13 S wake ->- w1@3:SenderHand>Used = dropped
rest none
block freed
",
    ),
    // a drop whose exchange found the sender finishing closes then
    (
        "S send 7\nR future poll 1 drop\nX rrrrrrssrsssrrrr\n",
        "1 R plain 3>3 = future
2 R load 3>3
3 R copy 3>3 w1@3:New>Hand
4 R write-waker 3>3 w1@3:Hand>Cell
5 R exchange 3>0 = Pending
6 R load 0>0
7 S write-message 0>0 m:NotSent>InCell
8 S add 0>1
9 R exchange 1>1
10 S take-waker 1>1 w1@3:Cell>SenderHand
11 S swap 1>4
12 S wake 4>4 w1@3:SenderHand>Used = Ok
13 R swap 4>2
14 R drop-message 2>2 m:InCell>Dropped
15 R free 2>- = dropped
16 R idle
rest Dropped(7)
block freed
",
    ),
    // a poll beside a sender that finishes wakes its own task
    (
        "S send 7\nR future poll 1 poll 2\nX rrrrrrrssrrsss\n",
        "1 R plain 3>3 = future
2 R load 3>3
3 R copy 3>3 w1@3:New>Hand
4 R write-waker 3>3 w1@3:Hand>Cell
5 R exchange 3>0 = Pending
6 R load 0>0
7 R copy 0>0 w2@7:New>Hand
8 S write-message 0>0 m:NotSent>InCell
9 S add 0>1
10 R exchange 1>1 w2@7:Hand>Dropped
11 R wake 1>1 own:2 = Pending
12 S take-waker 1>1 w1@3:Cell>SenderHand
13 S swap 1>4
14 S wake 4>4 w1@3:SenderHand>Used = Ok
rest InCell(7)
block here
",
    ),
    // a poll whose copy is refused wakes its own task
    (
        "S send 7\nR future poll 1\nX rrnr\n",
        "1 R plain 3>3 = future
2 R load 3>3
3 R copy 3>3 refused
4 R wake 3>3 own:1 = Pending
rest NotSent(7)
block here
",
    ),
    // the second task's waker takes the place of the first
    (
        "S send 7\nR future poll 1 poll 2\nX rrrrrrrrrrrsssss\n",
        "1 R plain 3>3 = future
2 R load 3>3
3 R copy 3>3 w1@3:New>Hand
4 R write-waker 3>3 w1@3:Hand>Cell
5 R exchange 3>0 = Pending
6 R load 0>0
7 R copy 0>0 w2@7:New>Hand
8 R exchange 0>3
9 R withdraw 3>3 w1@3:Cell>Dropped
10 R write-waker 3>3 w2@7:Hand>Cell
11 R exchange 3>0 = Pending
12 S write-message 0>0 m:NotSent>InCell
13 S add 0>1
14 S take-waker 1>1 w2@7:Cell>SenderHand
15 S swap 1>4
16 S wake 4>4 w2@7:SenderHand>Used = Ok
rest InCell(7)
block here
",
    ),
    // the message comes while the poll is about to wait
    (
        "S send 7\nR future poll 1\nX rrrrssrrrr\n",
        "1 R plain 3>3 = future
2 R load 3>3
3 R copy 3>3 w1@3:New>Hand
4 R write-waker 3>3 w1@3:Hand>Cell
5 S write-message 3>3 m:NotSent>InCell
6 S add 3>4 = Ok
7 R exchange 4>4
8 R withdraw 4>4 w1@3:Cell>Dropped
9 R store 4>2
10 R take-message 2>2 m:InCell>Delivered = Ready(Ok(7))
rest Delivered(7)
block here
",
    ),
    // a future of a sender that is gone
    (
        "S drop\nR future poll 18446744073709551615 full closed drop\nX srrrrrrrr\n",
        "1 S xor 3>2 = dropped
2 R plain 2>2 = future
3 R load 2>2 = Ready(Err(RecvError))
4 R load 2>2 = false
5 R load 2>2 = true
6 R load 2>2
7 R swap 2>2
8 R free 2>- = dropped
9 R idle
rest none
block freed
",
    ),
    // a receiver that tries and becomes a future
    (
        "S send 7\nR try future poll 0\nX rrssrrrr\n",
        "1 R load 3>3 = Err(Empty)
2 R plain 3>3 = future
3 S write-message 3>3 m:NotSent>InCell
4 S add 3>4 = Ok
5 R load 4>4
6 R store 4>2
7 R take-message 2>2 m:InCell>Delivered = Ready(Ok(7))
8 R idle
rest Delivered(7)
block here
",
    ),
    // a try of a future leaves its waker
    (
        "S send 7\nR future poll 1 try try try\nX rrrrrrssrsssrrr\n",
        "1 R plain 3>3 = future
2 R load 3>3
3 R copy 3>3 w1@3:New>Hand
4 R write-waker 3>3 w1@3:Hand>Cell
5 R exchange 3>0 = Pending
6 R load 0>0 = Err(Empty)
7 S write-message 0>0 m:NotSent>InCell
8 S add 0>1
9 R load 1>1 = Err(Empty)
10 S take-waker 1>1 w1@3:Cell>SenderHand
11 S swap 1>4
12 S wake 4>4 w1@3:SenderHand>Used = Ok
13 R load 4>4
14 R store 4>2
15 R take-message 2>2 m:InCell>Delivered = Ok(7)
rest Delivered(7)
block here
",
    ),
    // a try of a future reports that the sender has gone
    (
        "S drop\nR future try poll 1 try try poll 1 try drop\nX rrrrrrssrsrsrrrrr\n",
        "1 R plain 3>3 = future
2 R load 3>3 = Err(Empty)
3 R load 3>3
4 R copy 3>3 w1@4:New>Hand
5 R write-waker 3>3 w1@4:Hand>Cell
6 R exchange 3>0 = Pending
7 S xor 0>1
8 S take-waker 1>1 w1@4:Cell>SenderHand
9 R load 1>1 = Err(Empty)
10 S swap 1>2
11 R load 2>2 = Err(Disconnected)
12 S wake 2>2 w1@4:SenderHand>Used = dropped
13 R load 2>2 = Ready(Err(RecvError))
14 R load 2>2 = Err(Disconnected)
15 R load 2>2
16 R swap 2>2
17 R free 2>- = dropped
rest none
block freed
",
    ),
];

#[test]
fn each_input_with_a_future_has_its_trace(rt: HostRuntime) {
    assert_traces(&rt, POLLS);
}
