//! Damaged traces in which the sender has replied and the receiver waits unwoken.

use crate::auditor::Fault;
use crate::damage::Edit;
use crate::damaged::Damaged;
use oneshot_machine::machine::{Reply, Seen};

// 1 R load 3, 2 R write-waker Hand>Cell, 3 R swap 3>0, 4 S xor 0>1, 5 S take-waker Cell>SenderHand,
// 6 S swap 1>2, 7 S wake SenderHand>Used token+ = dropped, 8 R park token-.
pub(crate) const PARKED_AT_A_DROP: Damaged = (
    "S drop\nR recv",
    &[(
        "the wake of the parked receiver is cut out",
        "rrrssssr",
        &[
            Edit::Remove(7),
            Edit::Reply(6, Some(Reply::Done)),
            Edit::Seen(7, Seen::Token(false)),
        ],
        (6, Fault::UnwokenPark),
    )],
);

// 1 R load 3, 2 R write-waker Hand>Cell, 3 R swap 3>0, 4 S write-message NotSent>InCell, 5 S add 0>1,
// 6 S take-waker Cell>SenderHand, 7 R park spurious, 8 R load 1, 9 S swap 1>4,
// 10 S wake SenderHand>Used token+ = Ok, 11 R park token-.
pub(crate) const PARKED_AT_A_SEND: Damaged = (
    "S send 7\nR ref drop",
    &[(
        "the sender wakes before its final swap, and the receiver parks again",
        "rrrsssrrssr",
        &[
            Edit::MoveBefore(10, 7),
            Edit::Reply(7, None),
            Edit::Seen(8, Seen::Token(true)),
            Edit::Reply(10, Some(Reply::Sent)),
            Edit::Seen(11, Seen::Token(false)),
        ],
        (10, Fault::UnwokenPark),
    )],
);

// 1 R plain = future, 2 R load 3, 3 R copy New>Hand, 4 R write-waker Hand>Cell, 5 R exchange 3>0 = Pending,
// 6 S write-message NotSent>InCell, 7 S add 0>1, 8 S take-waker Cell>SenderHand, 9 S swap 1>4,
// 10 S wake SenderHand>Used = Ok.
// Under rrnrss the copy is refused: 3 R copy refused, 4 R wake own:1 = Pending, 5 S write-message, 6 S add = Ok.
pub(crate) const POLLED: Damaged = (
    "S send 7\nR future poll 1 drop",
    &[
        (
            "the wake is cut out",
            "rrrrrsssss",
            &[Edit::Remove(10), Edit::Reply(9, Some(Reply::Sent))],
            (9, Fault::UnwokenTask(1)),
        ),
        (
            "the poll's own wake is cut out",
            "rrnrss",
            &[Edit::Remove(4), Edit::Reply(3, Some(Reply::Pending))],
            (5, Fault::UnwokenTask(1)),
        ),
        (
            "the poll wakes nobody",
            "rrnrss",
            &[Edit::Own(4, None)],
            (6, Fault::UnwokenTask(1)),
        ),
        (
            "the poll wakes another task",
            "rrnrss",
            &[Edit::Own(4, Some(2))],
            (6, Fault::UnwokenTask(1)),
        ),
    ],
);

// 1 to 5 store the copy of the first task; 6 R load 0 of the second, 7 S write-message, 8 S add 0>1,
// 9 S take-waker Cell>SenderHand, 10 S swap 1>4, 11 S wake SenderHand>Used = Ok.
pub(crate) const POLLED_BY_ANOTHER_TASK: Damaged = (
    "S send 7\nR future poll 1 poll 2 poll 3 drop",
    &[(
        "the second poll is left pending with the first task's waker stored",
        "rrrrrrsssss",
        &[Edit::Reply(6, Some(Reply::Pending))],
        (11, Fault::UnwokenTask(2)),
    )],
);

// 1 to 5 store the copy of the first poll; 6 S write-message, 7 S add 0>1, 8 S take-waker Cell>SenderHand,
// 9 R load 1 of the second poll by the same task, 10 S swap 1>4, 11 S wake SenderHand>Used = Ok.
pub(crate) const POLLED_AGAIN: Damaged = (
    "S send 7\nR future poll 1 poll 1 drop",
    &[(
        "the task is woken before its last poll, which is left pending",
        "rrrrrsssrss",
        &[
            Edit::MoveBefore(11, 9),
            Edit::Reply(9, None),
            Edit::Reply(10, Some(Reply::Pending)),
            Edit::Reply(11, Some(Reply::Sent)),
        ],
        (11, Fault::UnwokenTask(1)),
    )],
);
