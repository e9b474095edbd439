//! Damaged traces of a receiver that parks: its half of the parker, the token, and its replies.

use crate::auditor::Fault;
use crate::damage::Edit;
use crate::damaged::Damaged;
use oneshot_machine::machine::{End, Reply, Seen, Step};
use oneshot_replay::{Place, WakerName, WakerPlace};

// 1 R load 3, 2 R write-waker Hand>Cell, 3 R swap 3>0, 4 R clock over, 5 R swap 0>3,
// 6 R withdraw Cell>Hand = Err(Timeout).
pub(crate) const OVERDUE: Damaged = (
    "S send 7\nR deadline try drop",
    &[
        (
            "the waker is not written",
            "rrrorr",
            &[Edit::Remove(2)],
            (
                5,
                Fault::WakerElsewhere {
                    from: WakerPlace::Cell,
                    place: WakerPlace::Hand,
                },
            ),
        ),
        (
            "the write moves no waker",
            "rr",
            &[Edit::Waker(2, None)],
            (2, Fault::MovesNothing),
        ),
        (
            "the withdrawal moves no waker",
            "rrrorr",
            &[Edit::Waker(6, None)],
            (6, Fault::MovesNothing),
        ),
        (
            "the parker's half is dropped",
            "rrrorr",
            &[Edit::Waker(
                6,
                Some((WakerName::Parker, WakerPlace::Cell, WakerPlace::Dropped)),
            )],
            (
                6,
                Fault::WakerMove {
                    from: WakerPlace::Cell,
                    to: WakerPlace::Dropped,
                },
            ),
        ),
        (
            "the sender writes the waker",
            "rr",
            &[Edit::Side(2, End::Sender)],
            (2, Fault::WakerOfOther(End::Sender)),
        ),
        (
            "the sender withdraws the waker",
            "rrrorr",
            &[Edit::Side(6, End::Sender), Edit::Reply(6, None)],
            (6, Fault::WakerOfOther(End::Sender)),
        ),
        (
            "the disconnected error of a sender that is there",
            "rrrorr",
            &[Edit::Reply(6, Some(Reply::Disconnected))],
            (6, Fault::DidNotAct),
        ),
        (
            "nothing yet in the words of another receive",
            "rrrorr",
            &[Edit::Reply(6, Some(Reply::Empty))],
            (
                6,
                Fault::WrongReply {
                    reply: Reply::Empty,
                    wanted: Some(Reply::Timeout),
                },
            ),
        ),
    ],
);

// 1 R load 3, 2 R write-waker Hand>Cell, 3 R swap 3>0, 4 S xor 0>1, 5 S take-waker Cell>SenderHand,
// 6 S swap 1>2, 7 S wake SenderHand>Used token+ = dropped, 8 R park token-, 9 R load 2,
// 10 R free = Err(RecvError).
pub(crate) const WOKEN: Damaged = (
    "S drop\nR recv",
    &[
        (
            "a message comes from nowhere",
            "rrrssssrrr",
            &[Edit::Message(10, Some((Place::InCell, Place::Delivered)))],
            (10, Fault::NoMessage),
        ),
        (
            "a message is answered where none was sent",
            "rrrssssrrr",
            &[Edit::Reply(10, Some(Reply::Message))],
            (
                10,
                Fault::WrongReply {
                    reply: Reply::Message,
                    wanted: Some(Reply::Disconnected),
                },
            ),
        ),
        (
            "a last place is reported where no message was sent",
            "rrrssssrrr",
            &[Edit::Rest(Some((Place::Dropped, 7)))],
            (
                10,
                Fault::ToldRest {
                    rest: Some((Place::Dropped, 7)),
                },
            ),
        ),
        (
            "the taking moves no waker",
            "rrrss",
            &[Edit::Waker(5, None)],
            (5, Fault::MovesNothing),
        ),
        (
            "the sender takes the waker after its final swap",
            "rrrsss",
            &[Edit::MoveBefore(6, 5)],
            (6, Fault::NotHolder(End::Sender)),
        ),
        (
            "the receiver uses the waker",
            "rrrssss",
            &[Edit::Side(7, End::Receiver), Edit::Reply(7, None)],
            (7, Fault::WakerOfOther(End::Receiver)),
        ),
        (
            "the wake sets no token",
            "rrrssss",
            &[Edit::Token(7, false)],
            (7, Fault::ToldToken),
        ),
        (
            "a step that is no wake sets the token",
            "rrrsss",
            &[Edit::Token(6, true)],
            (6, Fault::ToldToken),
        ),
        (
            "the park misses its token",
            "rrrssssr",
            &[Edit::Seen(8, Seen::Token(false))],
            (8, Fault::ToldToken),
        ),
        (
            "the receive leaves the block",
            "rrrssssrrr",
            &[
                Edit::Remove(10),
                Edit::Reply(9, Some(Reply::Disconnected)),
                Edit::BlockFreed(false),
            ],
            (9, Fault::NeverFreed),
        ),
    ],
);

// 1 S xor 3>2 = dropped.
pub(crate) const LEFT_EARLY: Damaged = (
    "S drop\nR try drop",
    &[(
        "the sender frees the block that the receiver holds",
        "s",
        &[
            Edit::Step(1, Step::Free),
            Edit::Reply(1, None),
            Edit::BlockFreed(true),
        ],
        (1, Fault::FreedTooEarly(End::Sender)),
    )],
);
