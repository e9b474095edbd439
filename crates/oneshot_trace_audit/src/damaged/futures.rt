//! Damaged traces of a future: the copies of its tasks' wakers, and the block that it shares with its sender.

use crate::auditor::Fault;
use crate::damage::Edit;
use crate::damaged::Damaged;
use oneshot_machine::machine::{End, Reply, Step};
use oneshot_replay::{Place, WakerName, WakerPlace};

const OF_ANOTHER_TASK: WakerName = WakerName::Copy {
    number: 2,
    entry: 3,
};

const OF_ANOTHER_ENTRY: WakerName = WakerName::Copy {
    number: 1,
    entry: 4,
};

const FIRST: WakerName = WakerName::Copy {
    number: 1,
    entry: 3,
};

// 1 R plain = future, 2 R load 3, 3 R copy New>Hand, 4 R write-waker Hand>Cell, 5 R exchange 3>0 = Pending,
// 6 S write-message NotSent>InCell, 7 S add 0>1, 8 S take-waker Cell>SenderHand, 9 S swap 1>4, 10 R load 4,
// 11 R swap 4>2, 12 R drop-message InCell>Dropped, 13 R free = dropped, 14 S wake SenderHand>Used = Ok.
// Under rrrrrrrrr the drop meets no sender: 6 R load 0, 7 R exchange 0>3, 8 R withdraw Cell>Dropped,
// 9 R swap 3>2 = dropped.
pub(crate) const POLLED_ONCE: Damaged = (
    "S send 7\nR future poll 1 drop",
    &[
        (
            "the block is freed before the sender's final swap",
            "rrrrrssssrrrrs",
            &[Edit::MoveBefore(13, 9)],
            (9, Fault::FreedTooEarly(End::Receiver)),
        ),
        (
            "the sender takes the waker after its final swap",
            "rrrrrssssrrrrs",
            &[Edit::MoveBefore(9, 8)],
            (9, Fault::NotHolder(End::Sender)),
        ),
        (
            "the sender frees the block that it left to the receiver",
            "rrrrrssssrrrrs",
            &[Edit::Step(14, Step::Free)],
            (14, Fault::NotHolder(End::Sender)),
        ),
        (
            "the waker is withdrawn behind the swap",
            "rrrrrrrrr",
            &[
                Edit::MoveBefore(9, 8),
                Edit::Reply(8, None),
                Edit::Reply(9, Some(Reply::Done)),
            ],
            (9, Fault::NotHolder(End::Receiver)),
        ),
        (
            "the send answers before its final swap",
            "rrrrrssssrrrrs",
            &[Edit::Reply(7, Some(Reply::Sent))],
            (7, Fault::DidNotAct),
        ),
        (
            "the waker is used twice",
            "rrrrrssssrrrrs",
            &[Edit::Double(14), Edit::Reply(14, None)],
            (
                15,
                Fault::WakerElsewhere {
                    from: WakerPlace::SenderHand,
                    place: WakerPlace::Used,
                },
            ),
        ),
        (
            "the wake wakes nobody",
            "rrrrrssssrrrrs",
            &[Edit::Waker(14, None)],
            (14, Fault::MovesNothing),
        ),
        (
            "the wake is lost",
            "rrrrrssssrrrrs",
            &[Edit::Step(14, Step::Plain), Edit::Waker(14, None)],
            (14, Fault::WakerLeft(WakerPlace::SenderHand)),
        ),
        (
            "the waker is not written",
            "rrrrrssssrrrrs",
            &[Edit::Remove(4)],
            (
                7,
                Fault::WakerElsewhere {
                    from: WakerPlace::Cell,
                    place: WakerPlace::Hand,
                },
            ),
        ),
        (
            "the receiver puts the waker into the sender's hand",
            "rrrrrssssrrrrs",
            &[Edit::Side(8, End::Receiver)],
            (8, Fault::WakerOfOther(End::Receiver)),
        ),
        (
            "the parker's half is dropped out of the hand",
            "r",
            &[Edit::Waker(
                1,
                Some((WakerName::Parker, WakerPlace::Hand, WakerPlace::Dropped)),
            )],
            (
                1,
                Fault::WakerMove {
                    from: WakerPlace::Hand,
                    to: WakerPlace::Dropped,
                },
            ),
        ),
        (
            "the copy is dropped before it is in the hand",
            "rrr",
            &[Edit::Waker(3, Some((FIRST, WakerPlace::New, WakerPlace::Dropped)))],
            (
                3,
                Fault::WakerMove {
                    from: WakerPlace::New,
                    to: WakerPlace::Dropped,
                },
            ),
        ),
        (
            "the copy is of another task's waker",
            "rrrrrssssrrrrs",
            &[Edit::Waker(
                3,
                Some((OF_ANOTHER_TASK, WakerPlace::New, WakerPlace::Hand)),
            )],
            (3, Fault::MisnamedWaker),
        ),
        (
            "the copy is of another entry",
            "rrr",
            &[Edit::Waker(
                3,
                Some((OF_ANOTHER_ENTRY, WakerPlace::New, WakerPlace::Hand)),
            )],
            (3, Fault::MisnamedWaker),
        ),
        (
            "the message is left in the cell",
            "rrrrrssssrrrrs",
            &[Edit::Remove(12)],
            (13, Fault::MessageLeft(Place::InCell)),
        ),
        (
            "the drop delivers the message",
            "rrrrrssssrrrrs",
            &[Edit::Message(12, Some((Place::InCell, Place::Delivered)))],
            (
                12,
                Fault::MessagePut {
                    to: Place::Delivered,
                },
            ),
        ),
        (
            "the future that is made answers as a poll",
            "rrrrrssssrrrrs",
            &[Edit::Reply(1, Some(Reply::Pending))],
            (
                1,
                Fault::WrongReply {
                    reply: Reply::Pending,
                    wanted: Some(Reply::Future),
                },
            ),
        ),
        (
            "another message is reported",
            "rrrrrssssrrrrs",
            &[Edit::Rest(Some((Place::Dropped, 8)))],
            (
                14,
                Fault::ToldRest {
                    rest: Some((Place::Dropped, 8)),
                },
            ),
        ),
    ],
);

// 1 to 5 store the copy of the first poll; 6 R load 0, 7 R copy New>Hand, 8 R exchange 0>3,
// 9 R withdraw Cell>Dropped, 10 R write-waker Hand>Cell, 11 R exchange 3>0 = Pending, 12 to 16 S send.
// If S begins to send at 8 and 9: 10 R exchange 1>1 Hand>Dropped, 11 R wake = Pending, 12 to 14 S = Ok,
// 15 to 17 the third poll takes the message, 18 to 20 R drop.
pub(crate) const POLLED_ANEW: Damaged = (
    "S send 7\nR future poll 1 poll 2 poll 3 drop",
    &[
        (
            "the first waker stays in the cell",
            "rrrrrrrrrrrsssss",
            &[Edit::Remove(9)],
            (9, Fault::WakerCellFull),
        ),
        (
            "the parker's half is written over the first waker",
            "rrrrrrrrrr",
            &[
                Edit::Remove(9),
                Edit::Waker(
                    9,
                    Some((WakerName::Parker, WakerPlace::Hand, WakerPlace::Cell)),
                ),
            ],
            (9, Fault::WakerCellFull),
        ),
        (
            "the first waker goes back into the hand",
            "rrrrrrrrrrrsssss",
            &[Edit::Waker(9, Some((FIRST, WakerPlace::Cell, WakerPlace::Hand)))],
            (
                9,
                Fault::WakerMove {
                    from: WakerPlace::Cell,
                    to: WakerPlace::Hand,
                },
            ),
        ),
        (
            "the sender drops the first waker",
            "rrrrrrrrrrrsssss",
            &[Edit::Side(9, End::Sender)],
            (9, Fault::WakerOfOther(End::Sender)),
        ),
        (
            "the copy that is not stored is forgotten",
            "rrrrrrrssrrsssrrrrrr",
            &[Edit::Waker(10, None)],
            (20, Fault::WakerLeft(WakerPlace::Hand)),
        ),
    ],
);

// 1 to 5 store the copy of the poll; 6 S write-message NotSent>InCell, 7 S add 0>1, 8 R load 1,
// 9 R swap 1>2 = dropped, 10 S take-waker Cell>SenderHand, 11 S swap 2>4,
// 12 S wake InCell>InError SenderHand>Used = Err, 13 S drop-message InError>Dropped, 14 S free = dropped.
pub(crate) const LEFT_BY_A_FUTURE: Damaged = (
    "S send 7 drop\nR future poll 1 drop",
    &[
        (
            "a send that came late says that it sent",
            "rrrrrssrrsss",
            &[Edit::Message(12, None), Edit::Reply(12, Some(Reply::Sent))],
            (
                12,
                Fault::WrongReply {
                    reply: Reply::Sent,
                    wanted: Some(Reply::Refused),
                },
            ),
        ),
        (
            "a send that came late leaves the message in the cell",
            "rrrrrssrrsss",
            &[Edit::Message(12, None)],
            (
                12,
                Fault::ReplyWithoutMessage {
                    wanted: Place::InError,
                },
            ),
        ),
        (
            "a send that came late keeps the waker",
            "rrrrrssrrsssss",
            &[Edit::Step(12, Step::Plain), Edit::Waker(12, None)],
            (14, Fault::WakerLeft(WakerPlace::SenderHand)),
        ),
        (
            "the future's drop frees the block under the sender",
            "rrrrrssrrsssss",
            &[
                Edit::Double(14),
                Edit::MoveBefore(15, 10),
                Edit::Side(10, End::Receiver),
                Edit::Reply(9, None),
            ],
            (10, Fault::NotHolder(End::Receiver)),
        ),
        (
            "the error does not free the block",
            "rrrrrssrrsssss",
            &[Edit::Remove(14), Edit::Reply(13, Some(Reply::Done))],
            (13, Fault::NeverFreed),
        ),
    ],
);

// 1 to 5 store the copy of the poll; 6 R load 0, 7 R exchange 0>3, 8 R withdraw Cell>Dropped,
// 9 R swap 3>2 = dropped, 10 S xor 2>3, 11 S free = dropped.
// Under rrrrrsrrssss the drop meets a sender that is about to finish: 6 S xor 0>1, 7 R load 1,
// 8 R swap 1>2 = dropped, 9 S take-waker Cell>SenderHand, 10 S swap 2>2, 11 S wake SenderHand>Used,
// 12 S free = dropped.
pub(crate) const POLLED_BESIDE_A_DROP: Damaged = (
    "S drop\nR future poll 1 drop",
    &[
        (
            "the stored waker is left in the cell",
            "rrrrrrrrrss",
            &[Edit::Remove(8)],
            (10, Fault::WakerLeft(WakerPlace::Cell)),
        ),
        (
            "a sender's drop that came late frees nothing",
            "rrrrrsrrssss",
            &[Edit::Remove(12), Edit::Reply(11, Some(Reply::Done))],
            (11, Fault::NeverFreed),
        ),
    ],
);
