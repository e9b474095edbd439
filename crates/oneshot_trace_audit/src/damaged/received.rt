//! Damaged traces of a message that is sent: its places, the replies, and the block.

use crate::auditor::Fault;
use crate::damage::Edit;
use crate::damaged::Damaged;
use oneshot_machine::machine::{End, Reply, Step};
use oneshot_replay::{Place, WakerName, WakerPlace};

// 1 S write-message NotSent>InCell, 2 S add 3>4 = Ok, 3 R load 4, 4 R store 2,
// 5 R take-message InCell>Delivered = Ok(7), 6 R swap 2>2, 7 R free = dropped.
pub(crate) const TAKEN: Damaged = (
    "S send 7\nR try drop",
    &[
        (
            "the take is missing",
            "ssrrrrr",
            &[Edit::Remove(5)],
            (
                6,
                Fault::WrongReply {
                    reply: Reply::Done,
                    wanted: Some(Reply::Message),
                },
            ),
        ),
        (
            "the message is delivered twice",
            "ssrrrrr",
            &[Edit::Double(5)],
            (
                6,
                Fault::MessageElsewhere {
                    from: Place::InCell,
                    place: Place::Delivered,
                },
            ),
        ),
        (
            "a place is skipped",
            "ssrrrrr",
            &[Edit::Message(1, Some((Place::NotSent, Place::Delivered)))],
            (
                1,
                Fault::MessageMove {
                    from: Place::NotSent,
                    to: Place::Delivered,
                },
            ),
        ),
        (
            "the write is missing",
            "ssrrrrr",
            &[Edit::Remove(1)],
            (
                4,
                Fault::MessageElsewhere {
                    from: Place::InCell,
                    place: Place::NotSent,
                },
            ),
        ),
        (
            "the receive takes nothing",
            "ssrrrrr",
            &[Edit::Message(5, None)],
            (5, Fault::MovesNothing),
        ),
        (
            "the send writes nothing",
            "s",
            &[
                Edit::Message(1, None),
                Edit::Rest(Some((Place::NotSent, 7))),
            ],
            (1, Fault::MovesNothing),
        ),
        (
            "the receive answers before it takes",
            "ssrrrrr",
            &[Edit::Remove(5), Edit::Reply(4, Some(Reply::Message))],
            (
                4,
                Fault::ReplyWithoutMessage {
                    wanted: Place::Delivered,
                },
            ),
        ),
        (
            "the receiver writes the message",
            "ss",
            &[Edit::Side(1, End::Receiver)],
            (1, Fault::MessagePut { to: Place::InCell }),
        ),
        (
            "the send drops the message",
            "ss",
            &[
                Edit::Message(2, Some((Place::InCell, Place::Dropped))),
                Edit::Rest(Some((Place::Dropped, 7))),
            ],
            (2, Fault::MessagePut { to: Place::Dropped }),
        ),
        (
            "the accepted send puts the message into its error",
            "ss",
            &[
                Edit::Message(2, Some((Place::InCell, Place::InError))),
                Edit::Rest(Some((Place::InError, 7))),
            ],
            (2, Fault::MessagePut { to: Place::InError }),
        ),
        (
            "the last place of the message is reported as none",
            "ssrrrrr",
            &[Edit::Rest(None)],
            (7, Fault::ToldRest { rest: None }),
        ),
        (
            "another last place is reported",
            "ssrrrrr",
            &[Edit::Rest(Some((Place::Dropped, 7)))],
            (
                7,
                Fault::ToldRest {
                    rest: Some((Place::Dropped, 7)),
                },
            ),
        ),
        (
            "nothing yet, with the message in the cell",
            "ssrrrrr",
            &[Edit::Reply(3, Some(Reply::Empty))],
            (
                3,
                Fault::WrongReply {
                    reply: Reply::Empty,
                    wanted: Some(Reply::Message),
                },
            ),
        ),
        (
            "the disconnected error in place of the message",
            "ssrrrrr",
            &[Edit::Reply(5, Some(Reply::Disconnected))],
            (
                5,
                Fault::WrongReply {
                    reply: Reply::Disconnected,
                    wanted: Some(Reply::Message),
                },
            ),
        ),
        (
            "a refusal while the receiver is there",
            "ssrrrrr",
            &[Edit::Reply(2, Some(Reply::Refused))],
            (
                2,
                Fault::WrongReply {
                    reply: Reply::Refused,
                    wanted: Some(Reply::Sent),
                },
            ),
        ),
        (
            "the drop does not swap",
            "ssrrrrr",
            &[Edit::Remove(6)],
            (6, Fault::DidNotAct),
        ),
        (
            "the free is missing",
            "ssrrrrr",
            &[Edit::Remove(7), Edit::Reply(6, Some(Reply::Done))],
            (6, Fault::NeverFreed),
        ),
        (
            "the block is freed twice",
            "ssrrrrr",
            &[Edit::Double(7), Edit::Reply(7, None)],
            (8, Fault::NotHolder(End::Receiver)),
        ),
        (
            "the last entry is doubled",
            "ssrrrrr",
            &[Edit::Double(7)],
            (8, Fault::NoCallLeft(End::Receiver)),
        ),
        (
            "the message is written behind the add",
            "ss",
            &[
                Edit::MoveBefore(2, 1),
                Edit::Reply(1, None),
                Edit::Reply(2, Some(Reply::Sent)),
            ],
            (2, Fault::NotHolder(End::Sender)),
        ),
        (
            "the sender frees the block before its add",
            "ss",
            &[
                Edit::Step(2, Step::Free),
                Edit::Reply(2, None),
                Edit::BlockFreed(true),
            ],
            (2, Fault::FreedTooEarly(End::Sender)),
        ),
        (
            "the receiver is idle before its calls",
            "ssrrrrr",
            &[Edit::Idle(3, End::Receiver)],
            (3, Fault::IdleTooEarly(End::Receiver)),
        ),
        (
            "the sender is idle before its call",
            "s",
            &[
                Edit::Idle(1, End::Sender),
                Edit::Rest(Some((Place::NotSent, 7))),
            ],
            (1, Fault::IdleTooEarly(End::Sender)),
        ),
        (
            "the freed block is not reported",
            "ssrrrrr",
            &[Edit::BlockFreed(false)],
            (7, Fault::ToldFreed { block_freed: false }),
        ),
        (
            "the block is reported as freed too early",
            "ssrrrr",
            &[Edit::BlockFreed(true)],
            (6, Fault::ToldFreed { block_freed: true }),
        ),
    ],
);

// 1 S write-message NotSent>InCell, 2 S add 3>4 = Ok, 3 R swap 4>2, 4 R drop-message InCell>Dropped,
// 5 R free = dropped.
pub(crate) const DROPPED: Damaged = (
    "S send 7\nR drop",
    &[
        (
            "the drop drops nothing",
            "ssrr",
            &[Edit::Message(4, None), Edit::Rest(Some((Place::InCell, 7)))],
            (4, Fault::MovesNothing),
        ),
        (
            "the message is never sent",
            "ssrrr",
            &[
                Edit::Remove(4),
                Edit::Remove(1),
                Edit::Rest(Some((Place::NotSent, 7))),
            ],
            (3, Fault::MessageLeft(Place::NotSent)),
        ),
        (
            "the receiver swaps behind the free",
            "ssrrr",
            &[
                Edit::MoveBefore(4, 3),
                Edit::MoveBefore(5, 4),
                Edit::Reply(4, None),
                Edit::Reply(5, Some(Reply::Done)),
            ],
            (5, Fault::NotHolder(End::Receiver)),
        ),
        (
            "the message is dropped behind the free",
            "ssrrr",
            &[
                Edit::MoveBefore(5, 4),
                Edit::Reply(4, None),
                Edit::Reply(5, Some(Reply::Done)),
            ],
            (5, Fault::NotHolder(End::Receiver)),
        ),
        (
            "the receiver writes its waker behind its swap",
            "r",
            &[
                Edit::Double(1),
                Edit::Reply(1, None),
                Edit::Step(2, Step::WriteWaker),
                Edit::Waker(
                    2,
                    Some((WakerName::Parker, WakerPlace::Hand, WakerPlace::Cell)),
                ),
            ],
            (2, Fault::NotHolder(End::Receiver)),
        ),
    ],
);

// 1 S write-message NotSent>InCell, 2 S add 3>4 = Ok, 3 R load 4 = true, 4 R load 4 = false.
pub(crate) const LOOKED_AT: Damaged = (
    "S send 7\nR full closed drop",
    &[
        (
            "the look misses the message",
            "ssrr",
            &[Edit::Reply(3, Some(Reply::No))],
            (
                3,
                Fault::WrongReply {
                    reply: Reply::No,
                    wanted: Some(Reply::Yes),
                },
            ),
        ),
        (
            "the look finds the receiver closed beside the message",
            "ssrr",
            &[Edit::Reply(4, Some(Reply::Yes))],
            (
                4,
                Fault::WrongReply {
                    reply: Reply::Yes,
                    wanted: Some(Reply::No),
                },
            ),
        ),
    ],
);
