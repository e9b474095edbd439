//! Damaged traces of a refused message and its error.

use crate::auditor::Fault;
use crate::damage::Edit;
use crate::damaged::Damaged;
use oneshot_machine::machine::{End, Reply, Step};
use oneshot_machine::states::DISCONNECTED;
use oneshot_replay::Place;

// 1 R swap 3>2 = dropped, 2 S load 2 = true, 3 S write-message NotSent>InCell,
// 4 S add 2>3 InCell>InError = Err, 5 S plain = 7, 6 S take-message InError>FromError, 7 S free = 7.
pub(crate) const TAKEN_BACK: Damaged = (
    "S closed send 7 inner into\nR drop",
    &[
        (
            "the look misses that the receiver is gone",
            "rssssss",
            &[Edit::Reply(2, Some(Reply::No))],
            (
                2,
                Fault::WrongReply {
                    reply: Reply::No,
                    wanted: Some(Reply::Yes),
                },
            ),
        ),
        (
            "the send is refused without its message",
            "rssssss",
            &[Edit::Message(4, None)],
            (
                4,
                Fault::ReplyWithoutMessage {
                    wanted: Place::InError,
                },
            ),
        ),
        (
            "the message skips its error",
            "rssssss",
            &[Edit::Message(4, Some((Place::InCell, Place::FromError)))],
            (
                4,
                Fault::MessageMove {
                    from: Place::InCell,
                    to: Place::FromError,
                },
            ),
        ),
        (
            "the send is accepted with the receiver gone",
            "rssssss",
            &[Edit::Message(4, None), Edit::Reply(4, Some(Reply::Sent))],
            (
                4,
                Fault::WrongReply {
                    reply: Reply::Sent,
                    wanted: Some(Reply::Refused),
                },
            ),
        ),
        (
            "the look at the message answers in other words",
            "rssss",
            &[Edit::Reply(5, Some(Reply::Done))],
            (
                5,
                Fault::WrongReply {
                    reply: Reply::Done,
                    wanted: Some(Reply::Message),
                },
            ),
        ),
        (
            "the error shows the message that the receiver dropped",
            "rssss",
            &[
                Edit::Reply(1, None),
                Edit::Double(5),
                Edit::Side(5, End::Receiver),
                Edit::Message(5, Some((Place::InError, Place::Dropped))),
                Edit::Reply(5, Some(Reply::Done)),
                Edit::Rest(Some((Place::Dropped, 7))),
            ],
            (
                6,
                Fault::ReplyWithoutMessage {
                    wanted: Place::InError,
                },
            ),
        ),
        (
            "the error answers with the message that it did not take",
            "rssssss",
            &[Edit::Remove(6)],
            (
                6,
                Fault::ReplyWithoutMessage {
                    wanted: Place::FromError,
                },
            ),
        ),
        (
            "the taking of the message answers in other words",
            "rssssss",
            &[Edit::Reply(7, Some(Reply::Done))],
            (
                7,
                Fault::WrongReply {
                    reply: Reply::Done,
                    wanted: Some(Reply::Message),
                },
            ),
        ),
        (
            "the message is taken out of a block that is freed",
            "rssssss",
            &[
                Edit::MoveBefore(7, 6),
                Edit::Reply(6, None),
                Edit::Reply(7, Some(Reply::Message)),
            ],
            (7, Fault::NotHolder(End::Sender)),
        ),
        (
            "the taking of the message leaves the block",
            "rssssss",
            &[
                Edit::Remove(7),
                Edit::Reply(6, Some(Reply::Message)),
                Edit::BlockFreed(false),
            ],
            (6, Fault::NeverFreed),
        ),
    ],
);

// 1 R swap 3>2 = dropped, 2 S write-message NotSent>InCell, 3 S add 2>3 InCell>InError = Err,
// 4 S drop-message InError>Dropped, 5 S free = dropped. Under srs the first two change places.
pub(crate) const DROPPED: Damaged = (
    "S send 7 drop\nR drop",
    &[
        (
            "the receiver puts the message into the error",
            "srs",
            &[
                Edit::Message(2, Some((Place::InCell, Place::InError))),
                Edit::Message(3, None),
            ],
            (2, Fault::MessagePut { to: Place::InError }),
        ),
        (
            "the message is left in the error",
            "rssss",
            &[Edit::Remove(4), Edit::Rest(Some((Place::InError, 7)))],
            (4, Fault::MessageLeft(Place::InError)),
        ),
        (
            "the drop of the error gives the message back",
            "rssss",
            &[
                Edit::Message(4, Some((Place::InError, Place::FromError))),
                Edit::Rest(Some((Place::FromError, 7))),
            ],
            (
                4,
                Fault::MessagePut {
                    to: Place::FromError,
                },
            ),
        ),
        (
            "the drop of the error answers in other words",
            "rssss",
            &[Edit::Reply(5, Some(Reply::Yes))],
            (
                5,
                Fault::WrongReply {
                    reply: Reply::Yes,
                    wanted: Some(Reply::Done),
                },
            ),
        ),
        (
            "the drop of the error leaves the block",
            "rssss",
            &[
                Edit::Remove(5),
                Edit::Reply(4, Some(Reply::Done)),
                Edit::BlockFreed(false),
            ],
            (4, Fault::NeverFreed),
        ),
    ],
);

// 1 R load 3, 2 S write-message NotSent>InCell, 3 S add 3>4 = Ok, 4 R write-waker Hand>Cell.
pub(crate) const BESIDE_A_RECEIVE: Damaged = (
    "S send 7\nR recv",
    &[(
        "the receive takes the message that was refused",
        "rssr",
        &[
            Edit::Before(1, DISCONNECTED),
            Edit::Message(3, Some((Place::InCell, Place::InError))),
            Edit::Reply(3, Some(Reply::Refused)),
            Edit::Step(4, Step::Plain),
            Edit::Waker(4, None),
            Edit::Message(4, Some((Place::InError, Place::Delivered))),
            Edit::Rest(Some((Place::Delivered, 7))),
        ],
        (
            4,
            Fault::MessageMove {
                from: Place::InError,
                to: Place::Delivered,
            },
        ),
    )],
);
