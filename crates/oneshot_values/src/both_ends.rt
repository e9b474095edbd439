//! Laws of both ends of a channel: what one end leaves is there for the other.

ghost use Rattle.oneshot_values.specs.EndedSenders.{LastWordsAreThere, SentMessagesAreThere, OpenReceiversSeek};
ghost use Rattle.oneshot_values.specs.FirstFound.{ReceivesByFirstWord, SendsByFirstWord};
ghost use Rattle.oneshot_values.specs.LeftReceivers.{LeavingWordsAreThere, LostReceiversWereDropped};
ghost use Rattle.oneshot_values.specs.ToldEnds.{FoundMessagesWereSent, LostSendersWereDropped};

use oneshot_ends::Promise;

/// What a sender leaves is there for its receiver. At each moment (`AtOneMoment`) at which the sender has performed its
/// last operation (`SenderIsOver`), and the receiver has found neither the message nor that none will come and was not
/// dropped (`IsSeeking`):
///
/// - the word is `MESSAGE` after a `send`, and `DISCONNECTED` after a drop (`word`);
/// - after a `send`, the message that the sender gave is in its slot (`message`).
///
/// Each open receiver is such a receiver (`open`). Each run of a receive or a poll has an operation. If the first one
/// finds `MESSAGE`, the reply is the message; if it finds `DISCONNECTED`, the reply is that none will come (`replies`).
///
/// In the other direction: a receiver whose operations found the message has a sender whose `send` has performed its
/// last operation (`sent`). A receiver that found that no message will come, and whose operations found none, has a
/// sender whose drop has performed its last operation (`dropped`).
///
/// No clause states that an operation finds and notes the word that is there. `atomic_table` promises the first, and
/// `specs/Plays.antt` of `oneshot_word` has the notes.
pub fn what_a_sender_leaves_is_there<T, P: Promise<T>>()
    ensures word { LastWordsAreThere P.keeps }
    ensures message { SentMessagesAreThere P.keeps }
    ensures open { OpenReceiversSeek }
    ensures replies { ReceivesByFirstWord T }
    ensures sent { FoundMessagesWereSent P.keeps }
    ensures dropped { LostSendersWereDropped P.keeps }
{}

/// What a receiver leaves is there for its sender. At each moment (`AtOneMoment`) at which the drop of a receiver or a
/// future has performed its last operation (`HasLeft`), and the sender has performed none, the word is `DISCONNECTED`
/// (`word`). Each run of a `send` has an operation. If the first one finds `DISCONNECTED`, the `send` is refused
/// (`replies`).
///
/// In the other direction: a sender whose last operation found the receiver gone (`IsLate`, as in each `SendError`) has
/// a receiver whose drop has performed its last operation (`dropped`).
///
/// No clause states that an operation finds and notes the word that is there, as in `what_a_sender_leaves_is_there`.
/// `dropped`, the function that releases the ground of a dropped receiver, requires `HasLeft`.
pub fn what_a_receiver_leaves_is_there<T, P: Promise<T>>()
    ensures word { LeavingWordsAreThere P.keeps }
    ensures replies { SendsByFirstWord T }
    ensures dropped { LostReceiversWereDropped P.keeps }
{}
