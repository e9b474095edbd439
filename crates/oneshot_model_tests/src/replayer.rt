//! Tests of runs that are stepped by hand.

use oneshot_asserts::{Asserts, assert_same};
use oneshot_machine::machine::{End, ReceiverStart, Seen, SenderCall, Step};
use oneshot_machine::states::Op;
use oneshot_replay::{
    CallList, Entry, ErrorLast, ErrorScript, Made, Move, ReceiverCall, ReceiverLast,
    ReceiverScript, Replayer, Rest, SenderLast, SenderScript, WakerName, WakerPlace,
};
use std::alloc::AllocGlobal;

/// The receiver's move, with no deadline over and no copy refused.
const RECEIVER: Move = Move::Receiver {
    over: false,
    refuse: false,
};

/// The moves of the long run.
const MOVES: usize = 1_000_000;

fn send(message: u64, last: ErrorLast) -> SenderScript<u64> {
    SenderScript {
        looks: 0,
        last: SenderLast::Send(message, ErrorScript { looks: 0, last }),
    }
}

/// A receiver's script of these calls.
fn receive(
    rt: &(impl Asserts + AllocGlobal),
    calls: &[ReceiverCall],
    last: ReceiverLast,
) -> ReceiverScript {
    let calls = Vec::from_slice(rt.alloc(), calls).expect(rt, "memory");
    ReceiverScript {
        calls: CallList::from(calls),
        last,
    }
}

/// A move; then the call of each end after it, and whether the block is freed.
type Case = (Move, Option<SenderCall>, Option<ReceiverStart>, bool);

const MOVES_OF_A_REFUSED_SEND: &[Case; 5] = &[
    (RECEIVER, Some(SenderCall::Send), None, false),
    (Move::Sender, Some(SenderCall::Send), None, false),
    (Move::Sender, Some(SenderCall::IntoInner), None, false),
    (Move::Sender, Some(SenderCall::IntoInner), None, false),
    (Move::Sender, None, None, true),
];

#[test]
fn a_refused_message_is_followed_move_by_move(rt: HostRuntime) {
    let receiver = receive(&rt, &[], ReceiverLast::Drop);
    let mut replayer = Replayer::new(send(7, ErrorLast::IntoInner), receiver);
    let calls = (Some(SenderCall::Send), Some(ReceiverStart::Drop));
    assert_progress(&rt, &replayer, 0, calls, false);
    for (i, (made, sender, receiver, freed)) in MOVES_OF_A_REFUSED_SEND.iter().enumerate() {
        let number = i + 1;
        // What its calls are and whether the block is freed show that the step was made.
        let _ = replayer.step(*made);
        assert_progress(&rt, &replayer, number, (*sender, *receiver), *freed);
    }
    assert!(rt; matches!(replayer.into_rest(), Some(Rest::FromError(7))));
}

/// Fails unless the run has this many entries and these calls of its ends, and `freed` says whether its block is freed.
fn assert_progress(
    rt: &impl Asserts,
    replayer: &Replayer<u64>,
    count: usize,
    calls: (Option<SenderCall>, Option<ReceiverStart>),
    freed: bool,
) {
    let found = (replayer.sender_call(), replayer.receiver_call());
    assert_same!(rt;
        (replayer.count(), found, replayer.block_freed()),
        (count, calls, freed)
    );
}

/// The entry of this number, from 1, in a run of a `recv_ref` that nobody wakes.
fn waiting(number: usize) -> Entry {
    let parks = (WakerName::Parker, WakerPlace::Hand, WakerPlace::Cell);
    let (step, seen, before, after, waker) = match number {
        1 => (Step::Word(Op::Load), Seen::Word(3), 3, 3, None),
        2 => (Step::WriteWaker, Seen::Done, 3, 3, Some(parks)),
        3 => (Step::Word(Op::Swap(0)), Seen::Word(3), 3, 0, None),
        _ if number % 2 == 0 => (Step::Park, Seen::Token(false), 0, 0, None),
        _ => (Step::Word(Op::Load), Seen::Word(0), 0, 0, None),
    };
    Entry::Made(Made {
        side: End::Receiver,
        step,
        seen,
        before: Some(before),
        after: Some(after),
        message: None,
        waker,
        token_set: false,
        own: None,
        reply: None,
    })
}

#[test]
fn a_receiver_that_nobody_wakes_parks_and_loads_in_turn(rt: HostRuntime) {
    let receiver = receive(&rt, &[ReceiverCall::RecvRef], ReceiverLast::Stop);
    let mut replayer = Replayer::new(send(7, ErrorLast::Stop), receiver);
    for i in 0..MOVES {
        let number = i + 1;
        assert_waiting(&rt, number, replayer.step(RECEIVER));
    }
    assert_same!(rt; replayer.count(), MOVES);
}

/// Fails unless this is the entry of this number in a run whose receiver waits.
fn assert_waiting(rt: &impl Asserts, number: usize, entry: Entry) {
    assert_same!(rt; (number, entry), (number, waiting(number)));
}
