//! A receive on one thread beside the sender's act on another. If a wake did nothing, it would not end.

use super::open;
use oneshot_asserts::{Asserts, assert_that};
use oneshot_calls::{Bare, ReceiverCall, Receiving, Reply, SenderCall, Sending, script, shows};
use oneshot_channel::{Receiver, Sender};
use std::alloc::AllocGlobal;
use std::random::RandomSource;
use std::sync::atomic::{AtomicU64, Ordering};
use std::sync::{Arc, Wait};
use std::thread::{Threads, join, sleep, yield_now};
use std::time::{Clock, CpuClock, Duration};

/// Scripts of receivers that wait for an hour or longer. After `ref`, each later receive fails.
pub(super) const WAITS: [&str; 6] = [
    "recv",
    "ref try ref",
    "fardeadline",
    "fartimeout",
    "forever",
    "future await",
];

/// What both ends do: their scripts.
#[derive(Clone, Copy, Debug)]
pub(super) struct Calls<'a> {
    pub(super) sends: &'a [SenderCall],
    pub(super) receives: &'a [ReceiverCall],
}

/// When both threads act.
#[derive(Drop)]
pub(super) struct Pace {
    /// Counts each thread as it comes, and then the sender as it acts.
    here: AtomicU64,
    before: Before,
}

/// What the sender does before its act, once both threads are here.
#[derive(Clone, Copy)]
pub(super) enum Before {
    /// It sleeps for this duration.
    Sleep(Duration),
    /// It makes this number of loads.
    Load(u64),
}

/// What came of a receive beside the sender's act.
#[derive(Drop)]
pub(super) struct Received {
    /// The first reply that has the message, or states that none comes.
    pub(super) reply: Reply<Arc<u64>>,
    /// Whether the sender had come to its act when the receive ended.
    waited: bool,
    /// The processor time of the receive.
    pub(super) used: Duration,
}

/// More loads than a thread makes while another starts.
const SPINS: u64 = 100_000_000;

/// How many loads a running thread makes while the other starts.
const QUICK: u64 = 20_000;

impl Calls<'_> {
    /// Whether the sender sends its message.
    fn has_send(self) -> bool {
        self.sends.contains(&SenderCall::Send)
    }
}

impl Pace {
    pub(super) fn new(before: Before) -> Pace {
        Pace {
            here: AtomicU64::new(0),
            before,
        }
    }

    /// Returns once both threads are here, or after `SPINS` loads. After `QUICK` loads it also yields.
    fn meet(&self) {
        self.here.fetch_add(1, Ordering::SeqCst);
        for spin in 0..SPINS {
            if self.here.load(Ordering::SeqCst) >= 2 {
                return;
            }
            if spin > QUICK {
                yield_now();
            }
        }
    }

    /// Waits until the sender acts, and counts it.
    fn act(&self, rt: &impl Clock) {
        self.meet();
        match self.before {
            Before::Sleep(time) => sleep(rt, time),
            Before::Load(loads) => {
                for _ in 0..loads {
                    self.here.load(Ordering::SeqCst);
                }
            }
        }
        self.here.fetch_add(1, Ordering::SeqCst);
    }

    /// Whether the sender has come to its act.
    fn has_acted(&self) -> bool {
        self.here.load(Ordering::SeqCst) > 2
    }
}

/// The first of two replies that has the message or states that none comes. Fails if a message comes after that.
fn first_of(rt: &impl Asserts, first: Reply<Arc<u64>>, later: Reply<Arc<u64>>) -> Reply<Arc<u64>> {
    if matches!(
        first,
        Reply::Bare(Bare::Nothing | Bare::Timeout | Bare::Future)
    ) {
        return later;
    }
    if later.message().is_some() {
        panic!(rt; "a second receive gets a message");
    }
    first
}

/// Makes the calls. Returns the first reply that has the message or states that none comes. Fails if a later receive
/// returns a message.
fn receive<R: Wait + Clock + RandomSource + AllocGlobal + Asserts>(
    rt: &R,
    calls: &[ReceiverCall],
    receiver: Receiver<Arc<u64>, &R>,
) -> Reply<Arc<u64>> {
    let mut receiving = Receiving::new(receiver);
    let mut first = Reply::Bare(Bare::Nothing);
    for call in calls {
        let reply = receiving.make(rt, None, *call);
        first = first_of(rt, first, reply);
    }
    first
}

/// The processor time that this thread has used.
pub(super) fn used_time(rt: &(impl CpuClock + Asserts)) -> Duration {
    rt.thread_cpu_time().expect(rt, "the processor's clock")
}

/// Receives at this pace.
fn receive_at<R: Wait + Clock + CpuClock + RandomSource + AllocGlobal + Asserts>(
    rt: &R,
    pace: &Pace,
    calls: &[ReceiverCall],
    receiver: Receiver<Arc<u64>, &R>,
) -> Received {
    pace.meet();
    let before = used_time(rt);
    let reply = receive(rt, calls, receiver);
    let waited = pace.has_acted();
    let used = used_time(rt).saturating_sub(before);
    Received {
        reply,
        waited,
        used,
    }
}

/// Makes the calls, and returns the last reply. Stops at a look that finds the receiver gone.
fn send(calls: &[SenderCall], mut sending: Sending<Arc<u64>, Sender<Arc<u64>>>) -> Reply<u64> {
    let mut last = Reply::Bare(Bare::Nothing);
    for call in calls {
        last = sending.make(*call).numbered();
        if matches!(last, Reply::Bare(Bare::Yes)) {
            break;
        }
    }
    last
}

/// Makes the calls at this pace, and returns the last reply.
fn send_at(
    rt: &impl Clock,
    pace: &Pace,
    calls: &[SenderCall],
    sender: Sender<Arc<u64>>,
    message: Arc<u64>,
) -> Reply<u64> {
    pace.act(rt);
    send(calls, Sending::new(sender, Some(message)))
}

/// Makes both ends' calls, each on a thread of its own. Returns what came of the receive, and the last reply of the
/// sender.
pub(super) fn beside<
    R: Threads + Wait + Clock + CpuClock + RandomSource + AllocGlobal + Asserts + Sync,
>(rt: &R, message: Arc<u64>, calls: Calls<'_>, pace: &Pace) -> (Received, Reply<u64>) {
    let (sender, receiver) = open(rt, rt);
    join(
        rt,
        || receive_at(rt, pace, calls.receives, receiver),
        || send_at(rt, pace, calls.sends, sender, message),
    )
}

/// Fails unless the receive waits for the sender's act, gets the message if the sender sends it and none otherwise, and
/// unless the message then has no other owner.
pub(super) fn assert_receives<
    R: Threads + Wait + Clock + CpuClock + RandomSource + AllocGlobal + Asserts + Sync,
>(rt: &R, calls: Calls<'_>, before: Before) {
    let shared = Arc::new(rt.alloc(), 19).expect(rt, "memory");
    let message = Arc::try_clone(&shared).expect(rt, "memory");
    let (received, sent) = beside(rt, message, calls, &Pace::new(before));
    assert_outcome(rt, calls, &shared, received, sent);
}

/// Fails unless this is the outcome of these calls: the sender's sends `shared` or drops it, and the receive waits for
/// it. Fails also if `shared` then has another owner.
fn assert_outcome(
    rt: &impl Asserts,
    calls: Calls<'_>,
    shared: &Arc<u64>,
    received: Received,
    sent: Reply<u64>,
) {
    assert_sent(rt, calls, shared, received.waited, sent);
    assert_received(rt, calls, received.reply.numbered());
    assert_that!(rt; Arc::strong_count(shared) == 1, (calls, "kept"));
}

/// Fails unless `sent` is the reply of the sender of these calls, the receive waited for it, and the reply of the
/// receive has `shared` if it was sent, and nobody has it if not.
fn assert_sent(
    rt: &impl Asserts,
    calls: Calls<'_>,
    shared: &Arc<u64>,
    waited: bool,
    sent: Reply<u64>,
) {
    let (wanted, owners) = if calls.has_send() {
        ("Ok", 2)
    } else {
        ("dropped", 1)
    };
    let is_right = waited && shows(&sent, wanted) && Arc::strong_count(shared) == owners;
    assert_that!(rt; is_right, (calls, &sent, waited));
}

/// Fails unless this is the reply of the receive among these calls.
fn assert_received(rt: &impl Asserts, calls: Calls<'_>, received: Reply<u64>) {
    let is_right = if calls.has_send() {
        shows(&received, "Ok(19)")
    } else {
        shows(&received, "Err(RecvError)") || shows(&received, "Err(Disconnected)")
    };
    assert_that!(rt; is_right, (calls, &received));
}

/// Asserts an outcome that no receive beside `call` has, and so fails. A message that `call` sends has another owner.
fn refuse_outcome(
    rt: &(impl Asserts + AllocGlobal),
    call: SenderCall,
    waited: bool,
    sent: Bare,
    received: Bare,
) {
    let shared = Arc::new(rt.alloc(), 19).expect(rt, "memory");
    let _other = if call == SenderCall::Send {
        Arc::try_clone(&shared).ok()
    } else {
        None
    };
    let received = Received {
        reply: Reply::Bare(received),
        waited,
        used: Duration::ZERO,
    };
    let calls = Calls {
        sends: &[call],
        receives: &[ReceiverCall::Recv],
    };
    assert_outcome(rt, calls, &shared, received, Reply::Bare(sent));
}

#[test]
#[should_panic(expected = "sends: [Drop], receives: [Recv] }, Err(Timeout))")]
fn a_receive_that_runs_out_ends_a_test(rt: HostRuntime) {
    refuse_outcome(&rt, SenderCall::Drop, true, Bare::Dropped, Bare::Timeout);
}

#[test]
#[should_panic(expected = "sends: [Drop], receives: [Recv] }, dropped, false)")]
fn a_receive_that_does_not_wait_ends_a_test(rt: HostRuntime) {
    refuse_outcome(&rt, SenderCall::Drop, false, Bare::Dropped, Bare::Ended);
}

#[test]
#[should_panic(expected = "sends: [Send], receives: [Recv] }, Err, true)")]
fn a_message_that_is_not_sent_ends_a_test(rt: HostRuntime) {
    refuse_outcome(&rt, SenderCall::Send, true, Bare::Refused, Bare::Ended);
}

#[test]
#[should_panic(expected = "sends: [Drop], receives: [] }, ")]
fn a_receiver_without_a_call_ends_a_test(rt: HostRuntime) {
    let calls = Calls {
        sends: &[SenderCall::Drop],
        receives: &[],
    };
    assert_receives(&rt, calls, Before::Load(0));
}

/// Fails unless each receive of `WAITS` waits for the act of these calls.
fn assert_each_waits<
    R: Threads + Wait + Clock + CpuClock + RandomSource + AllocGlobal + Asserts + Sync,
>(rt: &R, sends: &[SenderCall]) {
    for receives in WAITS {
        let receives = script::<ReceiverCall>(rt.alloc(), receives).expect(rt, "a script");
        let calls = Calls {
            sends,
            receives: &receives,
        };
        assert_receives(rt, calls, Before::Sleep(Duration::from_millis(2)));
    }
}

#[test]
#[should_panic(expected = "sends: [], receives: [Recv] }, nothing")]
fn a_wait_without_an_act_ends_a_test(rt: HostRuntime) {
    assert_each_waits(&rt, &[]);
}

#[test]
fn each_receive_waits_for_each_act(rt: HostRuntime) {
    for sends in ["closed send", "drop", "dropraw"] {
        let sends = script::<SenderCall>(rt.alloc(), sends).expect(&rt, "a script");
        assert_each_waits(&rt, &sends);
    }
}
