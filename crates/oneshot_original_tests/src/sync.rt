//! The tests of `tests/sync.rs`: both ends on one thread, and on two.
//!
//! Left out: `non_send_type_can_be_used_on_same_thread`, since a message's type is `Send` here.

use super::counted::Drops;
use super::ends::{ends, idle_ends};
use super::threads::{Act, By, Pace, ROUNDS, assert_outcomes, assert_raced};
use super::times::{in_time, now, second, tenth, time_since};
use oneshot::{Receiver, RecvError, RecvTimeoutError, SendError, TryRecvError};
use oneshot_asserts::{Asserts, assert_same};
use std::fmt::Debug;
use std::sync::Wait;
use std::time::{Clock, Duration};

// Fails unless the first try gets the message, and another finds that none will come.
fn assert_tried_once<R>(rt: &impl Asserts, receiver: &mut Receiver<i128, &R>) {
    assert!(rt; receiver.has_message());
    assert_same!(rt; receiver.try_recv(), Ok(19));
    assert!(rt; !receiver.has_message());
    assert_same!(rt; receiver.try_recv(), Err(TryRecvError::Disconnected));
}

#[test]
fn send_before_try_recv(rt: HostRuntime) {
    let (sender, mut receiver) = ends(&rt);
    assert!(rt; !receiver.has_message());
    assert!(rt; sender.send(19).is_ok());
    assert_tried_once(&rt, &mut receiver);
    assert_same!(rt; receiver.recv_ref(), Err(RecvError));
    let timed = receiver.recv_timeout(second());
    assert_same!(rt; timed, Err(RecvTimeoutError::Disconnected));
}

// Sends `message`, and then receives it. Fails if it is refused. `None`: it did not come.
fn carried<R: Wait + Clock + AllocGlobal + Asserts, T: Send + Drop>(
    rt: &R,
    message: T,
) -> Option<T> {
    let (sender, receiver) = ends(rt);
    assert!(rt; sender.send(message).is_ok());
    receiver.recv().ok()
}

#[test]
fn send_before_recv(rt: HostRuntime) {
    assert_same!(rt; carried(&rt, ()), Some(()));
    assert_same!(rt; carried(&rt, 19u8), Some(19));
    assert_same!(rt; carried(&rt, 21u64), Some(21));
    let page = [0b1010_1010u8; 4096];
    let received = carried(&rt, page).expect(&rt, "the page");
    assert!(rt; received.as_slice() == page.as_slice());
}

// Fails unless these calls, which leave the receiver, find that no message will come.
fn assert_ended<R: Wait + Clock + Asserts>(rt: &R, receiver: &mut Receiver<i128, &R>) {
    assert_same!(rt; receiver.recv_ref(), Err(RecvError));
    assert_same!(rt; receiver.try_recv(), Err(TryRecvError::Disconnected));
    let timed = receiver.recv_timeout(second());
    assert_same!(rt; timed, Err(RecvTimeoutError::Disconnected));
}

#[test]
fn send_before_recv_ref(rt: HostRuntime) {
    let (sender, mut receiver) = ends(&rt);
    assert!(rt; sender.send(19).is_ok());
    assert_same!(rt; receiver.recv_ref(), Ok(19));
    assert!(rt; receiver.is_closed());
    assert_ended(&rt, &mut receiver);
}

// How long a receive by a timeout takes. Fails unless it returns `wanted`.
fn time_of_timeout<R: Wait + Clock + Asserts, T: PartialEq + Debug + Drop>(
    rt: &R,
    receiver: &mut Receiver<T, &R>,
    timeout: Duration,
    wanted: Result<T, RecvTimeoutError>,
) -> Duration {
    let start = now(rt);
    let received = receiver.recv_timeout(timeout);
    let took = time_since(rt, start);
    assert_same!(rt; received, wanted);
    took
}

// Fails unless these calls, of which the last consumes the receiver, find that no message will come.
fn assert_ended_to_the_last<R: Wait + Clock + Asserts>(rt: &R, mut receiver: Receiver<i128, &R>) {
    let timed = receiver.recv_timeout(second());
    assert_same!(rt; timed, Err(RecvTimeoutError::Disconnected));
    assert_same!(rt; receiver.try_recv(), Err(TryRecvError::Disconnected));
    assert_same!(rt; receiver.recv(), Err(RecvError));
}

// How long the receive of a message takes that was sent before. Fails unless later receives find that none will come.
fn time_after_send<R: Wait + Clock + AllocGlobal + Asserts>(rt: &R) -> Duration {
    let (sender, mut receiver) = ends(rt);
    assert!(rt; sender.send(19).is_ok());
    let took = time_of_timeout(rt, &mut receiver, second(), Ok(19));
    assert_ended_to_the_last(rt, receiver);
    took
}

#[test]
fn send_before_recv_timeout(rt: HostRuntime) {
    in_time(&rt, 1, || time_after_send(&rt));
}

// Sends `message`, and returns the receiver.
fn sent<T: Send + Drop>(rt: &(impl AllocGlobal + Asserts), message: T) -> Receiver<T, ()> {
    let (sender, receiver) = idle_ends(rt);
    assert!(rt; sender.send(message).is_ok());
    receiver
}

#[test]
fn send_then_drop_receiver(rt: HostRuntime) {
    let receiver = sent(&rt, 19i128);
    drop(receiver);
}

// Returns the error of a send whose receiver is gone.
fn refused<T: Send + Drop>(rt: &(impl AllocGlobal + Asserts), message: T) -> SendError<T> {
    let (sender, _) = idle_ends(rt);
    match sender.send(message) {
        Ok(()) => panic!(rt; "the receiver is gone"),
        Err(error) => error,
    }
}

#[test]
fn send_with_dropped_receiver(rt: HostRuntime) {
    let error = refused(&rt, 5u128);
    assert_same!(rt; *error.as_inner(), 5);
    assert_same!(rt; error.into_inner(), 5);
}

#[test]
fn try_recv_with_dropped_sender(rt: HostRuntime) {
    let (_, mut receiver) = idle_ends::<u128, _>(&rt);
    assert!(rt; !receiver.has_message());
    assert_same!(rt; receiver.try_recv(), Err(TryRecvError::Disconnected));
}

#[test]
fn recv_with_dropped_sender(rt: HostRuntime) {
    let (_, receiver) = ends::<u128, _>(&rt);
    assert!(rt; receiver.is_closed());
    assert_same!(rt; receiver.recv(), Err(RecvError));
}

const SEND: Act<u128> = Act("send into", 9);

const DROP: Act<u128> = Act("drop", 9);

/// A send after a while, in which the receiver begins to wait.
const IN_A_WHILE: Pace = Pace {
    rounds: ROUNDS,
    pause: 2,
};

#[test]
fn recv_before_send(rt: HostRuntime) {
    let outcomes = [("Ok", "Ok(9)")];
    assert_outcomes(&rt, IN_A_WHILE, SEND, By::Receiver("recv"), &outcomes);
}

#[test]
fn recv_timeout_before_send(rt: HostRuntime) {
    let outcomes = [("Ok", "Ok(9)")];
    assert_outcomes(
        &rt,
        IN_A_WHILE,
        SEND,
        By::Receiver("longtimeout"),
        &outcomes,
    );
}

/// A drop after a longer while.
const LATER: Pace = Pace {
    rounds: ROUNDS,
    pause: 10,
};

#[test]
fn recv_before_send_then_drop_sender(rt: HostRuntime) {
    let outcomes = [("dropped", "Err(RecvError)")];
    assert_outcomes(&rt, LATER, DROP, By::Receiver("recv"), &outcomes);
}

#[test]
fn recv_timeout_before_send_then_drop_sender(rt: HostRuntime) {
    let outcomes = [("dropped", "Err(Disconnected)")];
    assert_outcomes(&rt, LATER, DROP, By::Receiver("longtimeout"), &outcomes);
}

#[test]
fn try_recv(rt: HostRuntime) {
    let (sender, mut receiver) = idle_ends::<u128, _>(&rt);
    assert_same!(rt; receiver.try_recv(), Err(TryRecvError::Empty));
    drop(sender);
}

#[test]
fn try_recv_then_drop_receiver(rt: HostRuntime) {
    let send = Act("send into", 42u128);
    let outcomes = [("Ok", "Ok(42)"), ("Ok", "Err(Empty)"), ("42", "Err(Empty)")];
    assert_raced(&rt, send, By::Receiver("try"), &outcomes);
}

// How long a receive takes whose deadline is `time` after its start. Fails unless it times out.
fn time_of_deadline<R: Wait + Clock + Asserts>(
    rt: &R,
    receiver: &mut Receiver<u128, &R>,
    time: Duration,
) -> Duration {
    let start = now(rt);
    let deadline = start.checked_add(time);
    let received = receiver.recv_deadline(deadline.expect(rt, "an instant can hold it"));
    let took = time_since(rt, start);
    assert_same!(rt; received, Err(RecvTimeoutError::Timeout));
    took
}

// The longer of two times: of a receive whose deadline is now, and of one whose timeout is zero. Fails unless both time
// out.
fn time_without_wait<R: Wait + Clock + AllocGlobal + Asserts>(rt: &R) -> Duration {
    let (_sender, mut receiver) = ends(rt);
    let by_deadline = time_of_deadline(rt, &mut receiver, Duration::ZERO);
    let timeout = Err(RecvTimeoutError::Timeout);
    let by_timeout = time_of_timeout(rt, &mut receiver, Duration::ZERO, timeout);
    by_deadline.max(by_timeout)
}

#[test]
fn recv_deadline_and_timeout_no_time(rt: HostRuntime) {
    in_time(&rt, 2, || time_without_wait(&rt));
}

// How long a receive waits for a deadline in a tenth of a second. Fails unless that time elapses.
fn wait_for_deadline<R: Wait + Clock + AllocGlobal + Asserts>(rt: &R) -> Duration {
    let (_sender, mut receiver) = ends(rt);
    let took = time_of_deadline(rt, &mut receiver, tenth());
    assert!(rt; took > tenth());
    took
}

#[test]
fn recv_deadline_time_should_elapse(rt: HostRuntime) {
    in_time(&rt, 3, || wait_for_deadline(&rt));
}

// How long a receive waits for a timeout of a tenth of a second. Fails unless that time elapses.
fn wait_for_timeout<R: Wait + Clock + AllocGlobal + Asserts>(rt: &R) -> Duration {
    let (_sender, mut receiver) = ends::<u128, _>(rt);
    let timeout = Err(RecvTimeoutError::Timeout);
    let took = time_of_timeout(rt, &mut receiver, tenth(), timeout);
    assert!(rt; took > tenth());
    took
}

#[test]
fn recv_timeout_time_should_elapse(rt: HostRuntime) {
    in_time(&rt, 3, || wait_for_timeout(&rt));
}

#[test]
fn message_in_channel_dropped_on_receiver_drop(rt: HostRuntime) {
    let drops = Drops::new();
    let message = drops.message(());
    assert_same!(rt; drops.count(), 0);
    let receiver = sent(&rt, message);
    assert_same!(rt; drops.count(), 0);
    drop(receiver);
    assert_same!(rt; drops.count(), 1);
}

#[test]
fn send_error_drops_message_correctly(rt: HostRuntime) {
    let drops = Drops::new();
    let error = refused(&rt, drops.message(()));
    assert_same!(rt; drops.count(), 0);
    drop(error);
    assert_same!(rt; drops.count(), 1);
}

#[test]
fn send_error_drops_message_correctly_on_into_inner(rt: HostRuntime) {
    let drops = Drops::new();
    let error = refused(&rt, drops.message(5u8));
    assert_same!(rt; drops.count(), 0);
    let back = error.into_inner();
    assert_same!(rt; (back.value, drops.count()), (5, 0));
    drop(back);
    assert_same!(rt; drops.count(), 1);
}

#[test]
fn dropping_receiver_disconnects_sender(rt: HostRuntime) {
    let (sender, receiver) = idle_ends::<(), _>(&rt);
    assert!(rt; !sender.is_closed());
    assert!(rt; !receiver.is_closed());
    drop(receiver);
    assert!(rt; sender.is_closed());
}

#[test]
fn dropping_sender_disconnects_receiver(rt: HostRuntime) {
    let (sender, receiver) = idle_ends::<(), _>(&rt);
    assert!(rt; !sender.is_closed());
    assert!(rt; !receiver.is_closed());
    drop(sender);
    assert!(rt; receiver.is_closed());
}
