//! Tests of how a worker stops.

use oneshot::{Receiver, Sender, channel};
use oneshot_asserts::{Asserts, assert_same};
use oneshot_patterns::shutdown::{Ending, Order, Report, watched, work_until};

/// The sender and the receiver of a stop signal.
fn opened(rt: &(impl Asserts + AllocGlobal)) -> (Sender<()>, Receiver<(), ()>) {
    channel((), rt.alloc()).expect(rt, "memory")
}

/// Fails unless a worker of three rounds makes `rounds` of them and ends by `ending`.
fn assert_works(rt: &impl Asserts, stop: &mut Receiver<(), ()>, rounds: u64, ending: Ending) {
    let mut made = 0u64;
    let report = work_until(stop, 3, || made = made.wrapping_add(1));
    assert_same!(rt; (report, made), (Report { rounds, ending }, rounds));
}

#[test]
#[should_panic(expected = "right: (Report { rounds: 2, ending: Done }, 2)")]
fn a_worker_that_makes_another_round_ends_a_test(rt: HostRuntime) {
    let (_sender, mut stop) = opened(&rt);
    assert_works(&rt, &mut stop, 2, Ending::Done);
}

#[test]
fn a_worker_that_was_told_makes_no_round(rt: HostRuntime) {
    let (sender, mut stop) = opened(&rt);
    assert!(rt; sender.send(()).is_ok());
    assert_works(&rt, &mut stop, 0, Ending::Told);
}

#[test]
fn a_worker_that_was_left_makes_no_round(rt: HostRuntime) {
    let (sender, mut stop) = opened(&rt);
    drop(sender);
    assert_works(&rt, &mut stop, 0, Ending::Left);
}

#[test]
fn a_worker_that_nobody_stops_makes_all_its_rounds(rt: HostRuntime) {
    let (_sender, mut stop) = opened(&rt);
    assert_works(&rt, &mut stop, 3, Ending::Done);
}

#[test]
fn an_owner_stops_its_worker_or_leaves_it(rt: HostRuntime) {
    for (order, ending) in [(Order::Stop, Ending::Told), (Order::Leave, Ending::Left)] {
        let report = watched(&rt, rt.alloc(), order).expect(&rt, "memory");
        assert_same!(rt; report.ending, ending);
    }
}
