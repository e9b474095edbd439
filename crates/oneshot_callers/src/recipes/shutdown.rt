//! A worker that its owner stops, and its report.

ghost use Rattle.std.specs.Prelude.{◌≤◌, ◌<◌};
ghost use Rattle.oneshot_channel.specs.Ends.{IsClosed};

use oneshot_asserts::assert_same;
use oneshot_channel::{Receiver, RecvTimeoutError, Sender, TryRecvError, channel};
use std::sync::Wait;
use std::thread::{sleep, spawn, yield_now};
use std::time::{Clock, Duration};

/// Calls `round` until it is told to stop, or its owner is gone, but at most `limit` times.
fn work<F: FnMut()>(stop: &mut Receiver<(), ()>, limit: u64, mut round: F) -> u64
    requires { F.IsAlwaysCallable round }
    ensures limit { result ≤ limit }
    ensures told { result < limit → IsClosed stop.new.log }
{
    for rounds in 0..limit {
        let Err(TryRecvError::Empty) = stop.try_recv() else {
            return rounds;
        };
        round();
    }
    limit
}

/// Stops a worker, and waits up to ten seconds for its report.
fn shut_down<Rt: Wait + Clock + Drop>(
    stop: Sender<()>,
    mut report: Receiver<u64, Rt>,
) -> Result<u64, RecvTimeoutError> {
    // If the worker is gone, there is nothing to stop.
    let _ = stop.send(());
    report.recv_timeout(Duration::from_secs(10))
}

#[test]
fn a_worker_works_until_it_is_told_or_left(rt: HostRuntime) {
    let (stop, mut stopped) = channel((), rt.alloc()).expect(&rt, "memory");
    let untold = work(&mut stopped, 5, yield_now);
    let mut stop = Some(stop);
    let mut made = 0u64;
    let told = work(&mut stopped, u64::MAX, || {
        made = made.wrapping_add(1);
        if made == 3 {
            tell(&mut stop);
        }
    });
    let (stop, mut stopped) = channel((), rt.alloc()).expect(&rt, "memory");
    drop(stop);
    let left = work(&mut stopped, 5, yield_now);
    assert_same!(rt; (untold, told, left), (5, 3, 0));
}

/// Tells a worker to stop, if it was not told yet.
fn tell(stop: &mut Option<Sender<()>>) {
    if let Some(stop) = stop.take() {
        // The worker still has the receiver, so the signal is not refused.
        let _ = stop.send(());
    }
}

#[test]
fn a_worker_reports_the_rounds_that_it_made(rt: HostRuntime) {
    let (stop, stopped) = channel((), rt.alloc()).expect(&rt, "memory");
    let (sender, report) = channel(&rt, rt.alloc()).expect(&rt, "memory");
    let worker = spawn(&rt, move || work_and_report(stopped, sender));
    let worker = worker.expect(&rt, "a thread");
    sleep(&rt, Duration::from_millis(20));
    let rounds = shut_down(stop, report);
    let (made, sent) = worker.join(&rt);
    assert_same!(rt; (sent, rounds), (true, Ok(made)));
}

/// Works until it is told to stop, and reports its rounds. Returns how many it made, and whether the report was sent.
fn work_and_report(mut stop: Receiver<(), ()>, report: Sender<u64>) -> (u64, bool) {
    let mut made = 0u64;
    let rounds = work(&mut stop, u64::MAX, || made = made.wrapping_add(1));
    (made, report.send(rounds).is_ok())
}
