//! Tests of replies that come, come too late or never come, and of the shutdown of a pool.

use super::{ask, assert_answers};
use crossbeam_channel as queue;
use oneshot::{RecvTimeoutError, channel};
use oneshot_asserts::{Asserts, assert_same};
use oneshot_patterns::pool::{answers_to, ask_all, pooled, total, work};
use oneshot_patterns::request::{Request, Unanswered};
use std::sync::Wait;
use std::time::{Clock, Duration};

fn minute() -> Duration {
    Duration::from_secs(60)
}

fn moment() -> Duration {
    Duration::from_millis(1)
}

/// Numbers and their squares.
const SQUARES: &[(u32, Result<u64, Unanswered>); 8] = &[
    (2, Ok(4)),
    (4, Ok(16)),
    (6, Ok(36)),
    (8, Ok(64)),
    (10, Ok(100)),
    (12, Ok(144)),
    (14, Ok(196)),
    (16, Ok(256)),
];

#[test]
fn each_request_is_answered_and_counted(rt: HostRuntime) {
    let roots = [2, 4, 6, 8, 10, 12, 14, 16];
    let done = pooled(&rt, rt.alloc(), 3, &roots, minute()).expect(&rt, "memory");
    assert_same!(rt; done.served, Some(8));
    assert_answers(&rt, done.answers.as_slice(), SQUARES);
}

#[test]
fn without_a_worker_each_answer_is_late(rt: HostRuntime) {
    let done = pooled(&rt, rt.alloc(), 0, &[3, 5], moment()).expect(&rt, "memory");
    assert_same!(rt; done.served, Some(0));
    let late = Err(Unanswered::Late);
    assert_answers(&rt, done.answers.as_slice(), &[(3, late), (5, late)]);
}

#[test]
fn a_late_reply_is_refused(rt: HostRuntime) {
    let (request, asked) = ask(&rt, &rt, 3);
    let late = asked.wait_within(moment()).square;
    assert_same!(rt; (late, request.serve()), (Err(Unanswered::Late), false));
}

#[test]
fn a_closed_queue_loses_its_requests(rt: HostRuntime) {
    let (requests, taken) = queue::unbounded(rt.alloc()).expect(&rt, "memory");
    drop(taken);
    let all = ask_all(&rt, rt.alloc(), &requests, &[3, 5]).expect(&rt, "memory");
    let answers = answers_to(rt.alloc(), all, minute()).expect(&rt, "memory");
    let lost = Err(Unanswered::Lost);
    assert_answers(&rt, answers.as_slice(), &[(3, lost), (5, lost)]);
}

/// A request whose reply nobody waits for.
fn given_up(rt: &(impl Asserts + AllocGlobal)) -> Request {
    let (request, gone) = ask(rt, (), 7);
    drop(gone);
    request
}

/// What a worker reports of these requests.
fn report_of<R>(rt: &R, requests: &queue::Receiver<Request>) -> Result<u64, RecvTimeoutError>
where
    R: Asserts + Wait + Clock + AllocGlobal,
{
    let (report, mut reported) = channel(rt, rt.alloc()).expect(rt, "memory");
    work(rt, requests, report);
    reported.recv_timeout(minute())
}

#[test]
fn a_worker_counts_the_replies_that_were_waited_for(rt: HostRuntime) {
    let (requests, taken) = queue::unbounded(rt.alloc()).expect(&rt, "memory");
    let all = ask_all(&rt, rt.alloc(), &requests, &[3, 5]).expect(&rt, "memory");
    let sent = requests.send(&rt, given_up(&rt)).is_ok();
    drop(requests);
    assert_same!(rt; (sent, report_of(&rt, &taken)), (true, Ok(2)));
    let answers = answers_to(rt.alloc(), all, minute()).expect(&rt, "memory");
    assert_answers(&rt, answers.as_slice(), &[(3, Ok(9)), (5, Ok(25))]);
}

#[test]
fn a_report_that_never_comes_is_no_total(rt: HostRuntime) {
    let (report, reported) = channel(&rt, rt.alloc()).expect(&rt, "memory");
    let sent = report.send(2).is_ok();
    let (lost, never) = channel(&rt, rt.alloc()).expect(&rt, "memory");
    drop(lost);
    let reports = vec![in rt.alloc(); reported, never].expect(&rt, "memory");
    assert_same!(rt; (sent, total(reports, minute())), (true, None));
}
