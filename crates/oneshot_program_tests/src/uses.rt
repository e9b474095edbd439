//! Tests of what no contract states: each use reaches its result.

mod divisor;
mod limits;
mod pool;
mod replies;
mod request;
mod shutdown;
mod task;
mod tickets;

use oneshot_asserts::{Asserts, assert_same};
use oneshot_patterns::request as requests;
use oneshot_patterns::request::{Answer, Asked, Request, Unanswered};

/// A request for the square of `root`, and the receiver of its reply, which waits by `waits`.
fn ask<Rt: Drop>(rt: &(impl Asserts + AllocGlobal), waits: Rt, root: u32) -> (Request, Asked<Rt>) {
    requests::ask(waits, rt.alloc(), root).expect(rt, "memory")
}

/// Asserts that these are the numbers in the answers, each with its square or why it has none.
fn assert_answers(
    rt: &impl Asserts,
    answers: &[Answer],
    wanted: &[(u32, Result<u64, Unanswered>)],
) {
    assert_same!(rt; answers.len(), wanted.len());
    for (answer, square) in answers.iter().zip(wanted) {
        assert_same!(rt; (answer.root, answer.square), *square);
    }
}
