//! Tests of replies that come, and of those that do not.

use super::ask;
use oneshot_asserts::assert_same;
use oneshot_patterns::request::{Asked, serve_all, squares_of};

#[test]
fn each_number_has_its_square(rt: HostRuntime) {
    let squares = squares_of(&rt, rt.alloc(), &[3, 5, 12]).expect(&rt, "memory");
    assert_same!(rt;
        squares.as_slice(),
        [Some(9), Some(25), Some(144)].as_slice()
    );
}

#[test]
fn a_request_that_nobody_serves_has_no_reply(rt: HostRuntime) {
    let (request, asked) = ask(&rt, &rt, 3);
    drop(request);
    assert_same!(rt; asked.wait(), None);
}

#[test]
fn a_reply_to_another_request_is_not_taken(rt: HostRuntime) {
    let (other, of_other) = ask(&rt, &rt, 5);
    let asked = Asked {
        root: 3,
        reply: of_other.reply,
    };
    assert_same!(rt; (other.serve(), asked.wait()), (true, None));
}

#[test]
fn a_reply_that_nobody_waits_for_is_refused(rt: HostRuntime) {
    let (request, asked) = ask(&rt, (), 3);
    drop(asked);
    assert!(rt; !request.serve());
}

#[test]
fn a_worker_counts_the_replies_that_are_waited_for(rt: HostRuntime) {
    let (waited_for, asked) = ask(&rt, &rt, 3);
    let (given_up, gone) = ask(&rt, (), 5);
    drop(gone);
    let requests = vec![in rt.alloc(); waited_for, given_up].expect(&rt, "memory");
    assert_same!(rt; (serve_all(requests), asked.wait()), (1, Some(9)));
}
