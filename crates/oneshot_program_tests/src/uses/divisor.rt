//! Tests of searches that find a divisor, and of those that drop their sender.

use oneshot::{RecvError, async_channel};
use oneshot_asserts::assert_same;
use oneshot_patterns::divisor::{await_divisor, divisor_of, least_divisor, send_divisor, start};

#[test]
fn a_divisor_is_awaited(rt: HostRuntime) {
    // The search of 91 tries 2, 3, 4, 5, 6 and 7.
    for (number, divisor, tried) in [(91, 7, 6), (1_000, 2, 1)] {
        let searched = divisor_of(&rt, rt.alloc(), number).expect(&rt, "a search");
        assert_same!(rt;
            (number, searched.found, searched.tried),
            (number, Ok(divisor), tried)
        );
    }
}

#[test]
fn a_search_that_finds_none_drops_its_sender(rt: HostRuntime) {
    // The search of 97 tries each number from 2 to 96.
    for (number, tried) in [(0, 0), (1, 0), (2, 0), (97, 95)] {
        let has_none = least_divisor(number).is_none();
        let searched = divisor_of(&rt, rt.alloc(), number).expect(&rt, "a search");
        assert_same!(rt;
            (number, has_none, searched.found, searched.tried),
            (number, true, Err(RecvError), tried)
        );
    }
}

#[test]
fn a_divisor_of_another_number_is_not_taken(rt: HostRuntime) {
    let (waiter, receiver) = async_channel((), rt.alloc()).expect(&rt, "memory");
    let tried = send_divisor(91, waiter);
    let found = await_divisor(&rt, 92, receiver).expect(&rt, "an executor");
    assert_same!(rt; (tried, found), (6, Err(RecvError)));
}

#[test]
fn a_search_ends_where_nobody_waits(rt: HostRuntime) {
    let (waiter, receiver) = async_channel((), rt.alloc()).expect(&rt, "memory");
    drop(receiver);
    let search = start(&rt, 91, waiter).expect(&rt, "a thread");
    assert_same!(rt; search.join(&rt), 6);
}

#[test]
fn a_search_is_awaited_after_its_thread_ended(rt: HostRuntime) {
    let (waiter, receiver) = async_channel((), rt.alloc()).expect(&rt, "memory");
    let search = start(&rt, 91, waiter).expect(&rt, "a thread");
    let tried = search.join(&rt);
    let found = await_divisor(&rt, 91, receiver).expect(&rt, "an executor");
    assert_same!(rt; (tried, found), (6, Ok(7)));
}
