//! Messages and wakers over grounds in memory that count their drops.

use oneshot_asserts::assert_same;
use oneshot_drive::{drop_error, drop_receiver, recv, send};
use oneshot_memory::{MemoryReceiver, MemorySender};
use std::cell::Cell;

/// A message or a waker that counts its drops.
struct Counted<'a>(&'a Cell<u32>);

impl Drop for Counted<'_> {
    fn drop(self) {
        let Counted(drops) = self;
        drops.set(drops.get().wrapping_add(1));
    }
}

#[test]
fn the_errors_drop_drops_the_message_once(rt: HostRuntime) {
    let drops = Cell::new(0);
    let mut g = MemorySender::<Counted, (), _>::new(&rt, rt.alloc(), false);
    if send(&mut g, Counted(&drops)) {
        panic!(rt; "a send to a receiver that is gone returned true")
    }
    let refused = drops.get();
    drop_error(&mut g);
    let ended = drops.get();
    drop(g);
    assert_same!(rt; (refused, ended, drops.get()), (0, 1, 1));
}

#[test]
fn a_receiver_that_left_meanwhile_costs_its_waker_and_the_message_once(rt: HostRuntime) {
    let messages = Cell::new(0);
    let wakers = Cell::new(0);
    let waker = Counted(&wakers);
    let mut g = MemorySender::<Counted, Counted, _>::with_waiting_receiver(&rt, rt.alloc(), waker);
    g.receiver_will_leave();
    if send(&mut g, Counted(&messages)) {
        panic!(rt; "a send to a receiver that left returned true")
    }
    let refused = (messages.get(), wakers.get());
    drop_error(&mut g);
    let ended = (messages.get(), wakers.get());
    drop(g);
    let freed = (messages.get(), wakers.get());
    assert_same!(rt; (refused, ended, freed), ((0, 1), (1, 1), (1, 1)));
}

#[test]
fn send_uses_the_waker_up(rt: HostRuntime) {
    let drops = Cell::new(0);
    let waker = Counted(&drops);
    let mut g = MemorySender::<u64, Counted, _>::with_waiting_receiver(&rt, rt.alloc(), waker);
    let is_sent = send(&mut g, 7);
    assert_same!(rt; (is_sent, drops.get()), (true, 1));
}

#[test]
fn the_receivers_drop_drops_the_message_once(rt: HostRuntime) {
    let drops = Cell::new(0);
    let mut g = MemoryReceiver::<Counted, (), _>::new(&rt, rt.alloc());
    g.sender_sends(Counted(&drops));
    drop_receiver(&mut g);
    let ended = drops.get();
    drop(g);
    assert_same!(rt; (ended, drops.get()), (1, 1));
}

#[test]
fn recv_gives_the_message_out(rt: HostRuntime) {
    let drops = Cell::new(0);
    let mut g = MemoryReceiver::<Counted, u8, _>::new(&rt, rt.alloc());
    g.sender_sends(Counted(&drops));
    let received = recv(&mut g, &rt, &mut Some(9));
    let (is_received, received_drops) = (received.is_ok(), drops.get());
    drop(received);
    drop(g);
    assert_same!(rt; (is_received, received_drops, drops.get()), (true, 0, 1));
}
