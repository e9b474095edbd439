//! Tests of both sides of one word on one thread.

ghost use Rattle.std.specs.Prelude.{◌≡◌, ◌⊎◌};
ghost use Rattle.oneshot_machine.specs.declared.states.Op.TheVariants.{Load, Swap};
ghost use Rattle.oneshot_machine.specs.Over.{SenderIsOver, ReceiverIsOver};
ghost use Rattle.oneshot_machine.specs.Phases.{By, fresh, sender_at, after_load, untouched, idle, blocked, waits, overdue, receiver_at};
ghost use Rattle.oneshot_machine.specs.Slots.{vacant};
ghost use Rattle.oneshot_word.specs.Side.{SenderCan, ReceiverCan};

use oneshot_asserts::{Asserts, assert_same};
use oneshot_word::{AnyWaker, Peek, ReceiverSide, SenderSide, Slot, discard, open};
use std::mem::size_of;

#[test]
fn a_new_table_reads_3_at_both_ends(rt: HostRuntime) {
    let (sender, receiver) = open::<u64, u64, u64, ()>(rt.alloc(), &()).expect(&rt, "memory");
    assert_same!(rt; (sender.peek(), receiver.peek()), (3, 3));
    discard(sender, receiver);
}

#[test]
fn a_slot_has_one_tag_beside_the_larger_of_its_values(rt: HostRuntime) {
    assert_same!(rt; size_of::<Slot<u64, u64, [u64; 2]>>(), 24);
    assert_same!(rt; size_of::<Slot<[u64; 4], u64, [u64; 2]>>(), 40);
}

#[test]
fn a_waker_goes_one_way_and_a_message_the_other(rt: HostRuntime) {
    let (mut sender, mut receiver) = open_waiting(&rt, AnyWaker::Thread(5));
    assert!(rt; matches!(begin_send(&rt, &mut sender, 7), AnyWaker::Thread(5)));
    finish(&rt, &mut sender, 4, 1);
    assert_same!(rt; receive(&rt, &mut receiver), 7);
    sender.let_go();
    receiver.let_go();
}

#[test]
fn a_receiver_that_stops_waiting_goes_on(rt: HostRuntime) {
    let (mut sender, mut receiver) = open_waiting(&rt, AnyWaker::Thread(5));
    let is_own = matches!(stop(&rt, &mut receiver), AnyWaker::Thread(5));
    assert_same!(rt; (is_own, sender.peek()), (true, 3));
    store_waker(&rt, &mut receiver, AnyWaker::Task(6));
    let is_found = matches!(begin_send(&rt, &mut sender, 7), AnyWaker::Task(6));
    finish(&rt, &mut sender, 4, 1);
    assert_same!(rt; (is_found, receive(&rt, &mut receiver)), (true, 7));
    sender.let_go();
    receiver.let_go();
}

#[test]
fn an_overdue_receiver_gets_the_message(rt: HostRuntime) {
    let (mut sender, mut receiver) = open_waiting(&rt, AnyWaker::Thread(5));
    assert!(rt; matches!(begin_send(&rt, &mut sender, 7), AnyWaker::Thread(5)));
    stop_too_late(&rt, &mut receiver);
    finish(&rt, &mut sender, 4, 3);
    assert_same!(rt; receive(&rt, &mut receiver), 7);
    sender.let_go();
    receiver.let_go();
}

#[test]
fn an_overdue_receiver_finds_the_sender_gone(rt: HostRuntime) {
    let (mut sender, mut receiver) = open_waiting(&rt, AnyWaker::Task(6));
    assert!(rt; matches!(begin_drop(&rt, &mut sender), AnyWaker::Task(6)));
    stop_too_late(&rt, &mut receiver);
    finish(&rt, &mut sender, 2, 3);
    find_it_gone(&rt, &mut receiver);
    sender.let_go();
    receiver.let_go();
}

#[test]
fn a_receiver_that_stops_over_the_message_gets_it(rt: HostRuntime) {
    let (mut sender, mut receiver) = open_waiting(&rt, AnyWaker::Thread(5));
    let is_found = matches!(begin_send(&rt, &mut sender, 7), AnyWaker::Thread(5));
    finish(&rt, &mut sender, 4, 1);
    let message = stop_over_the_message(&rt, &mut receiver);
    assert_same!(rt; (is_found, message, receiver.peek()), (true, 7, 2));
    sender.let_go();
    receiver.let_go();
}

#[test]
fn a_receiver_that_stops_after_the_senders_drop_closes(rt: HostRuntime) {
    let (mut sender, mut receiver) = open_waiting(&rt, AnyWaker::Thread(5));
    assert!(rt; matches!(begin_drop(&rt, &mut sender), AnyWaker::Thread(5)));
    finish(&rt, &mut sender, 2, 1);
    stop_over_the_end(&rt, &mut receiver);
    assert_same!(rt; receiver.peek(), 2);
    sender.let_go();
    receiver.let_go();
}

// Opens a table whose receiver waits with this waker.
fn open_waiting(
    rt: &(impl Asserts + AllocGlobal),
    waker: AnyWaker<u8, u8>,
) -> (SenderSide<u8, u8, u8>, ReceiverSide<u8, u8, u8>)
    ensures sender { (sender_at result.0.log ≡ fresh) × (result.0.message ≡ vacant) }
    ensures at { receiver_at result.1.log ≡ waits blocked }
    ensures loads { ReceiverCan result.1 Load }
    ensures stops { ReceiverCan result.1 (Swap 3) }
{
    let (sender, mut receiver) = open(rt.alloc(), &()).expect(rt, "memory");
    load_empty(rt, &mut receiver);
    store_waker(rt, &mut receiver, waker);
    (sender, receiver)
}

fn load_empty(rt: &impl Asserts, receiver: &mut ReceiverSide<u8, u8, u8>)
    requires { receiver_at receiver.old.log ≡ untouched }
    ensures at { receiver_at receiver.new.log ≡ idle after_load }
    ensures waker { receiver.new.waker ≡ vacant }
{
    receiver.owns_its_slots();
    let found = receiver.load();
    assert!(rt; found == 3);
}

fn store_waker(rt: &impl Asserts, receiver: &mut ReceiverSide<u8, u8, u8>, waker: AnyWaker<u8, u8>)
    requires at { receiver_at receiver.old.log ≡ idle after_load }
    requires waker { receiver.old.waker ≡ vacant }
    ensures at { receiver_at receiver.new.log ≡ waits blocked }
    ensures loads { ReceiverCan receiver.new Load }
    ensures stops { ReceiverCan receiver.new (Swap 3) }
{
    receiver.owns_its_slots();
    receiver.write_waker(waker);
    let found = receiver.swap(0);
    assert!(rt; found == 3);
}

// Returns the receiver's waker.
fn stop(rt: &impl Asserts, receiver: &mut ReceiverSide<u8, u8, u8>) -> AnyWaker<u8, u8>
    requires { ReceiverCan receiver.old (Swap 3) }
    ensures at { receiver_at receiver.new.log ≡ idle after_load }
    ensures waker { receiver.new.waker ≡ vacant }
{
    let found = receiver.swap(3);
    assert!(rt; found == 0);
    let waker = receiver.take_waker();
    let found = receiver.load();
    assert!(rt; found == 3);
    waker
}

fn stop_too_late(rt: &impl Asserts, receiver: &mut ReceiverSide<u8, u8, u8>)
    requires { ReceiverCan receiver.old (Swap 3) }
    ensures at { receiver_at receiver.new.log ≡ overdue }
    ensures loads { ReceiverCan receiver.new Load }
{
    let found = receiver.swap(3);
    assert!(rt; found == 1);
    let found = receiver.load();
    assert!(rt; found == 3);
}

fn stop_over_the_message(rt: &impl Asserts, receiver: &mut ReceiverSide<u8, u8, u8>) -> u8
    requires { ReceiverCan receiver.old (Swap 3) }
    ensures { ReceiverIsOver (receiver_at receiver.new.log) }
{
    let found = receiver.swap(3);
    assert!(rt; found == 4);
    let found = receiver.store(2);
    assert!(rt; found == 3);
    receiver.take_message()
}

fn stop_over_the_end(rt: &impl Asserts, receiver: &mut ReceiverSide<u8, u8, u8>)
    requires { ReceiverCan receiver.old (Swap 3) }
    ensures { ReceiverIsOver (receiver_at receiver.new.log) }
{
    let found = receiver.swap(3);
    assert!(rt; found == 2);
    let found = receiver.store(2);
    assert!(rt; found == 3);
}

// Returns the waker that the sender found.
fn begin_send(
    rt: &impl Asserts,
    sender: &mut SenderSide<u8, u8, u8>,
    message: u8,
) -> AnyWaker<u8, u8>
    requires { (sender_at sender.old.log ≡ fresh) × (sender.old.message ≡ vacant) }
    ensures { SenderCan sender.new (Swap 4) }
{
    sender.write_message(message);
    sender.peek();
    let found = sender.add();
    assert!(rt; found == 0);
    sender.take_waker()
}

// Returns the waker that the sender found.
fn begin_drop(rt: &impl Asserts, sender: &mut SenderSide<u8, u8, u8>) -> AnyWaker<u8, u8>
    requires { (sender_at sender.old.log ≡ fresh) × (sender.old.message ≡ vacant) }
    ensures { SenderCan sender.new (Swap 2) }
{
    sender.peek();
    let found = sender.xor();
    assert!(rt; found == 0);
    sender.take_waker()
}

// Leaves the sender's last word over `found`.
fn finish(rt: &impl Asserts, sender: &mut SenderSide<u8, u8, u8>, last: u8, found: u8)
    requires { SenderCan sender.old (Swap last) }
    ensures { (by : By) × SenderIsOver by (sender_at sender.new.log) }
{
    let word = sender.swap(last);
    assert!(rt; word == found);
}

fn find_it_gone(rt: &impl Asserts, receiver: &mut ReceiverSide<u8, u8, u8>)
    requires at { receiver_at receiver.old.log ≡ overdue }
    requires loads { ReceiverCan receiver.old Load }
    ensures { ReceiverIsOver (receiver_at receiver.new.log) }
{
    let found = receiver.load();
    assert!(rt; found == 2);
}

fn receive(rt: &impl Asserts, receiver: &mut ReceiverSide<u8, u8, u8>) -> u8
    requires waits { (receiver_at receiver.old.log ≡ waits blocked) ⊎ (receiver_at receiver.old.log ≡ overdue) }
    requires loads { ReceiverCan receiver.old Load }
    ensures { ReceiverIsOver (receiver_at receiver.new.log) }
{
    let found = receiver.load();
    assert!(rt; found == 4);
    let found = receiver.store(2);
    assert!(rt; found == 4);
    receiver.take_message()
}
