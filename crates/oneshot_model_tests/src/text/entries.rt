//! Lines of entries that no script's trace shows.

use oneshot_asserts::assert_same;
use oneshot_machine::machine::{End, Seen, Step};
use oneshot_machine::states::Op;
use oneshot_replay::{Entry, Made, WakerName, WakerPlace};
use oneshot_text::EntryLine;

#[test]
fn a_copy_shows_as_its_number_and_its_entry(rt: HostRuntime) {
    let copy = WakerName::Copy {
        number: 18_446_744_073_709_551_615,
        entry: 12,
    };
    let exchange = Made {
        side: End::Receiver,
        step: Step::Word(Op::Exchange(0, 3)),
        seen: Seen::Word(1),
        before: Some(1),
        after: Some(1),
        message: None,
        waker: Some((copy, WakerPlace::New, WakerPlace::Dropped)),
        token_set: false,
        own: None,
        reply: None,
    };
    let line = EntryLine {
        number: 13,
        entry: Entry::Made(exchange),
        call: None,
        sender_call: None,
        message: 0,
    };
    let text = line.to_string(rt.alloc()).expect(&rt, "memory");
    assert_same!(rt;
        text.as_str(),
        "13 R exchange 1>1 w18446744073709551615@12:New>Dropped"
    );
}
