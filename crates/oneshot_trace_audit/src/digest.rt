//! The digest of traces or of a text, as a guard against changes.

use crate::auditor::DrawnTrace;
use oneshot_asserts::assert_same;
use oneshot_machine::machine::{Seen, Step};
use oneshot_machine::states::Op;
use oneshot_replay::{Entry, Made, Place, WakerName, WakerPlace};
use std::io;
use std::io::Write;

/// A digest of 64 bits: FNV-1a of the bytes that were written. A number is added as FNV-1a adds a byte.
#[derive(Drop)]
pub(crate) struct Digest {
    state: u64,
}

impl Digest {
    /// The digest of nothing.
    pub(crate) fn new() -> Digest {
        Digest {
            state: 0xcbf2_9ce4_8422_2325,
        }
    }

    /// Returns the digest so far.
    pub(crate) fn value(&self) -> u64 {
        self.state
    }

    /// Adds a trace: each field of each entry, the block and the message's place.
    pub(crate) fn add_trace(&mut self, trace: &DrawnTrace) {
        for entry in trace.entries.as_slice() {
            match entry {
                Entry::Idle(end) => self.add_two(0, *end as u64),
                Entry::Made(made) => self.add_made(made),
            }
        }
        self.add(u64::from(trace.block_freed));
        if let Some((place, message)) = trace.rest {
            self.add_two(place as u64, message);
        }
    }

    fn add_made(&mut self, made: &Made) {
        self.add_two(1, made.side as u64);
        self.add_step(made.step);
        self.add_seen(made.seen);
        self.add_option(made.before.map(u64::from));
        self.add_option(made.after.map(u64::from));
        self.add_message(made.message);
        self.add_waker(made.waker);
        self.add(u64::from(made.token_set));
        self.add_option(made.own);
        self.add_option(made.reply.map(|reply| reply as u64));
    }

    fn add_step(&mut self, step: Step) {
        match step {
            Step::Word(operation) => self.add_operation(operation),
            Step::WriteMessage => self.add(1),
            Step::TakeMessage => self.add(2),
            Step::DropMessage => self.add(3),
            Step::WriteWaker => self.add(4),
            Step::TakeWaker => self.add(5),
            Step::Withdraw => self.add(6),
            Step::Park => self.add(7),
            Step::Clock => self.add(8),
            Step::Copy => self.add(9),
            Step::Wake => self.add(10),
            Step::WakeOwn => self.add(11),
            Step::Free => self.add(12),
            Step::Plain => self.add(13),
        }
    }

    fn add_operation(&mut self, operation: Op) {
        match operation {
            Op::Load => self.add(14),
            Op::Store(new) => self.add_two(15, u64::from(new)),
            Op::Swap(new) => self.add_two(16, u64::from(new)),
            Op::Exchange(expected, new) => {
                self.add_two(17, u64::from(expected));
                self.add(u64::from(new));
            }
            Op::Add => self.add(18),
            Op::Xor => self.add(19),
        }
    }

    fn add_seen(&mut self, seen: Seen) {
        match seen {
            Seen::Done => self.add(0),
            Seen::Word(word) => self.add_two(1, u64::from(word)),
            Seen::Over(over) => self.add_two(2, u64::from(over)),
            Seen::Refused(refused) => self.add_two(3, u64::from(refused)),
            Seen::Token(token) => self.add_two(4, u64::from(token)),
        }
    }

    fn add_message(&mut self, moved: Option<(Place, Place)>) {
        match moved {
            None => self.add(0),
            Some((from, to)) => {
                self.add(1);
                self.add_two(from as u64, to as u64);
            }
        }
    }

    fn add_waker(&mut self, moved: Option<(WakerName, WakerPlace, WakerPlace)>) {
        match moved {
            None => self.add(0),
            Some((name, from, to)) => {
                self.add_name(name);
                self.add_two(from as u64, to as u64);
            }
        }
    }

    fn add_name(&mut self, name: WakerName) {
        match name {
            WakerName::Parker => self.add(1),
            WakerName::Copy { number, entry } => {
                self.add(2);
                self.add_two(number, entry as u64);
            }
        }
    }

    fn add_option(&mut self, value: Option<u64>) {
        match value {
            None => self.add(0),
            Some(value) => self.add_two(1, value),
        }
    }

    fn add_two(&mut self, first: u64, second: u64) {
        self.add(first);
        self.add(second);
    }

    fn add(&mut self, value: u64) {
        self.state = (self.state ^ value).wrapping_mul(0x0100_0000_01b3);
    }
}

impl Write for Digest {
    fn write(&mut self, bytes: &[u8]) -> io::Result<usize> {
        for byte in bytes {
            self.add(u64::from(*byte));
        }
        Ok(bytes.len())
    }

    fn flush(&mut self) -> io::Result<()> {
        Ok(())
    }
}

/// Texts and their digests, which the authors of FNV-1a publish.
const PUBLISHED: &[(&str, u64); 3] = &[
    ("", 0xcbf2_9ce4_8422_2325),
    ("a", 0xaf63_dc4c_8601_ec8c),
    ("foobar", 0x8594_4171_f739_67e8),
];

#[test]
fn texts_have_their_digests(rt: HostRuntime) {
    for &(text, digest) in PUBLISHED {
        let mut met = Digest::new();
        let written = met.write_all(text.as_bytes());
        written.expect(&rt, "a text that is written");
        assert_same!(rt; (text, met.value()), (text, digest));
    }
}
