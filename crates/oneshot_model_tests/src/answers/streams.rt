//! Tests of readers and writers that fail, are interrupted, or move few bytes at a time.

mod pages;
mod reads;
mod writes;

use crate::answers::{status_and_text, text_of};
use oneshot_asserts::{Asserts, assert_same};
use oneshot_streams::answer::answer;
use std::alloc::Global;
use std::io;
use std::io::{ErrorKind, Read, Write};

/// The most interrupts in a row in these tests.
const INTERRUPTS: usize = 20;

/// The failures after which a call of a stream is not repeated.
const FAILURES: &[ErrorKind; 5] = &[
    ErrorKind::BrokenPipe,
    ErrorKind::ConnectionReset,
    ErrorKind::StorageFull,
    ErrorKind::TimedOut,
    ErrorKind::WouldBlock,
];

/// The calls of a stream that fail: how many precede them, how many fail, and how.
#[derive(Clone, Copy)]
struct Failures {
    before: usize,
    count: usize,
    kind: ErrorKind,
    /// How many calls followed them.
    after: usize,
}

impl Failures {
    fn of(before: usize, count: usize, kind: ErrorKind) -> Failures {
        Failures {
            before,
            count,
            kind,
            after: 0,
        }
    }

    fn none() -> Failures {
        Failures::of(0, 0, ErrorKind::Other)
    }

    /// Counts a call. `Err`: it is one that fails.
    fn count_call(&mut self) -> io::Result<()> {
        if self.before > 0 {
            self.before -= 1;
            return Ok(());
        }
        if self.count == 0 {
            self.after = self.after.saturating_add(1);
            return Ok(());
        }
        self.count -= 1;
        Err(io::Error::from(self.kind))
    }
}

/// Returns a text, a byte for each read.
#[derive(Drop)]
struct Reader {
    rest: &'static [u8],
    failures: Failures,
}

impl Reader {
    fn new(text: &'static str, failures: Failures) -> Reader {
        Reader {
            rest: text.as_bytes(),
            failures,
        }
    }
}

impl Read for Reader {
    fn read(&mut self, buf: &mut [u8]) -> io::Result<usize> {
        self.failures.count_call()?;
        let most = buf.len().min(1);
        self.rest.read(&mut buf[..most])
    }
}

/// Takes at most `most` bytes for each write.
#[derive(Drop)]
struct Writer {
    written: Vec<u8>,
    most: usize,
    failures: Failures,
}

impl Writer {
    fn new(alloc: Global, most: usize, failures: Failures) -> Writer {
        Writer {
            written: Vec::new(alloc),
            most,
            failures,
        }
    }
}

impl Write for Writer {
    fn write(&mut self, buf: &[u8]) -> io::Result<usize> {
        self.failures.count_call()?;
        let count = buf.len().min(self.most);
        self.written.extend_from_slice(&buf[..count])?;
        Ok(count)
    }

    fn flush(&mut self) -> io::Result<()> {
        self.failures.count_call()
    }
}

/// Returns the exit status, and all that was written to the errors.
fn ending<R: Read, W: Write>(
    rt: &(impl Asserts + AllocGlobal),
    input: &mut R,
    output: &mut W,
) -> String {
    let mut errors = Vec::new(rt.alloc());
    let status = answer(rt.alloc(), input, output, &mut errors);
    let errors = text_of(rt, errors);
    status_and_text(rt, status, &errors)
}

/// Fails unless the program ended well, and wrote the whole trace. A case is an input, how many calls failed, and how
/// many preceded them.
fn assert_whole(
    rt: &impl Asserts,
    case: (&str, usize, usize),
    ended: &str,
    written: &[u8],
    trace: &str,
) {
    assert_same!(rt; (case, ended, written), (case, "0 ", trace.as_bytes()));
}
