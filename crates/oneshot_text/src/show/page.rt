//! Lines that are written together, so that a writer without a buffer is seldom called.
//!
//! `BufWriter` would allocate, and its contract does not state that a failed allocation leaves its
//! writer untouched.

ghost use Rattle.std.specs.Prelude.{[], ◌≡◌, IfSome, OnOk};
ghost use Rattle.std.specs.Fmt.{with_newline};
ghost use Rattle.std.specs.Io.KnownBytes.{Appends};
ghost use Rattle.oneshot_text.specs.Page.{held};

use arrayvec::ArrayString;
use std::fmt::{Display, Write as _};
use std::io;
use std::io::Write;

/// The most bytes of lines that wait.
const PAGE: usize = 4096;

/// The most bytes of a line that waits. A longer line has large numbers, and is written in parts.
const LINE: usize = 64;

/// The lines that wait to be written, and the line that is being made.
#[derive(Drop)]
pub(crate) struct Page {
    lines: ArrayString<PAGE>,
    line: ArrayString<LINE>,
}

impl Page {
    /// An empty page.
    pub(crate) fn new() -> Page
        ensures { result.lines.bytes ≡ [] }
    {
        Page {
            lines: ArrayString::new(),
            line: ArrayString::new(),
        }
    }

    /// Adds a line with this text. If there is no room for it, writes the page and then the line to `output`.
    pub(crate) fn add<W: Write, D: Display + Drop>(
        &mut self,
        output: &mut W,
        text: D,
    ) -> io::Result<()>
        ensures { OnOk result (IfSome (with_newline (D.output text))
            (Appends (held (W.contents output.old) self.old) (held (W.contents output.new) self.new))) }
    {
        self.line.clear();
        match writeln!(self.line, "{text}") {
            Ok(()) => self.add_line(output),
            Err(_) => {
                self.write_to(output)?;
                writeln!(output, "{text}")
            }
        }
    }

    /// Adds the line that was made.
    #[tactic(auto, using(crate::proofs::Pages::joined, crate::proofs::Pages::passed))]
    fn add_line<W: Write>(&mut self, output: &mut W) -> io::Result<()>
        ensures { OnOk result (Appends (held (W.contents output.old) self.old)
            (held (W.contents output.new) self.new) self.old.line.bytes) }
    {
        match self.lines.try_push_str(self.line.as_str()) {
            Ok(()) => Ok(()),
            Err(_) => {
                self.write_to(output)?;
                output.write_all(self.line.as_str().as_bytes())
            }
        }
    }

    /// Writes all lines that wait to `output`.
    pub(crate) fn write_to<W: Write>(&mut self, output: &mut W) -> io::Result<()>
        ensures bytes { OnOk result (Appends (W.contents output.old) (W.contents output.new) self.old.lines.bytes) }
        ensures empty { OnOk result (self.new.lines.bytes ≡ []) }
        ensures line { self.new.line.bytes ≡ self.old.line.bytes }
    {
        output.write_all(self.lines.as_str().as_bytes())?;
        self.lines.clear();
        Ok(())
    }
}
