//! Writes the text of a trace.

ghost use Rattle.std.specs.Prelude.{◌≡◌, ℕ, ◌+◌, ◌-◌, ◌^◌, ◌<◌, List, ◌++◌, Some, OnOk, length, unwrap_or};
ghost use Rattle.std.specs.Io.KnownBytes.{Appends};
ghost use Rattle.oneshot_text.specs.Page.{held};
ghost use Rattle.oneshot_text.specs.TraceText.{end_text, IsTextOf};

mod called;
mod entry;
mod names;
mod page;
mod reply;
mod rest;

pub use called::CalledLine;
pub use entry::EntryLine;
use oneshot_replay::{Move, Replayer};
use page::Page;
pub use reply::ReplyText;
use rest::{RestText, block_word};
use std::io;
use std::io::Write;

/// Makes `moves` in `run`, in their order, and writes to `output` a line for each, then where the
/// message is left, and then whether the block is freed.
///
/// `message` is the message of the sender's script, or 0 if it sends none. The entries' numbers must
/// stay below 2^64.
///
/// Allocates nothing. Returns the writer's error if it fails, and then writes nothing more.
pub fn write_run<W: Write>(
    output: &mut W,
    mut run: Replayer<u64>,
    moves: &[Move],
    message: u64,
) -> io::Result<()>
    requires room { run.count + length moves.now < 2 ^ 64 }
    requires message { message ≡ unwrap_or run.message 0 }
    ensures written { OnOk result ((text : List ℕ)
        × IsTextOf run.message (run.count + 1) run.world moves.now text
        × Appends (W.contents output.old) (W.contents output.new) text) }
{
    let mut page = Page::new();
    for m in moves {
        page.add(output, EntryLine::of_step(&mut run, *m, message))?;
    }
    write_end(output, page, run)
}

/// Writes the lines that wait, where the message is left, and whether the block is freed.
fn write_end<W: Write>(output: &mut W, mut page: Page, run: Replayer<u64>) -> io::Result<()>
    ensures { OnOk result (Appends (held (W.contents output.old) page) (W.contents output.new)
        (end_text run.message run.world)) }
{
    let block = block_word(run.block_freed());
    let rest = RestText(run.into_rest());
    page.add(output, format_args!("rest {rest}"))?;
    page.add(output, format_args!("block {block}"))?;
    page.write_to(output)?;
    output.flush()
}
