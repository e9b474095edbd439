//! Answers an input with a trace, or with a fault and its exit status.

ghost use Rattle.std.specs.Prelude.{◌≡◌};
ghost use Rattle.std.specs.Io.KnownBytes.{Keeps};
ghost use Rattle.oneshot_streams.specs.Run.{EndsWith};

use crate::run::run;
use std::alloc::Global;
use std::io::{Read, Write};

/// Calls `run` with `alloc`, `input` and `output`, and returns the exit status: 0 if the trace was written,
/// else that of the fault, which it writes as a line to `errors`.
pub fn answer<R: Read, W: Write, E: Write>(
    alloc: Global,
    input: &mut R,
    output: &mut W,
    errors: &mut E,
) -> u8
    ensures status { EndsWith (R.remaining input.old) (W.contents output.old) (W.contents output.new) result }
    ensures quiet { result ≡ 0 → Keeps (E.contents errors.old) (E.contents errors.new) }
{
    match run(alloc, input, output) {
        Ok(()) => 0,
        Err(fault) => {
            // If this line cannot be written, only the status reports the fault.
            let _ = writeln!(errors, "{fault}");
            fault.status()
        }
    }
}
