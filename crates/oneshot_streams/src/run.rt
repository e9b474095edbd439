//! Reads an input, and writes the trace of the run that it asks for.

ghost use Rattle.std.specs.Prelude.{◌≢◌, IfErr, IfOk, IfSome, IsOkUnless, OnOk};
ghost use Rattle.std.specs.Io.KnownBytes.{Keeps};
ghost use Rattle.oneshot_streams.specs.Run.{AsksFor, IsAnswered, IsFault, IsWritten};

use crate::fault::Fault;
use crate::input::{read_input, text_of};
use oneshot_replay::Replayer;
use oneshot_text::{Request, parse_request, write_run};
use std::alloc::Global;
use std::io::{Read, Write};

/// Reads all of `input`, runs what it asks for, and writes the trace to `output`.
///
/// `alloc` allocates the run. After the first byte of output nothing is allocated, and after a failed write
/// nothing is written. `Err`: a fault of the streams or the input, or out of memory.
pub fn run<R: Read, W: Write>(alloc: Global, input: &mut R, output: &mut W) -> Result<(), Fault>
    ensures answered { OnOk result (IfSome (R.remaining input.old) (λ all.
        IsAnswered all (W.contents output.old) (W.contents output.new))) }
    ensures faulty { IfErr result (λ fault.
        IfSome (R.remaining input.old) (λ all. IsFault all fault)) }
    ensures untouched { IfErr result (λ fault.
        fault ≢ Fault.WriteFailed → Keeps (W.contents output.old) (W.contents output.new)) }
{
    let request = read_request(alloc, input)?;
    write_answer(request, output)
}

/// Reads all of `input`, and returns the request in it.
fn read_request<R: Read>(alloc: Global, input: &mut R) -> Result<Request, Fault>
    ensures asked { IfOk result (λ request. IfSome (R.remaining input.old) (λ all.
        AsksFor all request.sender request.receiver request.moves.items)) }
    ensures faulty { IfErr result (λ fault.
        IfSome (R.remaining input.old) (λ all. IsFault all fault)) }
{
    let bytes = read_input(alloc, input)?;
    Ok(parse_request(alloc, text_of(&bytes)?)?)
}

/// Runs `request`, and writes the trace to `output`.
fn write_answer<W: Write>(request: Request, output: &mut W) -> Result<(), Fault>
    ensures written { OnOk result (IsWritten request.sender request.receiver request.moves.items
        (W.contents output.old) (W.contents output.new)) }
    ensures err { IsOkUnless result Fault.WriteFailed }
{
    let message = request.message();
    let Request {
        sender,
        receiver,
        moves,
    } = request;
    match write_run(output, Replayer::new(sender, receiver), &moves, message) {
        Ok(()) => Ok(()),
        Err(_) => Err(Fault::WriteFailed),
    }
}
