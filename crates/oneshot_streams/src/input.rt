//! Reads all of the input, as text.

ghost use Rattle.std.specs.Prelude.{◌≡◌, ◌<◌, ◌≤◌, ◌↔◌, IfErr, IfOk, IfSome, IsOk, IsOkUnless, length, take};
ghost use Rattle.std.specs.Io.{ReadsAtMost};
ghost use Rattle.std.specs.Io.KnownBytes.{Consumes, IsAtEnd};
ghost use Rattle.std.specs.Str.{IsAscii};
ghost use Rattle.oneshot_streams.specs.Run.{most_bytes, IsFault};

use crate::fault::Fault;
use std::alloc::Global;
use std::io::{ErrorKind, Read};
use std::str;

/// The most bytes that an input may have.
const MOST: usize = 1_048_576;

/// The most bytes that one read returns.
const BLOCK: usize = 4096;

/// Reads all bytes of `input`. Once they are too many, stops reading.
#[tactic(auto, using(crate::proofs::Faults::unread, crate::proofs::Faults::no_memory, crate::proofs::Faults::too_long))]
pub(crate) fn read_input<R: Read>(alloc: Global, input: &mut R) -> Result<Vec<u8>, Fault>
    ensures whole { IfOk result (λ bytes.
        IfSome (R.remaining input.old) (λ all. bytes.items ≡ all)) }
    ensures fits { IfOk result (λ bytes. length bytes.items ≤ most_bytes) }
    ensures faulty { IfErr result (λ fault.
        IfSome (R.remaining input.old) (λ all. IsFault all fault)) }
{
    let mut bytes = Vec::new(alloc);
    let mut block = [0; BLOCK];
    while bytes.len() <= MOST {
        let count = read_block(input, &mut block)?;
        if count == 0 {
            return Ok(bytes);
        }
        bytes.extend_from_slice(&block[..count])?;
    }
    Err(Fault::InputTooLong)
}

/// Reads once, and again if a signal interrupts the read.
fn read_block<R: Read>(input: &mut R, block: &mut [u8]) -> Result<usize, Fault>
    ensures bound { ReadsAtMost result block.new }
    ensures bytes { IfOk result (λ n.
        Consumes (R.remaining input.old) (R.remaining input.new) (take n block.new)) }
    ensures end { IfOk result (λ n.
        n ≡ 0 → 0 < length block.old → IsAtEnd (R.remaining input.new)) }
    ensures err { IsOkUnless result Fault.ReadFailed }
{
    for _ in 0..u64::MAX {
        match input.read(block) {
            Ok(count) => return Ok(count),
            Err(error) if error.kind() == ErrorKind::Interrupted => {}
            Err(_) => return Err(Fault::ReadFailed),
        }
    }
    Err(Fault::ReadFailed)
}

/// Returns `bytes` as text, if they are ASCII.
pub(crate) fn text_of(bytes: &[u8]) -> Result<&str, Fault>
    ensures text { IfOk result (λ text. text.now ≡ bytes.now) }
    ensures ascii { IsOk result ↔ IsAscii bytes.now }
    ensures err { IsOkUnless result Fault.NotAscii }
{
    if !bytes.is_ascii() {
        return Err(Fault::NotAscii);
    }
    Ok(str::from_utf8(bytes).unwrap())
}
