//! Parses the receiver's script: its calls in their order, and its last one.

ghost use Rattle.std.specs.Prelude.{◌≡◌, ◌≢◌, ◌↔◌, ◌++◌, Some, Err, IfOk, OnOk, MatchResult, map, slice_get, alloc_error};
ghost use Rattle.oneshot_replay.specs.declared.ReceiverCall.{ReceiverCall};
ghost use Rattle.oneshot_replay.specs.declared.ReceiverLast.{ReceiverLast};
ghost use Rattle.oneshot_replay.specs.declared.ReceiverScript.{ReceiverScript};
ghost use Rattle.oneshot_text.specs.Receiver.{word_of_call, words_of_receiver_last, words_of_receiver, IsPollable};
ghost use Rattle.oneshot_text.specs.Grammar.{AsksForReceiver};
ghost use Rattle.oneshot_text.specs.Words.{words_left, HasLineFault, IsSameLine};
ghost use Rattle.oneshot_text.specs.declared.fault.Malformed.{Malformed};

use crate::fault::ParseError;
use crate::future::parse_future;
use crate::words::Words;
use oneshot_replay::{ReceiverCall, ReceiverLast, ReceiverScript};
use std::alloc::{AllocError, Global};

/// Parses the receiver's script from the words of its line.
pub(crate) fn parse_receiver(
    alloc: Global,
    mut words: Words<'_>,
) -> Result<ReceiverScript, ParseError>
    ensures written { IfOk result (λ receiver. words_left words.entry ≡ words_of_receiver receiver) }
    ensures each { (receiver : ReceiverScript) → IsPollable receiver.last →
        words_left words.entry ≡ words_of_receiver receiver →
        MatchResult result (λ read. read ≡ receiver) (λ error. error ≡ ParseError.OutOfMemory alloc_error) }
    ensures fits { IfOk result (λ receiver. IsPollable receiver.last) }
    ensures faulty { (fault : Malformed) → result ≡ Err (ParseError.Malformed fault) →
        HasLineFault AsksForReceiver words.entry fault }
{
    let calls = parse_calls(alloc, &mut words)?;
    let last = parse_last(alloc, words)?;
    Ok(ReceiverScript {
        calls: calls.into(),
        last,
    })
}

/// Takes the next calls, as many as there are.
fn parse_calls(alloc: Global, words: &mut Words<'_>) -> Result<Vec<ReceiverCall>, AllocError>
    ensures run { IfOk result (λ calls.
        words_left words.old ≡ map word_of_call calls.items ++ words_left words.new) }
    ensures whole { OnOk result ((call : ReceiverCall) →
        slice_get (words_left words.new) 0 ≢ Some (word_of_call call)) }
    ensures line { OnOk result (IsSameLine words.old words.new) }
{
    let mut calls = Vec::new(alloc);
    while let Some(call) = words.peek().and_then(call_of) {
        calls.push(call)?;
        words.next();
    }
    Ok(calls)
}

/// Parses the last call from all words left.
fn parse_last(alloc: Global, mut words: Words<'_>) -> Result<ReceiverLast, ParseError>
    ensures written { IfOk result (λ last. words_left words.entry ≡ words_of_receiver_last last) }
    ensures each { (last : ReceiverLast) → IsPollable last →
        words_left words.entry ≡ words_of_receiver_last last →
        MatchResult result (λ read. read ≡ last) (λ error. error ≡ ParseError.OutOfMemory alloc_error) }
    ensures fits { IfOk result (λ last. IsPollable last) }
    ensures faulty { ((call : ReceiverCall) →
        slice_get (words_left words.entry) 0 ≢ Some (word_of_call call)) →
        (fault : Malformed) → result ≡ Err (ParseError.Malformed fault) →
        HasLineFault AsksForReceiver words.entry fault }
{
    if words.next_is("future") {
        words.next();
        return Ok(ReceiverLast::IntoFuture(parse_future(alloc, words)?));
    }
    if words.next_is("recv") {
        words.next();
        words.end()?;
        return Ok(ReceiverLast::Recv);
    }
    if words.next_is("drop") {
        words.next();
        words.end()?;
        return Ok(ReceiverLast::Drop);
    }
    words.stop()?;
    Ok(ReceiverLast::Stop)
}

/// The call that the word asks for.
fn call_of(word: &str) -> Option<ReceiverCall>
    ensures { (call : ReceiverCall) → (result ≡ Some call) ↔ (word_of_call call ≡ word.now) }
{
    match word {
        "try" => Some(ReceiverCall::TryRecv),
        "ref" => Some(ReceiverCall::RecvRef),
        "deadline" => Some(ReceiverCall::RecvDeadline),
        "timeout" => Some(ReceiverCall::RecvTimeout {
            representable: true,
        }),
        "forever" => Some(ReceiverCall::RecvTimeout {
            representable: false,
        }),
        "full" => Some(ReceiverCall::HasMessage),
        "closed" => Some(ReceiverCall::IsClosed),
        _ => None,
    }
}
