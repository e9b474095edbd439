//! Parses the future's script: its calls in their order, and its last one.

ghost use Rattle.std.specs.Prelude.{◌≡◌, ◌≢◌, ◌++◌, Some, None, Ok, Err, IfOk, OnOk, IfSome, MatchResult, List, ℕ, slice_get, alloc_error};
ghost use Rattle.oneshot_replay.specs.declared.AsyncCall.{AsyncCall};
ghost use Rattle.oneshot_replay.specs.declared.AsyncLast.{AsyncLast};
ghost use Rattle.oneshot_replay.specs.declared.AsyncScript.{AsyncScript};
ghost use Rattle.oneshot_text.specs.Future.{first_word_of_future_call, words_of_future_call, words_of_future_calls, words_of_future_last, words_of_future, HasNumber, HasNumbers};
ghost use Rattle.oneshot_text.specs.Grammar.{AsksForFuture};
ghost use Rattle.oneshot_text.specs.Words.{words_left, HasLineFault, IsSameLine};
ghost use Rattle.oneshot_text.specs.declared.fault.Malformed.{Malformed};

use crate::fault::{Malformed, ParseError};
use crate::words::Words;
use oneshot_replay::{AsyncCall, AsyncLast, AsyncScript};
use std::alloc::Global;

/// Parses the future's script from all words left of the receiver's line.
pub(crate) fn parse_future(alloc: Global, mut words: Words<'_>) -> Result<AsyncScript, ParseError>
    ensures written { IfOk result (λ future. words_left words.entry ≡ words_of_future future) }
    ensures each { (future : AsyncScript) → HasNumbers future.calls →
        words_left words.entry ≡ words_of_future future →
        MatchResult result (λ read. read ≡ future) (λ error. error ≡ ParseError.OutOfMemory alloc_error) }
    ensures fits { IfOk result (λ future. HasNumbers future.calls) }
    ensures faulty { (fault : Malformed) → result ≡ Err (ParseError.Malformed fault) →
        HasLineFault AsksForFuture words.entry fault }
{
    let calls = parse_calls(alloc, &mut words)?;
    let last = parse_last(words)?;
    Ok(AsyncScript {
        calls: calls.into(),
        last,
    })
}

/// Takes the next calls, as many as there are.
fn parse_calls(alloc: Global, words: &mut Words<'_>) -> Result<Vec<AsyncCall>, ParseError>
    ensures written { IfOk result (λ calls.
        words_left words.old ≡ words_of_future_calls calls.items ++ words_left words.new) }
    ensures each { (future : AsyncScript) → HasNumbers future.calls →
        words_left words.old ≡ words_of_future future →
        MatchResult result
        (λ calls. (calls.items ≡ future.calls) × (words_left words.new ≡ words_of_future_last future.last))
        (λ error. error ≡ ParseError.OutOfMemory alloc_error) }
    ensures numbers { IfOk result (λ calls. HasNumbers calls.items) }
    ensures whole { OnOk result ((call : AsyncCall) →
        slice_get (words_left words.new) 0 ≢ Some (first_word_of_future_call call)) }
    ensures line { OnOk result (IsSameLine words.old words.new) }
    ensures faulty { (fault : Malformed) → result ≡ Err (ParseError.Malformed fault) →
        HasLineFault AsksForFuture words.old fault }
{
    let mut calls = Vec::new(alloc);
    while let Some(call) = next_call(words)? {
        calls.push(call)?;
    }
    Ok(calls)
}

/// Takes the next call; `None` if the next word begins no call.
fn next_call(words: &mut Words<'_>) -> Result<Option<AsyncCall>, Malformed>
    ensures taken { IfOk result (λ next. IfSome next (λ call.
        words_left words.old ≡ words_of_future_call call ++ words_left words.new)) }
    ensures left { result ≡ Ok None → words_left words.new ≡ words_left words.old }
    ensures none { result ≡ Ok None → (call : AsyncCall) →
        slice_get (words_left words.old) 0 ≢ Some (first_word_of_future_call call) }
    ensures only_then { ((call : AsyncCall) →
        slice_get (words_left words.old) 0 ≢ Some (first_word_of_future_call call)) → result ≡ Ok None }
    ensures each { (call : AsyncCall) (rest : List (List ℕ)) → HasNumber call →
        words_left words.old ≡ words_of_future_call call ++ rest → result ≡ Ok (Some call) }
    ensures numbers { IfOk result (λ next. IfSome next HasNumber) }
    ensures line { OnOk result (IsSameLine words.old words.new) }
    ensures faulty { (fault : Malformed) → result ≡ Err fault →
        HasLineFault AsksForFuture words.old fault }
{
    if words.next_is("poll") {
        words.next();
        return Ok(Some(AsyncCall::Poll(words.number()?)));
    }
    let call = if words.next_is("try") {
        AsyncCall::TryRecv
    } else if words.next_is("full") {
        AsyncCall::HasMessage
    } else if words.next_is("closed") {
        AsyncCall::IsClosed
    } else {
        return Ok(None);
    };
    words.next();
    Ok(Some(call))
}

/// Parses the last call from all words left.
fn parse_last(mut words: Words<'_>) -> Result<AsyncLast, Malformed>
    ensures written { IfOk result (λ last. words_left words.entry ≡ words_of_future_last last) }
    ensures each { (last : AsyncLast) →
        words_left words.entry ≡ words_of_future_last last → result ≡ Ok last }
    ensures faulty { ((call : AsyncCall) →
        slice_get (words_left words.entry) 0 ≢ Some (first_word_of_future_call call)) →
        (fault : Malformed) → result ≡ Err fault → HasLineFault AsksForFuture words.entry fault }
{
    if words.next_is("drop") {
        words.next();
        words.end()?;
        return Ok(AsyncLast::Drop);
    }
    words.stop()?;
    Ok(AsyncLast::Stop)
}
