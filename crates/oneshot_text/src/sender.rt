//! Parses the sender's script: its looks, its last call, and what is done with the error of a refused `send`.

ghost use Rattle.std.specs.Prelude.{◌≡◌, ◌≢◌, ℕ, Some, Ok, Err, IfOk, codes, slice_get};
ghost use Rattle.oneshot_replay.specs.declared.ErrorLast.{ErrorLast};
ghost use Rattle.oneshot_replay.specs.declared.ErrorScript.{ErrorScript};
ghost use Rattle.oneshot_replay.specs.declared.SenderLast.{SenderLast};
ghost use Rattle.oneshot_replay.specs.declared.SenderScript.{SenderScript};
ghost use Rattle.oneshot_text.specs.Sender.{words_of_error_last, words_of_error, words_of_sender_last, words_of_sender, IsSendable};
ghost use Rattle.oneshot_text.specs.Grammar.{AsksForSender, AsksForError};
ghost use Rattle.oneshot_text.specs.Words.{words_left, HasLineFault};
ghost use Rattle.oneshot_text.specs.declared.fault.Malformed.{Malformed};

use crate::fault::Malformed;
use crate::words::Words;
use oneshot_replay::{ErrorLast, ErrorScript, SenderLast, SenderScript};

/// Parses the sender's script from the words of its line.
pub(crate) fn parse_sender(mut words: Words<'_>) -> Result<SenderScript<u64>, Malformed>
    ensures written { IfOk result (λ sender. words_left words.entry ≡ words_of_sender sender) }
    ensures each { (sender : SenderScript ℕ) → IsSendable sender.last →
        words_left words.entry ≡ words_of_sender sender → result ≡ Ok sender }
    ensures fits { IfOk result (λ sender. IsSendable sender.last) }
    ensures faulty { (fault : Malformed) → result ≡ Err fault →
        HasLineFault AsksForSender words.entry fault }
{
    let looks = words.take_run("closed");
    let last = parse_last(words)?;
    Ok(SenderScript { looks, last })
}

/// Parses the last call from all words left.
fn parse_last(mut words: Words<'_>) -> Result<SenderLast<u64>, Malformed>
    ensures written { IfOk result (λ last. words_left words.entry ≡ words_of_sender_last last) }
    ensures each { (last : SenderLast ℕ) → IsSendable last →
        words_left words.entry ≡ words_of_sender_last last → result ≡ Ok last }
    ensures fits { IfOk result (λ last. IsSendable last) }
    ensures faulty { slice_get (words_left words.entry) 0 ≢ Some (codes "closed") →
        (fault : Malformed) → result ≡ Err fault → HasLineFault AsksForSender words.entry fault }
{
    if words.next_is("drop") {
        words.next();
        words.end()?;
        return Ok(SenderLast::Drop);
    }
    if words.next_is("send") {
        words.next();
        let message = words.number()?;
        let error = parse_error(words)?;
        return Ok(SenderLast::Send(message, error));
    }
    words.stop()?;
    Ok(SenderLast::Stop)
}

/// Parses what is done with the error from all words left.
fn parse_error(mut words: Words<'_>) -> Result<ErrorScript, Malformed>
    ensures written { IfOk result (λ error. words_left words.entry ≡ words_of_error error) }
    ensures each { (error : ErrorScript) →
        words_left words.entry ≡ words_of_error error → result ≡ Ok error }
    ensures faulty { (fault : Malformed) → result ≡ Err fault →
        HasLineFault AsksForError words.entry fault }
{
    let looks = words.take_run("inner");
    let last = parse_error_last(words)?;
    Ok(ErrorScript { looks, last })
}

fn parse_error_last(mut words: Words<'_>) -> Result<ErrorLast, Malformed>
    ensures written { IfOk result (λ last. words_left words.entry ≡ words_of_error_last last) }
    ensures each { (last : ErrorLast) →
        words_left words.entry ≡ words_of_error_last last → result ≡ Ok last }
    ensures faulty { slice_get (words_left words.entry) 0 ≢ Some (codes "inner") →
        (fault : Malformed) → result ≡ Err fault → HasLineFault AsksForError words.entry fault }
{
    if words.next_is("into") {
        words.next();
        words.end()?;
        return Ok(ErrorLast::IntoInner);
    }
    if words.next_is("drop") {
        words.next();
        words.end()?;
        return Ok(ErrorLast::Drop);
    }
    words.stop()?;
    Ok(ErrorLast::Stop)
}
