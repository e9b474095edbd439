//! Writes an entry's line.

ghost use Rattle.std.specs.Prelude.{◌≡◌, ◌+◌, ◌-◌, ◌^◌, ◌<◌, ◌++◌, Some, IfSome, codes, decimal};
ghost use Rattle.std.specs.Fmt.{WritesOnOk};
ghost use Rattle.oneshot_world.specs.World.{turn};
ghost use Rattle.oneshot_replay.specs.Run.{GoesOn};
ghost use Rattle.oneshot_replay.specs.Scene.{sender_call_of, receiver_call_of};
ghost use Rattle.oneshot_text.specs.Names.{letter_of_end, name_of_step};
ghost use Rattle.oneshot_text.specs.EntryText.{word_text, message_field, waker_field, token_field, found_field, own_field, reply_field, made_text};

use crate::show::names::{WakerText, end_letter, message_place, step_name, waker_place};
use crate::show::reply::ReplyText;
use oneshot_machine::machine::{End, ReceiverStart, Seen, SenderCall};
use oneshot_replay::{Entry, Made, Move, Place, Replayer, WakerName, WakerPlace};
use std::fmt;
use std::fmt::Display;

/// An entry of a trace. It displays as its line.
#[derive(Clone, Copy)]
pub struct EntryLine {
    /// The entry's number, counted from 1.
    pub number: usize,
    /// The entry.
    pub entry: Entry,
    /// The call that the receiver has under way, or begins at its next move, before the entry.
    pub call: Option<ReceiverStart>,
    /// The call that the sender has under way, or begins at its next move, before the entry.
    pub sender_call: Option<SenderCall>,
    /// The message of the sender's script.
    pub message: u64,
}

impl EntryLine {
    /// Makes the move `m` of `run`, and returns its entry, with its number and both ends' calls before it.
    ///
    /// `message` is the message of the sender's script, or any number if it sends none. `room`: there are fewer
    /// entries than the largest `usize`, so this one has a number.
    pub fn of_step(run: &mut Replayer<u64>, m: Move, message: u64) -> EntryLine
        requires room { run.old.count < 2 ^ 64 - 1 }
        ensures turn { turn (run.old.count + 1) run.old.world m ≡ Some (result.entry, run.new.world) }
        ensures number { result.number ≡ run.old.count + 1 }
        ensures call { result.call ≡ receiver_call_of run.old }
        ensures sender_call { result.sender_call ≡ sender_call_of run.old }
        ensures message { result.message ≡ message }
        ensures count { run.new.count ≡ run.old.count + 1 }
        ensures same_message { run.new.message ≡ run.old.message }
        ensures goes_on { GoesOn run.old m result.entry run.new }
    {
        let (call, sender_call) = (run.receiver_call(), run.sender_call());
        let entry = run.step(m);
        EntryLine {
            number: run.count(),
            entry,
            call,
            sender_call,
            message,
        }
    }
}

impl fmt::Display for EntryLine {
    ghost use Rattle.oneshot_text.specs.EntryText.{entry_text};

    ghost output = { λ l. Some (entry_text l.number l.call l.message l.entry) };

    fn fmt<W: fmt::Write>(&self, f: &mut fmt::Formatter<W>) -> fmt::Result {
        self.number.fmt(f)?;
        match &self.entry {
            Entry::Idle(end) => write_idle(f, *end),
            Entry::Made(made) => write_made(f, made, self.call, self.message),
        }
    }
}

/// Writes a move of an end that has no call left.
fn write_idle<W: fmt::Write>(f: &mut fmt::Formatter<W>, end: End) -> fmt::Result
    ensures { WritesOnOk W.write_str_gives f.old result (codes " " ++ letter_of_end end ++ codes " idle") f.new }
{
    f.write_str(end_letter(end))?;
    f.write_str("idle")
}

/// Writes a step: what it did to the word, and then each field that it has.
fn write_made<W: fmt::Write>(
    f: &mut fmt::Formatter<W>,
    made: &Made,
    call: Option<ReceiverStart>,
    message: u64,
) -> fmt::Result
    ensures { WritesOnOk W.write_str_gives f.old result (codes " " ++ made_text call message made.now) f.new }
{
    write_step(f, made)?;
    write_fields(f, made)?;
    write_reply(f, made, call, message)
}

/// Writes the end, its step, and the word before and after it.
fn write_step<W: fmt::Write>(f: &mut fmt::Formatter<W>, made: &Made) -> fmt::Result
    ensures { WritesOnOk W.write_str_gives f.old result (codes " " ++ letter_of_end made.now.side
        ++ codes " " ++ name_of_step made.now.step
        ++ codes " " ++ word_text made.now.before ++ codes ">" ++ word_text made.now.after) f.new }
{
    f.write_str(end_letter(made.side))?;
    f.write_str(step_name(made.step))?;
    write_words(f, made.before, made.after)
}

/// Writes the word before and after a step.
fn write_words<W: fmt::Write>(
    f: &mut fmt::Formatter<W>,
    before: Option<u8>,
    after: Option<u8>,
) -> fmt::Result
    ensures { WritesOnOk W.write_str_gives f.old result (word_text before ++ codes ">" ++ word_text after) f.new }
{
    if let Some(both) = kept_word(before, after) {
        return f.write_str(both);
    }
    write_word(f, before)?;
    f.write_str(">")?;
    write_word(f, after)
}

/// The text of the word before and after a step that keeps it, in one piece. Most steps do.
fn kept_word(before: Option<u8>, after: Option<u8>) -> Option<&'static str>
    ensures { IfSome result (λ text. text.now ≡ word_text before ++ codes ">" ++ word_text after) }
{
    let (before, after) = (before?, after?);
    if before == after {
        return kept_code(before);
    }
    None
}

#[tactic(auto, using(crate::proofs::Kept::kept_text))]
fn kept_code(code: u8) -> Option<&'static str>
    ensures { IfSome result (λ text. text.now ≡ decimal code ++ codes ">" ++ decimal code) }
{
    match code {
        0 => Some("0>0"),
        2 => Some("2>2"),
        3 => Some("3>3"),
        4 => Some("4>4"),
        _ => None,
    }
}

/// Writes the word's code, or `-` once the block is freed.
fn write_word<W: fmt::Write>(f: &mut fmt::Formatter<W>, word: Option<u8>) -> fmt::Result
    ensures { WritesOnOk W.write_str_gives f.old result (word_text word) f.new }
{
    match word {
        Some(code) => code.fmt(f),
        None => f.write_str("-"),
    }
}

/// Writes what the step moved, and what it found or did besides the word.
fn write_fields<W: fmt::Write>(f: &mut fmt::Formatter<W>, made: &Made) -> fmt::Result
    ensures { WritesOnOk W.write_str_gives f.old result (message_field made.now.message ++ waker_field made.now.waker
        ++ token_field made.now.token_set ++ found_field made.now.seen ++ own_field made.now.own) f.new }
{
    write_message(f, made.message)?;
    write_waker(f, made.waker)?;
    f.write_str(token_text(made.token_set))?;
    f.write_str(found_text(made.seen))?;
    write_own(f, made.own)
}

/// Writes the move of the message.
fn write_message<W: fmt::Write>(
    f: &mut fmt::Formatter<W>,
    moved: Option<(Place, Place)>,
) -> fmt::Result
    ensures { WritesOnOk W.write_str_gives f.old result (message_field moved) f.new }
{
    match moved {
        Some((from, to)) => write!(f, " m:{}>{}", message_place(from), message_place(to)),
        None => Ok(()),
    }
}

/// Writes the move of a waker.
fn write_waker<W: fmt::Write>(
    f: &mut fmt::Formatter<W>,
    moved: Option<(WakerName, WakerPlace, WakerPlace)>,
) -> fmt::Result
    ensures { WritesOnOk W.write_str_gives f.old result (waker_field moved) f.new }
{
    match moved {
        Some((name, from, to)) => write!(
            f,
            " {}:{}>{}",
            WakerText(name),
            waker_place(from),
            waker_place(to)
        ),
        None => Ok(()),
    }
}

/// The text for a wake that set the token.
fn token_text(is_set: bool) -> &'static str
    ensures { result.now ≡ token_field is_set }
{
    if is_set { " token+" } else { "" }
}

/// What the step found besides the word: a clock past the deadline or before it, a copy that was
/// refused, the token on which the receiver parks, or a park that ended without it.
fn found_text(seen: Seen) -> &'static str
    ensures { result.now ≡ found_field seen }
{
    match seen {
        Seen::Over(true) => " over",
        Seen::Over(false) => " left",
        Seen::Refused(true) => " refused",
        Seen::Token(true) => " token-",
        Seen::Token(false) => " spurious",
        Seen::Done | Seen::Word(_) | Seen::Refused(false) => "",
    }
}

/// Writes the number of the poll's own waker, if the step woke it.
fn write_own<W: fmt::Write>(f: &mut fmt::Formatter<W>, own: Option<u64>) -> fmt::Result
    ensures { WritesOnOk W.write_str_gives f.old result (own_field own) f.new }
{
    match own {
        Some(number) => write!(f, " own:{number}"),
        None => Ok(()),
    }
}

/// Writes the reply, if the step ends a call.
fn write_reply<W: fmt::Write>(
    f: &mut fmt::Formatter<W>,
    made: &Made,
    call: Option<ReceiverStart>,
    message: u64,
) -> fmt::Result
    ensures { WritesOnOk W.write_str_gives f.old result (reply_field made.now.side call message made.now.reply) f.new }
{
    let end = made.side;
    match made.reply {
        Some(reply) => write!(
            f,
            " = {}",
            ReplyText {
                end,
                call,
                message,
                reply
            }
        ),
        None => Ok(()),
    }
}
