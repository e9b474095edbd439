//! Names the call that an entry belongs to, by its word in a script.

ghost use Rattle.std.specs.Prelude.{◌≡◌};
ghost use Rattle.std.specs.Fmt.{WritesOnOk};
ghost use Rattle.std.specs.Option.{option_copied};
ghost use Rattle.oneshot_text.specs.CallText.{word_of_sender_call, word_of_receiver_call, word_of_end, word_of_entry, call_field};

use crate::show::entry::EntryLine;
use oneshot_machine::machine::{End, ReceiverStart, SenderCall};
use oneshot_replay::Entry;
use std::fmt;
use std::fmt::Display;

/// An entry that displays as its line, and after it the call that it belongs to: `3 R load 2>2 = false (full)`. The
/// entry of an end that has no call left displays as its line alone.
#[derive(Clone, Copy)]
pub struct CalledLine(pub EntryLine);

impl fmt::Display for CalledLine {
    ghost use Rattle.std.specs.Prelude.{Some};
    ghost use Rattle.oneshot_text.specs.CallText.{called_text};

    ghost output = { λ l. Some (called_text l.0) };

    fn fmt<W: fmt::Write>(&self, f: &mut fmt::Formatter<W>) -> fmt::Result {
        self.0.fmt(f)?;
        write_call(f, self.0.call_word())
    }
}

impl EntryLine {
    /// Returns the call that the entry belongs to, by its word in a script: `send`, `full`, `poll`. Returns `None` for
    /// the entry of an end that has no call left.
    pub fn call_word(&self) -> Option<&'static str>
        ensures { option_copied result ≡ word_of_entry self.now.sender_call self.now.call self.now.entry }
    {
        match self.entry {
            Entry::Idle(_) => None,
            Entry::Made(made) => word_of(made.side, self.sender_call, self.call),
        }
    }
}

/// The word of this end's call.
fn word_of(
    end: End,
    sending: Option<SenderCall>,
    receiving: Option<ReceiverStart>,
) -> Option<&'static str>
    ensures { option_copied result ≡ word_of_end end sending receiving }
{
    match end {
        End::Sender => Some(sender_word(sending?)),
        End::Receiver => Some(receiver_word(receiving?)),
    }
}

fn sender_word(call: SenderCall) -> &'static str
    ensures { result.now ≡ word_of_sender_call call }
{
    match call {
        SenderCall::IsClosed => "closed",
        SenderCall::Send => "send",
        SenderCall::Drop | SenderCall::DropError => "drop",
        SenderCall::AsInner => "inner",
        SenderCall::IntoInner => "into",
    }
}

fn receiver_word(call: ReceiverStart) -> &'static str
    ensures { result.now ≡ word_of_receiver_call call }
{
    match call {
        ReceiverStart::TryRecv | ReceiverStart::AsyncTryRecv => "try",
        ReceiverStart::Recv => "recv",
        ReceiverStart::RecvRef => "ref",
        ReceiverStart::RecvDeadline => "deadline",
        ReceiverStart::RecvTimeout {
            representable: true,
        } => "timeout",
        ReceiverStart::RecvTimeout {
            representable: false,
        } => "forever",
        ReceiverStart::HasMessage => "full",
        ReceiverStart::IsClosed => "closed",
        ReceiverStart::IntoFuture => "future",
        ReceiverStart::Poll => "poll",
        ReceiverStart::Drop | ReceiverStart::DropAsync => "drop",
    }
}

/// Writes the word of a call in brackets, if there is one.
fn write_call<W: fmt::Write>(f: &mut fmt::Formatter<W>, word: Option<&'static str>) -> fmt::Result
    ensures { WritesOnOk W.write_str_gives f.old result (call_field (option_copied word.entry)) f.new }
{
    match word {
        Some(word) => write!(f, " ({word})"),
        None => Ok(()),
    }
}
