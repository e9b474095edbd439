//! The text of a reply, in the words of the call that it ends.

ghost use Rattle.std.specs.Prelude.{◌≡◌, None, IfSome};
ghost use Rattle.std.specs.Fmt.{WritesOnOk};
ghost use Rattle.oneshot_machine.specs.declared.machine.Reply.TheVariants.{Message};
ghost use Rattle.oneshot_text.specs.ReplyText.{disconnected_text, message_text, reply_text};

use oneshot_machine::machine::{End, ReceiverStart, Reply};
use std::fmt;
use std::fmt::Display;

/// A reply. It displays in the words of the call that it ends.
#[derive(Clone, Copy)]
pub struct ReplyText {
    /// The end whose call replied.
    pub end: End,
    /// The call that the reply ends, if it is the receiver's.
    pub call: Option<ReceiverStart>,
    /// The message of the sender's script.
    pub message: u64,
    /// The reply.
    pub reply: Reply,
}

impl fmt::Display for ReplyText {
    ghost use Rattle.std.specs.Prelude.{Some};
    ghost use Rattle.oneshot_text.specs.ReplyText.{reply_text};

    ghost output = { λ r. Some (reply_text r.end r.call r.message r.reply) };

    fn fmt<W: fmt::Write>(&self, f: &mut fmt::Formatter<W>) -> fmt::Result {
        match self.fixed_text() {
            Some(text) => f.write_str(text),
            None => write_message(f, self.end, self.call, self.message),
        }
    }
}

impl ReplyText {
    // The text of a reply that shows no message.
    fn fixed_text(&self) -> Option<&'static str>
        ensures text { IfSome result (λ text.
            text.now ≡ reply_text self.now.end self.now.call self.now.message self.now.reply) }
        ensures none { result ≡ None → self.now.reply ≡ Message }
    {
        let text = match self.reply {
            Reply::Sent => "Ok",
            Reply::Refused => "Err",
            Reply::Yes => "true",
            Reply::No => "false",
            Reply::Message => return None,
            Reply::Empty => "Err(Empty)",
            Reply::Timeout => "Err(Timeout)",
            Reply::Disconnected => error_of(self.call),
            Reply::Pending => "Pending",
            Reply::Future => "future",
            Reply::Done => "dropped",
        };
        Some(text)
    }
}

/// The message, as the call shows it.
fn write_message<W: fmt::Write>(
    f: &mut fmt::Formatter<W>,
    end: End,
    call: Option<ReceiverStart>,
    message: u64,
) -> fmt::Result
    ensures { WritesOnOk W.write_str_gives f.old result (message_text end call message) f.new }
{
    match (end, call) {
        (End::Sender, _) => message.fmt(f),
        (End::Receiver, Some(ReceiverStart::Poll)) => write!(f, "Ready(Ok({message}))"),
        (End::Receiver, _) => write!(f, "Ok({message})"),
    }
}

/// The error of a receive that will get no message.
fn error_of(call: Option<ReceiverStart>) -> &'static str
    ensures { result.now ≡ disconnected_text call }
{
    match call {
        Some(ReceiverStart::Poll) => "Ready(Err(RecvError))",
        Some(ReceiverStart::Recv | ReceiverStart::RecvRef) => "Err(RecvError)",
        _ => "Err(Disconnected)",
    }
}
