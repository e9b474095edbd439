//! Parses a request: two scripts and a schedule.

ghost use Rattle.std.specs.Prelude.{◌≡◌, ℕ, List, Err, IfOk, MatchResult, unwrap_or, alloc_error};
ghost use Rattle.oneshot_replay.specs.Rest.{message_of};
ghost use Rattle.oneshot_replay.specs.declared.Move.{Move};
ghost use Rattle.oneshot_replay.specs.declared.ReceiverScript.{ReceiverScript};
ghost use Rattle.oneshot_replay.specs.declared.SenderScript.{SenderScript};
ghost use Rattle.oneshot_text.specs.FirstFault.{HasFault};
ghost use Rattle.oneshot_text.specs.Receiver.{IsPollable};
ghost use Rattle.oneshot_text.specs.Request.{Asks};
ghost use Rattle.oneshot_text.specs.Sender.{IsSendable};
ghost use Rattle.oneshot_text.specs.declared.fault.Malformed.{Malformed};

use crate::fault::ParseError;
use crate::line::Line;
use crate::lines::Lines;
use crate::receiver::parse_receiver;
use crate::schedule::parse_schedule;
use crate::sender::parse_sender;
use oneshot_replay::{Move, ReceiverScript, SenderLast, SenderScript};
use std::alloc::Global;

/// What a text asks for: a run of two scripts under a schedule.
#[derive(Drop)]
pub struct Request {
    /// The sender's script, with its message.
    pub sender: SenderScript<u64>,
    /// The receiver's script.
    pub receiver: ReceiverScript,
    /// The schedule.
    pub moves: Vec<Move>,
}

impl Request {
    /// Returns the message of the sender's script, or 0 if it sends none. No reply shows that 0.
    pub fn message(&self) -> u64
        ensures { result ≡ unwrap_or (message_of self.now.sender.last) 0 }
    {
        match self.sender.last {
            SenderLast::Send(message, _) => message,
            SenderLast::Drop | SenderLast::Stop => 0,
        }
    }
}

/// Parses `text`, which has a line for the sender's script, one for the receiver's and one for the
/// schedule. Each ends with a line feed, which the third may lack. The calls and moves are allocated in
/// `alloc`.
///
/// Returns what the text asks for. Returns `Malformed` with the first fault if the text does not match
/// the grammar, and `OutOfMemory` if an allocation fails.
pub fn parse_request(alloc: Global, text: &str) -> Result<Request, ParseError>
    ensures written { IfOk result (λ read. Asks text.now read.sender read.receiver read.moves.items) }
    ensures each { (sender : SenderScript ℕ) (receiver : ReceiverScript) (moves : List Move) →
        IsSendable sender.last → IsPollable receiver.last → Asks text.now sender receiver moves →
        MatchResult result
        (λ read. (read.sender ≡ sender) × (read.receiver ≡ receiver) × (read.moves.items ≡ moves))
        (λ error. error ≡ ParseError.OutOfMemory alloc_error) }
    ensures faulty { (fault : Malformed) → result ≡ Err (ParseError.Malformed fault) → HasFault text.now fault }
{
    let mut lines = Lines::new(text);
    let sender = parse_sender(lines.take(Line::Sender)?)?;
    let receiver = parse_receiver(alloc, lines.take(Line::Receiver)?)?;
    let moves = parse_schedule(alloc, lines.take(Line::Schedule)?)?;
    lines.end()?;
    Ok(Request {
        sender,
        receiver,
        moves,
    })
}
