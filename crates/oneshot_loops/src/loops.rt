//! The loops that can be measured, and their names.

ghost use Rattle.std.specs.Prelude.{◌≡◌, ◌↔◌, Some};
ghost use Rattle.std.specs.List.{find};
ghost use Rattle.std.specs.Str.{bytes_eq};
ghost use Rattle.oneshot_loops.specs.Loop.{name_of, awaited_name};

use std::fmt;

/// A loop, by what each round does with a new channel.
#[derive(Clone, Copy, Debug, PartialEq, Eq)]
pub enum Loop {
    /// Sends 8 bytes, receives them by `try_recv`, and drops the receiver.
    MakeSendReceiveDrop,
    /// Drops both ends.
    MakeDrop,
    /// Sends 8 bytes, and receives them by `recv`.
    MakeSendRecv,
    /// Polls, sends 8 bytes, and receives them by another poll.
    MakePollSendPoll,
    /// `MakeSendReceiveDrop` with 4,096 bytes.
    MakeSendReceiveDropLarge,
    /// Sends a request to another thread, and blocks until the reply comes: two channels.
    RoundTrip,
    /// A loop whose receivers are futures.
    Awaited(Awaited),
}

/// A loop whose receivers are futures, by what each round does.
#[derive(Clone, Copy, Debug, PartialEq, Eq)]
pub enum Awaited {
    /// Sends 8 bytes, and awaits them by `block_on`.
    MakeSendBlockOn,
    /// Sends 8 bytes, and awaits them in a queue that all rounds share.
    MakeSendAwait,
    /// Polls a pending receiver, which all rounds share.
    PollPending,
    /// As `Loop::RoundTrip`, but each thread awaits in a queue that it keeps.
    RoundTripAwait,
}

/// Every loop.
const LOOPS: [Loop; 10] = [
    Loop::MakeSendReceiveDrop,
    Loop::MakeDrop,
    Loop::MakeSendRecv,
    Loop::MakePollSendPoll,
    Loop::MakeSendReceiveDropLarge,
    Loop::RoundTrip,
    Loop::Awaited(Awaited::MakeSendBlockOn),
    Loop::Awaited(Awaited::MakeSendAwait),
    Loop::Awaited(Awaited::PollPending),
    Loop::Awaited(Awaited::RoundTripAwait),
];

impl Loop {
    /// The loop's name.
    pub fn name(self) -> &'static str
        ensures { result.now ≡ name_of self }
    {
        match self {
            Loop::MakeSendReceiveDrop => "make_send_receive_drop",
            Loop::MakeDrop => "make_drop",
            Loop::MakeSendRecv => "make_send_recv",
            Loop::MakePollSendPoll => "make_poll_send_poll",
            Loop::MakeSendReceiveDropLarge => "make_send_receive_drop_4096",
            Loop::RoundTrip => "round_trip",
            Loop::Awaited(kind) => kind.name(),
        }
    }

    /// Returns the loop named `name`, or `None` if there is none.
    pub fn named(name: &str) -> Option<Loop>
        ensures { (kind : Loop) → (result ≡ Some kind) ↔ (name_of kind ≡ name.now) }
    {
        first_named(name)
    }
}

/// Returns the first loop named `name`.
fn first_named(name: &str) -> Option<Loop>
    ensures { result ≡ find (λ kind. bytes_eq (name_of kind) name.now) LOOPS }
{
    LOOPS.iter().copied().find(|kind| kind.name() == name)
}

impl Awaited {
    /// The loop's name.
    fn name(self) -> &'static str
        ensures { result.now ≡ awaited_name self }
    {
        match self {
            Awaited::MakeSendBlockOn => "make_send_block_on",
            Awaited::MakeSendAwait => "make_send_await",
            Awaited::PollPending => "poll_pending",
            Awaited::RoundTripAwait => "round_trip_await",
        }
    }
}

impl fmt::Display for Loop {
    ghost output = { λ kind. Some (name_of kind) };

    fn fmt<W: fmt::Write>(&self, f: &mut fmt::Formatter<W>) -> fmt::Result {
        f.pad(self.name())
    }
}
