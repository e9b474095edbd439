//! The channels that the loops run over, and their names.

ghost use Rattle.std.specs.Prelude.{◌≡◌, ◌↔◌, Some};
ghost use Rattle.std.specs.List.{find};
ghost use Rattle.std.specs.Str.{bytes_eq};
ghost use Rattle.oneshot_loops.specs.Channel.{channel_name};

use std::fmt;

/// The channel that a loop runs over.
#[derive(Clone, Copy, Debug, PartialEq, Eq)]
pub enum Channel {
    /// This repository's channel.
    Oneshot,
    /// Rattle's `futures::channel::oneshot`.
    Futures,
    /// Rattle's `crossbeam_channel`: a `bounded` channel with room for one message.
    Crossbeam,
}

/// Every channel.
const CHANNELS: [Channel; 3] = [Channel::Oneshot, Channel::Futures, Channel::Crossbeam];

impl Channel {
    /// The channel's name.
    pub fn name(self) -> &'static str
        ensures { result.now ≡ channel_name self }
    {
        match self {
            Channel::Oneshot => "oneshot",
            Channel::Futures => "futures",
            Channel::Crossbeam => "crossbeam",
        }
    }

    /// Returns the channel named `name`, or `None` if there is none.
    pub fn named(name: &str) -> Option<Channel>
        ensures { (channel : Channel) → (result ≡ Some channel) ↔ (channel_name channel ≡ name.now) }
    {
        first_named(name)
    }
}

/// Returns the first channel named `name`.
fn first_named(name: &str) -> Option<Channel>
    ensures { result ≡ find (λ channel. bytes_eq (channel_name channel) name.now) CHANNELS }
{
    CHANNELS
        .iter()
        .copied()
        .find(|channel| channel.name() == name)
}

impl fmt::Display for Channel {
    ghost output = { λ channel. Some (channel_name channel) };

    fn fmt<W: fmt::Write>(&self, f: &mut fmt::Formatter<W>) -> fmt::Result {
        f.pad(self.name())
    }
}
