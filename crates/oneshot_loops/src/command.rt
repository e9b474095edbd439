//! Reads the arguments of `oneshot_bench` as a command.

ghost use Rattle.std.specs.Prelude.{◌≡◌, ◌<◌, ◌^◌, ◌↔◌, SomeIff, Some, [], ◌∷◌, string_bytes, map};
ghost use Rattle.std.specs.Str.Parse.{IsNumeral, digits_value, without_leading_plus};
ghost use Rattle.oneshot_loops.specs.Command.{Asks, AsksOver};

pub mod fault;

use crate::channels::Channel;
use crate::loops::Loop;

/// The program's usage.
pub const USAGE: &str =
    "usage: oneshot_bench [CHANNEL] LOOP COUNT, where CHANNEL is one of oneshot, futures, crossbeam, and LOOP is one \
     of make_send_receive_drop, make_drop, make_send_recv, make_poll_send_poll, make_send_receive_drop_4096, \
     round_trip, make_send_block_on, make_send_await, poll_pending, round_trip_await";

/// What the program is to do.
#[derive(Clone, Copy, Debug, PartialEq, Eq)]
pub enum Command {
    /// Print the usage.
    Usage,
    /// Measure rounds of a loop.
    Measure {
        /// The channel that the loop runs over.
        channel: Channel,
        /// The loop.
        kind: Loop,
        /// How many rounds.
        count: u64,
    },
}

/// Returns what `words` ask for: no word, or a loop's name and a count, with or without a channel's name
/// before them. `None`: other words.
pub fn parse_command(words: &[String]) -> Option<Command>
    ensures { (command : Command) → (result ≡ Some command) ↔ Asks (map string_bytes words.now) command }
{
    match words {
        [] => Some(Command::Usage),
        [name, count] => parse_measure(Channel::Oneshot, name.as_str(), count.as_str()),
        [channel, name, count] => {
            parse_measure(
                Channel::named(channel.as_str())?,
                name.as_str(),
                count.as_str(),
            )
        }
        _ => None,
    }
}

fn parse_measure(channel: Channel, name: &str, count: &str) -> Option<Command>
    ensures { (command : Command) → (result ≡ Some command) ↔ AsksOver channel (name.now ∷ count.now ∷ []) command }
{
    let kind = Loop::named(name)?;
    let count = parse_count(count)?;
    Some(Command::Measure {
        channel,
        kind,
        count,
    })
}

/// Returns the decimal number `word`, which may begin with a plus. `None`: no number, or 2^64 or more.
pub fn parse_count(word: &str) -> Option<u64>
    ensures { SomeIff result
        (IsNumeral 10 (without_leading_plus word.now) × (digits_value 10 (without_leading_plus word.now) < 2 ^ 64))
        (digits_value 10 (without_leading_plus word.now)) }
{
    word.parse().ok()
}
