//! The words of the last two lines: the message's last place, and whether the block is freed.

ghost use Rattle.std.specs.Prelude.{◌≡◌, Some};
ghost use Rattle.oneshot_text.specs.Names.{name_of_place};
ghost use Rattle.oneshot_text.specs.RestText.{rest_text, at_place, block_text};

use crate::show::names::message_place;
use oneshot_replay::{Place, Rest};
use std::fmt;

/// The message's last place, with the message; `None` without a message.
#[derive(Drop)]
pub(crate) struct RestText(pub(crate) Option<Rest<u64>>);

impl fmt::Display for RestText {
    ghost use Rattle.std.specs.Prelude.{Some};
    ghost use Rattle.oneshot_text.specs.RestText.{rest_text};

    ghost output = { λ r. Some (rest_text r.0) };

    fn fmt<W: fmt::Write>(&self, f: &mut fmt::Formatter<W>) -> fmt::Result {
        let Some(rest) = &self.0 else {
            return write!(f, "none");
        };
        let (place, message) = place_of(rest);
        write!(f, "{}({message})", message_place(place))
    }
}

/// The place, and the message there.
fn place_of(rest: &Rest<u64>) -> (Place, u64)
    ensures { rest_text (Some rest.now) ≡ at_place (name_of_place result.0) result.1 }
{
    match rest {
        Rest::NotSent(message) => (Place::NotSent, *message),
        Rest::InCell(message) => (Place::InCell, *message),
        Rest::InError(message) => (Place::InError, *message),
        Rest::Delivered(message) => (Place::Delivered, *message),
        Rest::FromError(message) => (Place::FromError, *message),
        Rest::Dropped(message) => (Place::Dropped, *message),
    }
}

/// Whether the block is freed, in one word.
pub(crate) fn block_word(freed: bool) -> &'static str
    ensures { result.now ≡ block_text freed }
{
    if freed { "freed" } else { "here" }
}
