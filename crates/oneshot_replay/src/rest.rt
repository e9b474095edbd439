//! The message and its place when a run is over.

ghost use Rattle.std.specs.Prelude.{◌≡◌};
ghost use Rattle.oneshot_replay.specs.Rest.{rest_at};

use oneshot_world::Place;

/// The message, with its last place.
#[derive(Debug, Drop)]
pub enum Rest<T> {
    /// In the script: no `send` has put it into the channel's cell.
    NotSent(T),
    /// In the channel's cell.
    InCell(T),
    /// In the error of its refused `send`.
    InError(T),
    /// Taken by a receive.
    Delivered(T),
    /// Taken out of its error by `into_inner`.
    FromError(T),
    /// Dropped by an end in the model; a replay itself drops no message.
    Dropped(T),
}

/// Returns the message with its place, if there are both.
pub(crate) fn rest_at<T: Drop>(place: Option<Place>, message: Option<T>) -> Option<Rest<T>>
    ensures { result ≡ rest_at place message }
{
    let message = message?;
    Some(match place? {
        Place::NotSent => Rest::NotSent(message),
        Place::InCell => Rest::InCell(message),
        Place::InError => Rest::InError(message),
        Place::Delivered => Rest::Delivered(message),
        Place::FromError => Rest::FromError(message),
        Place::Dropped => Rest::Dropped(message),
    })
}
