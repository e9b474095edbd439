//! The sender's script.

use crate::parcel::Parcel;
use crate::told::{BEGIN_SENDER, END_SENDER, tell, tell_reply};
use oneshot_calls::{SenderCall, Sending, Sends};
use std::time::Clock;

/// Makes the calls of the sender's script in a thread of its own. Returns what is left, to be dropped when no end
/// runs any more.
pub fn send_all<R: Clock, S: Sends<Parcel>>(
    rt: &R,
    calls: Vec<SenderCall>,
    sender: S,
    parcel: Parcel,
) -> Sending<Parcel, S> {
    tell(rt, BEGIN_SENDER);
    let sending = send_each(rt, &calls, sender, parcel);
    tell(rt, END_SENDER);
    sending
}

/// Makes the calls of the sender's script, and reports what each returned. Returns what is left.
pub fn send_each<R: Clock, S: Sends<Parcel>>(
    rt: &R,
    calls: &Vec<SenderCall>,
    sender: S,
    parcel: Parcel,
) -> Sending<Parcel, S> {
    let mut sending = Sending::new(sender, Some(parcel));
    for call in calls.iter() {
        tell_reply(rt, sending.make(*call));
    }
    sending
}
