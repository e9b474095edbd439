//! The trace of a replay.

ghost use Rattle.std.specs.Prelude.{◌≡◌};

use crate::replayer::Replayer;
use crate::rest::Rest;
use oneshot_world::Entry;
use std::marker::Model;

/// What both ends did under a schedule.
#[derive(Drop)]
pub struct Trace<T> {
    pub(crate) entries: Vec<Entry>,
    pub(crate) end: Replayer<T>,
}

impl<T> Model for Trace<T> {
    ghost use Rattle.oneshot_replay.specs.Rest.{rest_at};
    ghost use Rattle.oneshot_replay.specs.TraceView.{TraceView};

    ghost Value = { TraceView T };

    ghost view = { λ t. record {
      entries = t.entries.items;
      block_freed = t.end.world.state.freed;
      rest = rest_at t.end.world.state.message t.end.message;
    } };
}

impl<T: Drop> Trace<T> {
    /// Returns the entries: what each move did, in the order of the moves.
    pub fn entries(&self) -> &[Entry]
        ensures { result.now ≡ self.now.entries }
    {
        self.entries.as_slice()
    }

    /// Returns whether the block is freed after the last move.
    pub fn block_freed(&self) -> bool
        ensures { result ≡ self.now.block_freed }
    {
        self.end.block_freed()
    }

    /// Returns the message with its last place, or `None` if the script sends nothing.
    pub fn into_rest(self) -> Option<Rest<T>>
        ensures { result ≡ self.rest }
    {
        let Trace { end, .. } = self;
        end.into_rest()
    }
}
