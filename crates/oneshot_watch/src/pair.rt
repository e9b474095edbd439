//! The function that makes a guard and its watch.

ghost use Rattle.std.specs.Prelude.{◌≡◌, [], IfOk};
ghost use Rattle.oneshot_channel.specs.Ends.{IsOpen};

use crate::guard::Guard;
use crate::watching::Watch;
use oneshot_channel::channel;
use std::alloc::{AllocError, Global};

/// Makes a guard and its watch.
///
/// `rt` is the runtime of the watch's waits, which need `Rt: Wait + Clock`. The watch keeps it. Pass `()` for a
/// watch that never blocks. `alloc` allocates the memory of their channel; no later call allocates.
///
/// `Err`: out of memory. Nothing stays allocated, and `rt` is dropped.
pub fn watch<Rt: Drop>(rt: Rt, alloc: Global) -> Result<(Guard, Watch<Rt>), AllocError>
    ensures one_channel { IfOk result (λ made. made.0.channel ≡ made.1.channel) }
    ensures new_guard { IfOk result (λ made. made.0.log ≡ []) }
    ensures new_watch { IfOk result (λ made. made.1.log ≡ []) }
    ensures open { IfOk result (λ made. IsOpen made.1.log) }
{
    let (sender, receiver) = channel(rt, alloc)?;
    Ok((Guard::new(sender), Watch::new(receiver)))
}
