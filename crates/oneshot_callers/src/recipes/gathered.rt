//! Fan-in: a count from each of several workers, under a promise.

ghost use Rattle.std.specs.Prelude.{◌≡◌, ◌≤◌, IfSome};
ghost use Rattle.std.specs.List.{sum};

use oneshot_asserts::assert_same;
use oneshot_channel::{Promise, Receiver, Sender, channel_for};
use std::alloc::Global;
use std::sync::Wait;
use std::thread;
use std::time::Clock;

/// Promises at most this many.
#[derive(Drop)]
struct AtMost(u64);

impl Promise<u64> for AtMost {
    ghost keeps = { λ most count. count ≤ most.0 };
}

/// The size of a part, and the sender of a count in it.
#[derive(Drop)]
struct Part {
    size: u64,
    count: Sender<u64, AtMost>,
    ghost own: { count.channel.about.0 ≡ size },
}

/// Waits for the count of one part: at most its size, which the channel is about.
fn count_of<Rt: Wait + Clock + Drop>(counted: Receiver<u64, Rt, AtMost>) -> Option<u64>
    ensures { IfSome result (λ count. count ≤ counted.channel.about.0) }
{
    counted.recv().ok()
}

/// Starts a worker for each size, and adds up their counts. `None`: out of memory, or a worker dropped its sender.
fn total<Rt: Wait + Clock + Copy + Drop, F: FnMut(Part)>(
    rt: Rt,
    alloc: Global,
    sizes: &[u64],
    mut start: F,
) -> Option<u64>
    requires { (start : _) (part : _) → F.pre start part }
    ensures { IfSome result (λ total. total ≤ sum sizes.now) }
{
    let mut counts = Vec::new(alloc);
    for size in sizes {
        let (count, counted) = channel_for(rt, alloc, &AtMost(*size)).ok()?;
        start(Part { size: *size, count });
        counts.push(counted).ok()?;
    }
    let mut total = 0u64;
    for counted in counts {
        total = total.saturating_add(count_of(counted)?);
    }
    Some(total)
}

/// Counts all of a part if it is large, and drops the sender if it is not.
fn count_large(part: Part) {
    let Part { size, count } = part;
    if size >= 10 {
        // If the receiver is gone, nobody needs the count.
        let _ = count.send_kept(size);
    }
}

#[test]
fn all_counts_add_up(rt: HostRuntime) {
    for (sizes, wanted) in [([50, 30, 20], Some(100)), ([50, 3, 20], None)] {
        let counted = thread::scope(thread::scope_env(), &rt, |scope| {
            total(&rt, rt.alloc(), &sizes, |part| {
                // A part whose thread cannot be started is dropped, and so is its sender.
                let _ = scope.spawn(move || count_large(part));
            })
        });
        assert_same!(rt; counted, wanted);
    }
}
