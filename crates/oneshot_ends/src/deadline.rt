//! When a receive stops waiting, by what its clock reads.

ghost use Rattle.std.specs.Prelude.{◌≡◌, ◌↔◌, true, IsTrue, IfSome};
ghost use Rattle.std.specs.Time.{instant_nanos, FitsClock};
ghost use Rattle.oneshot_ends.specs.Deadlines.{IsAfter, IsFar, IsOver, has_end};

use std::time::{Clock, Duration, Instant};

/// How many nanoseconds must be left before its deadline for a receive to spin: more than all its spins take.
/// Its pauses take microseconds, but in its yield the scheduler may run other threads for a few milliseconds
/// each, which must not make the receive late.
const FAR: u128 = 100_000_000;

/// A reading of the clock. Only `read` makes one.
#[derive(Clone, Copy)]
pub(crate) struct Reading {
    /// `None`: the clock failed.
    instant: Option<Instant>,
}

/// Reads the clock.
pub(crate) fn read(clock: &impl Clock) -> Reading
    ensures { IfSome result.instant (λ now. FitsClock (instant_nanos now)) }
{
    Reading {
        instant: Instant::now(clock).ok(),
    }
}

/// Where a call's next reading of the clock comes from.
#[derive(Clone, Copy)]
pub(crate) enum NextReading {
    /// The call has taken it, to compute its deadline.
    Taken(Reading),
    /// The clock.
    Due,
}

impl NextReading {
    ghost use Rattle.oneshot_ends.specs.declared.deadline.NextReading.TheVariants.{Due, Taken};

    /// Returns the reading. The one after it is due.
    pub(crate) fn take(&mut self, clock: &impl Clock) -> Reading
        ensures taken { (reading : Reading) → self.old ≡ Taken reading → result ≡ reading }
        ensures due { self.new ≡ Due }
    {
        let reading = match *self {
            NextReading::Taken(reading) => reading,
            NextReading::Due => read(clock),
        };
        *self = NextReading::Due;
        reading
    }
}

/// When a receive stops waiting.
#[derive(Clone, Copy)]
pub(crate) enum Deadline {
    /// Once the clock is past this instant.
    At(Instant),
    /// At once: the reading for the instant failed.
    Passed,
    /// Never.
    Never,
}

impl Deadline {
    /// The instant that is `timeout` after `reading`.
    ///
    /// `Passed` if the reading failed, and `Never` if no instant can hold the sum.
    pub(crate) fn after(reading: Reading, timeout: Duration) -> Deadline
        ensures { IsAfter timeout reading.instant result }
    {
        let Some(now) = reading.instant else {
            return Deadline::Passed;
        };
        match now.checked_add(timeout) {
            Some(end) => Deadline::At(end),
            None => Deadline::Never,
        }
    }

    /// Whether the deadline is over by this reading of the clock. A reading of the instant itself is not past
    /// it, and a failed reading counts as past every instant.
    pub(crate) fn is_over(self, reading: Reading) -> bool
        ensures { IsTrue result ↔ IsOver self reading.instant }
    {
        match self {
            Deadline::At(end) => match reading.instant {
                Some(now) => end.checked_duration_since(now).is_none(),
                None => true,
            },
            Deadline::Passed => true,
            Deadline::Never => false,
        }
    }

    /// Whether `FAR` or more is left by this reading of the clock. `false` without an instant, or if the reading
    /// failed.
    pub(crate) fn is_far(self, reading: Reading) -> bool
        ensures { IsTrue result ↔ IsFar self reading.instant }
    {
        match (self, reading.instant) {
            (Deadline::At(end), Some(now)) => match end.checked_duration_since(now) {
                Some(left) => left.as_nanos() >= FAR,
                None => false,
            },
            _ => false,
        }
    }

    /// Whether a receive with this deadline can run out.
    pub(crate) fn has_end(self) -> bool
        ensures { result ≡ has_end self }
    {
        match self {
            Deadline::At(_) => true,
            Deadline::Passed => true,
            Deadline::Never => false,
        }
    }
}
