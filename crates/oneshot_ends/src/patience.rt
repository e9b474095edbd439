//! How long a receive waits, and how often it spins before it sleeps.

ghost use Rattle.std.specs.Prelude.{◌≡◌, ◌↔◌, true, false, IsTrue};
ghost use Rattle.oneshot_ends.specs.declared.deadline.NextReading.TheVariants.{Due, Taken};
ghost use Rattle.oneshot_ends.specs.Deadlines.{IsAfter, IsFar, has_end};
ghost use Rattle.oneshot_ends.specs.Patience.{MaySpin, Reads, waits_until, instant_of, unread, spun};

use crate::deadline::{Deadline, NextReading, Reading};
use crate::spin::{SPINS, spin};
use std::time::{Clock, Duration};

/// The patience of one receive.
#[derive(Drop)]
pub(crate) struct Patience {
    deadline: Deadline,
    next: NextReading,
    /// The reading of the clock that no park has used.
    reading: Option<Reading>,
    /// How often it spun. It is set to `SPINS` if that is more, once its deadline is over.
    spins: u32,
    /// Whether its deadline was over by its last reading.
    late: bool,
}

impl Patience {
    /// That of a receive which waits until `deadline`.
    pub(crate) fn until(deadline: Deadline) -> Patience
        ensures { result ≡ waits_until deadline Due }
    {
        Patience::of(deadline, NextReading::Due)
    }

    /// That of a receive which waits until `timeout` after `reading`. The first check, whose answer the driver ignores,
    /// uses `reading` too; each later one reads the clock.
    pub(crate) fn after(reading: Reading, timeout: Duration) -> Patience
        ensures deadline { IsAfter timeout reading.instant result.deadline }
        ensures new { result ≡ waits_until result.deadline (Taken reading) }
    {
        Patience::of(
            Deadline::after(reading, timeout),
            NextReading::Taken(reading),
        )
    }

    fn of(deadline: Deadline, next: NextReading) -> Patience
        ensures { result ≡ waits_until deadline next }
    {
        Patience {
            deadline,
            next,
            reading: None,
            spins: 0,
            late: false,
        }
    }

    pub(crate) fn deadline(&self) -> Deadline
        ensures { result ≡ self.now.deadline }
    {
        self.deadline
    }

    /// Whether the receive can run out.
    pub(crate) fn has_end(&self) -> bool
        ensures { result ≡ has_end self.now.deadline }
    {
        self.deadline.has_end()
    }

    /// Takes the next reading of the clock, and returns whether the deadline is over by it. The first reading for a
    /// timeout is that from which the deadline was computed. Once the deadline is over, the receive may spin again:
    /// from then on it waits only for a sender that is about to finish.
    pub(crate) fn is_over(&mut self, clock: &impl Clock) -> bool
        ensures { Reads result self.old self.new }
    {
        let reading = self.next.take(clock);
        self.reading = Some(reading);
        self.late = self.deadline.is_over(reading);
        if self.late && self.spins < SPINS {
            self.spins = SPINS;
        }
        self.late
    }

    /// Spins once, if the receive may spin. `false`: it may not. Either way the last reading is used up.
    // Inlined, so that a receive which finds its message stores nothing of its patience.
    #[inline(always)]
    pub(crate) fn try_spin(&mut self, timed: bool) -> bool
        ensures spins { result ≡ true → MaySpin timed self.old }
        ensures spun { result ≡ true → self.new ≡ spun self.old }
        ensures sleeps { result ≡ false → ¬ MaySpin timed self.old }
        ensures rests { result ≡ false → self.new ≡ unread self.old }
    {
        let may = self.may_spin(timed);
        self.reading = None;
        if may {
            self.spins += 1;
            spin(self.spins);
        }
        may
    }

    fn may_spin(&self, timed: bool) -> bool
        ensures { IsTrue result ↔ MaySpin timed self.now }
    {
        let most = if self.late { 2 * SPINS } else { SPINS };
        self.spins < most && (!timed || self.is_far())
    }

    /// Whether the deadline is far by the reading. `false` without a reading.
    fn is_far(&self) -> bool
        ensures { IsTrue result ↔ IsFar self.now.deadline (instant_of self.now.reading) }
    {
        match self.reading {
            Some(reading) => self.deadline.is_far(reading),
            None => false,
        }
    }
}
