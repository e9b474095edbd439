//! Counts what rounds do.

/// Counts of channels, polls and messages, to which each function adds what it did. They wrap at 2^64.
#[derive(Clone, Copy, Debug, PartialEq, Eq)]
pub struct Tally {
    /// How many channels were made.
    pub channels: u64,
    /// The room for their messages, in bytes, in all.
    pub room: u64,
    /// How many messages were received by `try_recv`.
    pub tried: u64,
    /// How many were received by `recv`.
    pub waited: u64,
    /// How many polls found no message yet.
    pub pended: u64,
    /// How many messages were received by a poll.
    pub polled: u64,
}

impl Tally {
    /// Returns a tally of zeros.
    pub fn new() -> Tally {
        Tally {
            channels: 0,
            room: 0,
            tried: 0,
            waited: 0,
            pended: 0,
            polled: 0,
        }
    }

    /// Counts a channel made for a message of `bytes` bytes.
    pub fn made(&mut self, bytes: usize) {
        self.channels = self.channels.wrapping_add(1);
        self.room = self.room.wrapping_add(bytes as u64);
    }

    /// Counts a message received by `try_recv`.
    pub fn tried(&mut self) {
        self.tried = self.tried.wrapping_add(1);
    }

    /// Counts a message received by `recv`.
    pub fn waited(&mut self) {
        self.waited = self.waited.wrapping_add(1);
    }

    /// Counts a poll that found no message yet.
    pub fn pended(&mut self) {
        self.pended = self.pended.wrapping_add(1);
    }

    /// Counts a message received by a poll.
    pub fn polled(&mut self) {
        self.polled = self.polled.wrapping_add(1);
    }

    /// Adds `other`, what another thread or a task counted.
    pub fn add(&mut self, other: Tally) {
        self.channels = self.channels.wrapping_add(other.channels);
        self.room = self.room.wrapping_add(other.room);
        self.tried = self.tried.wrapping_add(other.tried);
        self.waited = self.waited.wrapping_add(other.waited);
        self.pended = self.pended.wrapping_add(other.pended);
        self.polled = self.polled.wrapping_add(other.polled);
    }
}
