//! The messages that a round may send.

use std::mem::size_of;

/// A message whose bytes a tally counts.
pub trait Message {
    /// Its size in bytes.
    const BYTES: usize;
}

impl Message for u64 {
    const BYTES: usize = size_of::<u64>();
}

impl Message for [u8; 4096] {
    const BYTES: usize = size_of::<[u8; 4096]>();
}
