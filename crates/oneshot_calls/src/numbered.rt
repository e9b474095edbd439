//! Messages that a reply's text shows as a number.

use oneshot_channel::reply::Length;
use std::sync::Arc;

/// A message that a reply's text shows as a number.
pub trait Numbered {
    /// The number.
    fn number(&self) -> u64;
}

impl Numbered for u64 {
    fn number(&self) -> u64 {
        *self
    }
}

impl Numbered for i32 {
    fn number(&self) -> u64 {
        u64::try_from(*self).unwrap_or(u64::MAX)
    }
}

impl Numbered for u128 {
    fn number(&self) -> u64 {
        u64::try_from(*self).unwrap_or(u64::MAX)
    }
}

/// The length in bytes.
impl Numbered for Length {
    fn number(&self) -> u64 {
        u64::try_from(self.bytes()).unwrap_or(u64::MAX)
    }
}

impl<T: Numbered> Numbered for Arc<T> {
    fn number(&self) -> u64 {
        T::number(self)
    }
}
