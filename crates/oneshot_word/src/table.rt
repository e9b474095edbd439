//! The table that both ends share.

use crate::rule::{Slot, View, WordRule};
use atomic_table::{Seat, Table};
use std::alloc::Global;

/// One word, the message's slot and the waker's, in this order.
pub(crate) type WordTable<T, H, K, P> = Table<Slot<T, H, K>, View<T, H, K, P>, P, WordRule, Global>;

/// A seat at this table.
pub(crate) type WordSeat<T, H, K, P> = Seat<Slot<T, H, K>, View<T, H, K, P>>;
