//! The calls left in a script.

pub(crate) mod future;
pub(crate) mod receiver;
pub(crate) mod sender;
