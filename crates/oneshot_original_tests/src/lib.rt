//! The tests of the Rust crate `oneshot` 0.2.1 under their own names, in a module for each of its files.
//!
//! Left out: `receiver_waker_size` of `src/waker.rs`, `channel_endpoints_single_pointer` and `error_sizes` of
//! `tests/assert_mem.rs`, which measure types in bytes. A receiver here also keeps a parker and a runtime,
//! and an error its message.
#![tactic(auto)]

#[cfg(test)]
mod asynchronous;
#[cfg(test)]
mod counted;
#[cfg(test)]
mod documentation;
#[cfg(test)]
mod ends;
#[cfg(test)]
mod examples;
#[cfg(test)]
mod future;
#[cfg(test)]
mod loom;
#[cfg(test)]
mod miri;
#[cfg(test)]
mod raw;
#[cfg(test)]
mod sync;
#[cfg(test)]
mod threads;
#[cfg(test)]
mod times;
