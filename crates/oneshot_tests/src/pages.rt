//! How much memory the process has.

use oneshot_asserts::Asserts;
use std::fs;
use std::rt::Files;

/// The kernel's file about a process's own memory. Its first number is the pages reserved, its second those in use.
const OWN_MEMORY: &str = concat!("/", "proc/self/statm");

/// The number at `place` of the kernel's file, counted from 0. Fails if the file cannot be read or has no number there.
fn pages_at(rt: &(impl Files + AllocGlobal + Asserts), place: usize) -> u64 {
    let statm = fs::read_to_string(rt, OWN_MEMORY).expect(rt, "the kernel's file");
    let number = statm.split_whitespace().nth(place);
    let pages = number.expect(rt, "a number").parse::<u64>();
    pages.expect(rt, "a number of pages")
}

/// How many pages of memory the process has reserved. Fails if the kernel's file about it cannot be read.
pub(crate) fn reserved_pages(rt: &(impl Files + AllocGlobal + Asserts)) -> u64 {
    pages_at(rt, 0)
}

/// How many pages of memory the process has in use. Fails as `reserved_pages` does.
pub(crate) fn resident_pages(rt: &(impl Files + AllocGlobal + Asserts)) -> u64 {
    pages_at(rt, 1)
}

/// How many more pages than `before` the process has in use: 0 if it has fewer. Fails as `resident_pages` does.
pub(crate) fn grown_pages(rt: &(impl Files + AllocGlobal + Asserts), before: u64) -> u64 {
    resident_pages(rt).saturating_sub(before)
}
