//! The assertions of tests. Values are compared and printed in this crate, so that the prover reads only a call where a
//! test compares: it would read the code of `assert_eq!` again at each use.
#![tactic(auto)]

use std::fmt::Debug;
use std::process::Abort;

/// A handle by which a test prints what is wrong, and ends.
pub trait Asserts: Abort + Eprint {}

impl<R: Abort + Eprint> Asserts for R {}

/// Whether both values are equal. Prints them if they are not.
pub fn is_same<T: PartialEq + Debug>(rt: &impl Eprint, found: &T, wanted: &T) -> bool {
    let is_same = found == wanted;
    if !is_same {
        // A test that cannot print its values still fails.
        let _ = eprintln!(rt; " left: {found:?}\nright: {wanted:?}");
    }
    is_same
}

/// Prints a value.
pub fn tell<T: Debug>(rt: &impl Eprint, value: &T) {
    // A test that cannot print its case still fails.
    let _ = eprintln!(rt; "{value:?}");
}

/// Prints both values and ends the test, unless they are equal. The failure names the line of this assertion.
#[macro_export]
macro_rules! assert_same {
    ($rt:expr; $found:expr, $wanted:expr $(,)?) => {
        if !$crate::is_same(&$rt, &$found, &$wanted) {
            std::process::Abort::abort(&$rt)
        }
    };
}

/// Prints what the assertion is about and ends the test, unless `$holds` is true. The failure names its line.
#[macro_export]
macro_rules! assert_that {
    ($rt:expr; $holds:expr, $about:expr $(,)?) => {
        if !$holds {
            $crate::tell(&$rt, &$about);
            std::process::Abort::abort(&$rt)
        }
    };
}
