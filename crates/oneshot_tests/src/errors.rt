//! The errors of the receives: their texts.

mod debug;
mod display;
