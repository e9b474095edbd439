//! The recipes of docs/CALLING.md, each with its tests.

mod first;
mod gathered;
mod priced;
mod shutdown;
