//! The text of a run: parses the three lines that ask for it, and writes its trace.
//!
//! The laws of a trace are about two scripts and a schedule. A parser that read others from the text would make a right
//! trace of another run, and no law would show it. So the parser is proved too: it returns what the text asks for, and
//! names the first fault of any other text. The writer is proved to write the line of each entry. By both
//! `oneshot_streams` states what `oneshot-run` prints for an input.
#![tactic(auto)]

mod fault;
mod future;
mod line;
mod lines;
mod number;
mod receiver;
mod request;
mod schedule;
mod sender;
mod show;
mod words;

pub use fault::{Malformed, ParseError};
pub use line::Line;
pub use request::{Request, parse_request};
pub use show::{CalledLine, EntryLine, ReplyText, write_run};
