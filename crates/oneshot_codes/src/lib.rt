//! What a program under the scheduler reports by the length of a sleep in nanoseconds. The C compiler gets the codes
//! below 100, which the scheduler reads. The others are for the program that compares the runs with the model: replies,
//! and from `TASKS` on whether a task was woken.
#![tactic(auto)]

/// From here on each allocation gets pages of its own.
pub const RECORD: u64 = 1;

/// From here on an allocation gets no pages of its own.
pub const RELEASE: u64 = 2;

/// Both ends and their scripts are made; the threads are next.
pub const READY: u64 = 3;

/// The sender's thread begins its script.
pub const BEGIN_SENDER: u64 = 4;

/// The receiver's thread begins its script.
pub const BEGIN_RECEIVER: u64 = 5;

/// The sender's thread has made its last call.
pub const END_SENDER: u64 = 6;

/// The receiver's thread has made its last call.
pub const END_RECEIVER: u64 = 7;

/// The channel is made next.
pub const OPENING: u64 = 8;

/// The channel is made.
pub const OPENED: u64 = 9;

/// Both threads have ended, and what their scripts left is dropped.
pub const DONE: u64 = 10;

/// The message of another channel is made next.
pub const MESSAGE: u64 = 11;

/// The thread goes on with its end of the first channel.
pub const AT_FIRST: u64 = 12;

/// The thread goes on with its end of the second channel.
pub const AT_SECOND: u64 = 13;

/// A `recv_timeout` is next, which reads the clock itself to compute its deadline.
pub const TIMEOUT: u64 = 20;

/// The program next reads the clock for the deadline of its next call, a `recv_deadline`.
pub const DEADLINE: u64 = 21;

/// A `send` returned `Ok`.
pub const SENT: u64 = 100;

/// A `send` returned its message in an error.
pub const REFUSED: u64 = 101;

/// A look returned `true`.
pub const YES: u64 = 102;

/// A look returned `false`.
pub const NO: u64 = 103;

/// An end, a future or an error was dropped.
pub const DROPPED: u64 = 104;

/// A `try_recv` found no message yet.
pub const EMPTY: u64 = 105;

/// A receive returned its disconnected error.
pub const DISCONNECTED: u64 = 106;

/// The deadline of a receive is over.
pub const TIMED_OUT: u64 = 107;

/// A poll returned `Pending`.
pub const PENDING: u64 = 109;

/// The receiver became a future.
pub const FUTURE: u64 = 111;

/// Added to the message that a call returned.
pub const GOT: u64 = 1000;

/// The first of the codes of tasks: of each two codes, the second if the task was woken.
pub const TASKS: u64 = 4000;
