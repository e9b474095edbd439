//! Reads the runs of pairs of scripts, holds each against the model, and prints what it counted.

use crate::beside::{Beside, Difference};
use crate::differs::Differs;
use crate::met::{Missed, find_missed};
use crate::scripts::Scripts;
use oneshot_replay::{Move, Replayer};
use oneshot_text::{Request, write_run};
use std::alloc::{AllocError, Global};
use std::collections::BTreeSet;
use std::io;
use std::io::{BufRead, Write};

/// What is printed of a run.
#[derive(Clone, Copy)]
pub enum Shown {
    /// Nothing, if it does not differ, or if one before differs for the same reason.
    Differences,
    /// Its trace, as `oneshot-run` prints it.
    Traces,
}

/// A pair of scripts, and what was counted of its runs.
#[derive(Drop)]
struct Pair {
    scripts: Scripts,
    runs: usize,
    operations: usize,
    stuck: usize,
    differ: usize,
    /// Why those differ that were printed.
    reasons: BTreeSet<String>,
    met: BTreeSet<u64>,
}

impl Pair {
    fn new(alloc: Global) -> Pair {
        Pair {
            scripts: Scripts::new(alloc),
            runs: 0,
            operations: 0,
            stuck: 0,
            differ: 0,
            reasons: BTreeSet::new(alloc),
            met: BTreeSet::new(alloc),
        }
    }
}

/// Reads a pair of scripts in two lines, as in an input of `oneshot-run`, and then a line a run: `X`, its choices, and
/// its words. Before the scripts may stand a line `two`, `sent-sender` or `sent-receiver`, if each thread has an end of
/// two channels, and a line `refused`, if copies of wakers may be refused. Another pair may follow the runs of one.
/// Returns whether no run differs. Each differs from scripts that cannot be read.
pub fn audit<R: BufRead, W: Write>(
    alloc: Global,
    input: &mut R,
    output: &mut W,
    shown: Shown,
) -> io::Result<bool> {
    let mut audited = Audited {
        pair: Pair::new(alloc),
        is_right: true,
    };
    audited.read(alloc, input, output, shown)?;
    audited.end_pair(alloc, output, shown)?;
    output.flush()?;
    Ok(audited.is_right)
}

/// The pair that is read, and whether no run of any pair before it differs.
#[derive(Drop)]
struct Audited {
    pair: Pair,
    is_right: bool,
}

impl Audited {
    /// Takes up each line of the input.
    fn read<R: BufRead, W: Write>(
        &mut self,
        alloc: Global,
        input: &mut R,
        output: &mut W,
        shown: Shown,
    ) -> io::Result<()> {
        let mut line = String::new(alloc);
        for _ in 0..u64::MAX {
            line.clear();
            if input.read_line(&mut line)? == 0 {
                break;
            }
            self.take_up(alloc, line.trim_end(), output, shown)?;
        }
        Ok(())
    }

    /// Takes up a line of the input: a run, or a line of scripts, which after a run begins another pair.
    fn take_up<W: Write>(
        &mut self,
        alloc: Global,
        line: &str,
        output: &mut W,
        shown: Shown,
    ) -> io::Result<()> {
        if let Some(run) = run_of(line) {
            return self.pair.hold(alloc, run, output, shown);
        }
        if self.pair.runs > 0 {
            self.end_pair(alloc, output, shown)?;
            self.pair = Pair::new(alloc);
        }
        Ok(self.pair.scripts.add(line)?)
    }

    fn end_pair<W: Write>(
        &mut self,
        alloc: Global,
        output: &mut W,
        shown: Shown,
    ) -> io::Result<()> {
        if let Shown::Differences = shown {
            self.pair.write_counts(output)?;
            self.pair.write_orders(alloc, output)?;
        }
        self.is_right = self.is_right && self.pair.differ == 0;
        Ok(())
    }
}

/// A run: the choices of its schedule, and its words.
#[derive(Clone, Copy)]
struct Run<'a> {
    choices: &'a str,
    words: &'a str,
}

/// Reads a run; `None` if the line has none.
fn run_of(line: &str) -> Option<Run<'_>> {
    let Some(("X", run)) = line.split_once(' ') else {
        return None;
    };
    let (choices, words) = run.split_once(' ').unwrap_or((run, ""));
    Some(Run { choices, words })
}

impl Pair {
    /// Holds a run against the model.
    fn hold<W: Write>(
        &mut self,
        alloc: Global,
        run: Run<'_>,
        output: &mut W,
        shown: Shown,
    ) -> io::Result<()> {
        self.runs = self.runs.saturating_add(1);
        match Beside::begin(alloc, &self.scripts) {
            Ok(mut beside) => self.follow(alloc, run, &mut beside, output, shown),
            Err(why) => self.refuse(alloc, &why, output),
        }
    }

    /// Counts a run whose scripts cannot be read.
    fn refuse<W: Write>(&mut self, alloc: Global, why: &Differs, output: &mut W) -> io::Result<()> {
        self.count_difference(alloc, why)?;
        writeln!(output, "the scripts: {why}")
    }

    /// Follows a run beside the model.
    fn follow<W: Write>(
        &mut self,
        alloc: Global,
        run: Run<'_>,
        beside: &mut Beside,
        output: &mut W,
        shown: Shown,
    ) -> io::Result<()> {
        if let Err(difference) = beside.follow(run.words) {
            if self.is_shown(alloc, &difference.why, shown)? {
                write_difference(output, run, &difference, beside)?;
            }
        } else if let Shown::Differences = shown {
            self.count(beside)?;
        }
        match shown {
            Shown::Traces => self.write_traces(alloc, output, beside),
            Shown::Differences => Ok(()),
        }
    }

    /// Counts a run that differs. Returns whether it is shown: if none before it differs for the same reason, or if
    /// traces are shown.
    fn is_shown(&mut self, alloc: Global, why: &Differs, shown: Shown) -> io::Result<bool> {
        let is_new = self.count_difference(alloc, why)?;
        Ok(is_new || matches!(shown, Shown::Traces))
    }

    /// Counts a run that differs. Returns whether none before it differs for the same reason.
    fn count_difference(&mut self, alloc: Global, why: &Differs) -> io::Result<bool> {
        self.differ = self.differ.saturating_add(1);
        Ok(self.reasons.insert(why.to_string(alloc)?)?)
    }

    /// Counts what a run did that does not differ.
    fn count(&mut self, beside: &Beside) -> Result<(), AllocError> {
        if beside.is_stuck() {
            self.stuck = self.stuck.saturating_add(1);
        }
        self.operations = self.operations.saturating_add(beside.operations());
        if let Some(first) = beside.first_by_own_scripts() {
            self.met.insert(first.digest())?;
        }
        if let Some(second) = beside.second() {
            self.met.insert(second.digest())?;
        }
        Ok(())
    }

    /// Writes the trace of each channel.
    fn write_traces<W: Write>(
        &self,
        alloc: Global,
        output: &mut W,
        beside: &Beside,
    ) -> io::Result<()> {
        let first = self.scripts.read_first(alloc);
        write_trace(output, first, beside.first().moves())?;
        match beside.second() {
            Some(second) => write_trace(output, self.scripts.read(alloc), second.moves()),
            None => Ok(()),
        }
    }

    /// Writes what was counted of the runs.
    fn write_counts<W: Write>(&self, output: &mut W) -> io::Result<()> {
        let counts = [
            ("runs", self.runs),
            ("operations", self.operations),
            ("stuck", self.stuck),
            ("differ", self.differ),
            ("met", self.met.len()),
        ];
        write_line(output, &counts)
    }

    /// Writes how many orders the model has, and how many of them no run met.
    fn write_orders<W: Write>(&self, alloc: Global, output: &mut W) -> io::Result<()> {
        match find_missed(alloc, &self.scripts, &self.met) {
            Ok(told) => write_missed(output, &told),
            Err(why) => writeln!(output, "the model: {why}"),
        }
    }
}

/// Writes numbers in a line, each behind its name.
fn write_line<W: Write>(output: &mut W, numbers: &[(&str, usize)]) -> io::Result<()> {
    let mut space = "";
    for (name, number) in numbers {
        write!(output, "{space}{name} {number}")?;
        space = " ";
    }
    writeln!(output)
}

fn write_difference<W: Write>(
    output: &mut W,
    run: Run<'_>,
    difference: &Difference,
    beside: &Beside,
) -> io::Result<()> {
    let Run { choices, words } = run;
    let Difference { word, why } = difference;
    writeln!(output, "differs: schedule {choices}, word {word}: {why}")?;
    writeln!(output, "words: {words}")?;
    write_all_moves(output, beside)
}

/// Writes the moves of each channel.
fn write_all_moves<W: Write>(output: &mut W, beside: &Beside) -> io::Result<()> {
    write_moves(output, beside.first().moves())?;
    match beside.second() {
        Some(second) => write_moves(output, second.moves()),
        None => Ok(()),
    }
}

/// Writes moves as a schedule that `oneshot-run` reads.
fn write_moves<W: Write>(output: &mut W, moves: &[Move]) -> io::Result<()> {
    output.write_all(b"X ")?;
    for m in moves {
        output.write_all(letter_of(*m).as_bytes())?;
    }
    writeln!(output)
}

fn letter_of(m: Move) -> &'static str {
    match m {
        Move::Sender => "s",
        Move::Receiver { over: true, .. } => "o",
        Move::Receiver { refuse: true, .. } => "n",
        Move::Receiver {
            over: false,
            refuse: false,
        } => "r",
    }
}

/// Writes the trace of a run of the model by scripts.
fn write_trace<W: Write>(
    output: &mut W,
    asked: Result<Request, Differs>,
    moves: &[Move],
) -> io::Result<()> {
    let Ok(asked) = asked else {
        return writeln!(output, "the scripts have changed");
    };
    let message = asked.message();
    let Request {
        sender,
        receiver,
        ..
    } = asked;
    write_run(output, Replayer::new(sender, receiver), moves, message)
}

fn write_missed<W: Write>(output: &mut W, told: &Missed) -> io::Result<()> {
    let orders = if told.is_whole {
        "orders"
    } else {
        "orders at least"
    };
    write_line(output, &[(orders, told.orders), ("missed", told.missed)])?;
    match &told.first {
        Some(moves) => {
            output.write_all(b"missed: ")?;
            write_moves(output, moves.as_slice())
        }
        None => Ok(()),
    }
}
