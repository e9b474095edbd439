//! Laws of all traces: each function's contract is a law, and its body is empty.

ghost use Rattle.oneshot_replay.specs.Right.{IsRight};
ghost use Rattle.oneshot_replay.specs.Run.{OfEachRun, trace_at};
ghost use Rattle.oneshot_replay.specs.TraceView.{IsDetermined};

/// The scripts and the moves determine the trace: the entries, whether the block is freed, and the
/// message's rest.
pub fn trace_is_determined<T>()
    ensures { IsDetermined T }
{}

/// A run that is stepped by hand satisfies at every point the laws that `replay` guarantees of its
/// trace.
pub fn a_run_is_right<T>()
    ensures { OfEachRun T (λ s r moves entries now. IsRight s r moves (trace_at entries now)) }
{}
