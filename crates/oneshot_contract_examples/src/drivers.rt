//! Examples of what a driver leaves between two calls, and counterexamples.

ghost use Rattle.oneshot_contract_examples.specs.DriverExamples.{PhasesThatAre, PhasesThatAreNot, CallsThatLeave, CallsThatDoNot, RepliesThatAre, HandsThatAre, HandsThatAreNot, GroundsThatAre};
ghost use Rattle.oneshot_contract_examples.specs.DriverExamples.{GroundsThatAreNot};
ghost use Rattle.oneshot_contract_examples.specs.DriverExamples.{WakersThatAre, WakersThatAreNot};

/// States by examples which phases are open, closed or between calls, what a call may leave and reply, which
/// hands and grounds it may have, and which wakers it may pass on.
pub fn examples_are_so()
    ensures ends { PhasesThatAre }
    ensures no_ends { PhasesThatAreNot }
    ensures calls { CallsThatLeave }
    ensures no_calls { CallsThatDoNot }
    ensures replies { RepliesThatAre }
    ensures hands { HandsThatAre }
    ensures no_hands { HandsThatAreNot }
    ensures grounds { GroundsThatAre }
    ensures no_grounds { GroundsThatAreNot }
    ensures wakers { WakersThatAre }
    ensures no_wakers { WakersThatAreNot }
{}
