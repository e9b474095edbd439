//! What the definitions of `oneshot_laws` compute for worked traces, and for the same traces damaged.
#![tactic(auto)]

ghost use Rattle.oneshot_law_examples.specs.HistoryExamples.{ObjectAnswers, ActingEntries, LegalTraces, IllegalTraces, IdleTraces, NotIdleTraces};
ghost use Rattle.oneshot_law_examples.specs.LawExamples.{RightTraces, MisplacedMessages, WronglyPut, WronglyReplied, MisfreedBlocks, WrongReplies, WrongAlone};
ghost use Rattle.oneshot_law_examples.specs.WaitExamples.{WaitsAreTold, WaitsAct, IllegalWaits, MisfreedWaits, WrongReceives};
ghost use Rattle.oneshot_law_examples.specs.TimedExamples.{TimedAreTold, TimedAreRight, TimedAct, IllegalTimeouts, WrongTimeouts};
ghost use Rattle.oneshot_law_examples.specs.WakerExamples.{MisplacedWakers, FullCells};
ghost use Rattle.oneshot_law_examples.specs.TaskExamples.{WokenTasks, UnwokenTasks};
ghost use Rattle.oneshot_law_examples.specs.UnwokenExamples.{AheadsOfRuns, UnwokenWaits};
ghost use Rattle.oneshot_law_examples.specs.BoundExamples.{WithinBounds, OneOperationMore, OneMoveMore};
ghost use Rattle.oneshot_law_examples.specs.FutureExamples.{FuturesAreTold, FuturesAreRight, NotTold, PollsAct, IllegalPolls, MisplacedCopies, MisfreedFutures, WrongPolls};
ghost use Rattle.oneshot_law_examples.specs.RecordExamples.{WakersAreComputed, RightRecords, WrongRecords, WrongRuns};
ghost use Rattle.oneshot_law_examples.specs.StepExamples.{CallsThatAreLeft, StepsThatAre, StepsThatAreNot};

/// Does nothing. The contract states what the definitions compute for worked traces, and for the same
/// traces damaged, so a definition that is changed by mistake is refused here.
pub fn examples()
    ensures object { ObjectAnswers }
    ensures acting { ActingEntries }
    ensures legal { LegalTraces }
    ensures illegal { IllegalTraces }
    ensures idle { IdleTraces }
    ensures not_idle { NotIdleTraces }
    ensures right { RightTraces }
    ensures misplaced { MisplacedMessages }
    ensures wrongly_put { WronglyPut }
    ensures wrongly_replied { WronglyReplied }
    ensures misfreed { MisfreedBlocks }
    ensures wrong_replies { WrongReplies }
    ensures wrong_alone { WrongAlone }
    ensures waits_are_entries { WaitsAreTold }
    ensures waits_act { WaitsAct }
    ensures illegal_waits { IllegalWaits }
    ensures misfreed_waits { MisfreedWaits }
    ensures wrong_receives { WrongReceives }
    ensures timed_are_entries { TimedAreTold }
    ensures timed_right { TimedAreRight }
    ensures timed_act { TimedAct }
    ensures illegal_timeouts { IllegalTimeouts }
    ensures wrong_timeouts { WrongTimeouts }
    ensures misplaced_wakers { MisplacedWakers }
    ensures full_cells { FullCells }
    ensures aheads { AheadsOfRuns }
    ensures unwoken { UnwokenWaits }
    ensures woken_tasks { WokenTasks }
    ensures unwoken_tasks { UnwokenTasks }
    ensures within_bounds { WithinBounds }
    ensures one_operation_more { OneOperationMore }
    ensures one_move_more { OneMoveMore }
    ensures futures_are_entries { FuturesAreTold }
    ensures futures_right { FuturesAreRight }
    ensures not_entries { NotTold }
    ensures polls_act { PollsAct }
    ensures illegal_polls { IllegalPolls }
    ensures misplaced_copies { MisplacedCopies }
    ensures misfreed_futures { MisfreedFutures }
    ensures wrong_polls { WrongPolls }
{}

/// The same for the records that contracts name: which worked traces and runs satisfy them, and a damaged one for each
/// field that they refuse.
pub fn records()
    ensures wakers { WakersAreComputed }
    ensures right { RightRecords }
    ensures wrong { WrongRecords }
    ensures wrong_runs { WrongRuns }
    ensures left { CallsThatAreLeft }
    ensures steps { StepsThatAre }
    ensures no_steps { StepsThatAreNot }
{}
