//! Examples of what contracts state of ends, and counterexamples.

ghost use Rattle.atomic_table.specs.Seated.{TableId};
ghost use Rattle.futures.specs.declared.task.context.Context.{Context};
ghost use Rattle.oneshot_contract_examples.specs.EndExamples.{EndsThatAre, EndsThatAreNot, CallsThatGrow, CallsThatDoNotGrow, CopiesThatAre};
ghost use Rattle.oneshot_contract_examples.specs.EndExamples.{CopiesThatAreNot, RealGroundsThatAre};
ghost use Rattle.oneshot_contract_examples.specs.EndExamples.{RealGroundsThatAreNot, OrderedLogs, UnorderedLogs};
ghost use Rattle.oneshot_contract_examples.specs.EndedExamples.{FindsThatAre, FindsThatAreNot};
ghost use Rattle.oneshot_contract_examples.specs.OwnExamples.{UsesThatAre, UsesThatAreNot};
ghost use Rattle.oneshot_contract_examples.specs.TakenExamples.{TakesThatAre, TakesThatAreNot};
ghost use Rattle.oneshot_contract_examples.specs.TokenExamples.{TokensThatAreNot, LivesThatAre, LivesThatAreNot, WakersThatWoke, WakersThatDidNot};

/// Examples that the definitions accept or refuse: open and closed ends, logs of calls, copies of wakers, grounds,
/// states and lives of a token, wakers that wake, logs that have an order, uses of a parker's own waker, messages that
/// a receiver took, and what is there for one end once the other is over.
pub fn examples_are_so<T>()
    ensures ends { (channel : TableId) → EndsThatAre channel }
    ensures no_ends { (channel : TableId) → EndsThatAreNot channel }
    ensures calls { CallsThatGrow T }
    ensures no_calls { CallsThatDoNotGrow T }
    ensures copies { (before after : Context) → CopiesThatAre before after }
    ensures no_copies { (before after : Context) → CopiesThatAreNot before after }
    ensures grounds { (table : TableId) → RealGroundsThatAre table }
    ensures no_grounds { (table : TableId) → RealGroundsThatAreNot table }
    ensures no_states { TokensThatAreNot }
    ensures lives { LivesThatAre }
    ensures no_lives { LivesThatAreNot }
    ensures woken { WakersThatWoke }
    ensures unwoken { WakersThatDidNot }
    ensures orders { OrderedLogs }
    ensures no_orders { UnorderedLogs }
    ensures uses { UsesThatAre }
    ensures no_uses { UsesThatAreNot }
    ensures takes { TakesThatAre }
    ensures no_takes { TakesThatAreNot }
    ensures finds { FindsThatAre }
    ensures no_finds { FindsThatAreNot }
{}
