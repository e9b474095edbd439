//! Examples of what the tables allow, of logs, runs, counts, orders and slots, and of what they refuse.

ghost use Rattle.oneshot_contract_examples.specs.ExactExamples.{TablesAllow, TablesRefuse};
ghost use Rattle.oneshot_contract_examples.specs.RunExamples.{LogsOfSender, LogsOfReceiver, RunsThatAre, RunsThatAreNot};
ghost use Rattle.oneshot_contract_examples.specs.FutureExamples.{LogsOfFuture, FutureRuns, FutureRunsThatAreNot};
ghost use Rattle.oneshot_contract_examples.specs.CountExamples.{CountsThatAre, CountsThatAreNot};
ghost use Rattle.oneshot_contract_examples.specs.LogExamples.{LogsThatGrow, LogsThatDoNot};
ghost use Rattle.oneshot_contract_examples.specs.RowExamples.{SlotsThatAre, SlotsThatAreNot};
ghost use Rattle.oneshot_contract_examples.specs.OverExamples.{EndsThatAreOver, EndsThatAreNotOver};
ghost use Rattle.oneshot_contract_examples.specs.OrderExamples.{OrdersThatAre, OrdersThatAreNot};

/// Examples of the definitions: what the tables allow, the logs and runs of an end, counts of operations,
/// orders of both ends' logs, what a ground did between two logs, what becomes of an end's slots, and ends that are
/// over.
pub fn examples_are_so()
    ensures tables { TablesAllow }
    ensures no_tables { TablesRefuse }
    ensures senders { LogsOfSender }
    ensures receivers { LogsOfReceiver }
    ensures runs { RunsThatAre }
    ensures no_runs { RunsThatAreNot }
    ensures futures { LogsOfFuture }
    ensures future_runs { FutureRuns }
    ensures no_future_runs { FutureRunsThatAreNot }
    ensures counts { CountsThatAre }
    ensures no_counts { CountsThatAreNot }
    ensures orders { OrdersThatAre }
    ensures no_orders { OrdersThatAreNot }
    ensures logs { LogsThatGrow }
    ensures no_logs { LogsThatDoNot }
    ensures slots { SlotsThatAre }
    ensures no_slots { SlotsThatAreNot }
    ensures over { EndsThatAreOver }
    ensures not_over { EndsThatAreNotOver }
{}
