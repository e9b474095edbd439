//! What the ends of the channel do is a run of the model: each function's contract is a law, and its body is empty.
//!
//! A real end shows proofs only its log: its operations on the shared word, with what each found. The model runs two
//! scripts under a schedule, and `oneshot_laws` proves its laws of every run. The laws here lead from logs to runs.
//! `ends_are_scripted` leads from a log to a walk of one end, `orders_are_runs` from two walks to a run, and
//! `every_table_answers_calls` from a state of the shared table to its run. `specs/Lib.antt` and `proofs/Lib.antt` have
//! the order in which to read.
#![tactic(auto)]

ghost use Rattle.oneshot_bridge.specs.CallExamples.{WorkedCalls, WrongCalls};
ghost use Rattle.oneshot_bridge.specs.CallsRun.{CallsAreRuns, BothCallsAreRuns, OneCallGets};
ghost use Rattle.oneshot_bridge.specs.CellExamples.{WorkedCells, WrongCells, WrongUses};
ghost use Rattle.oneshot_bridge.specs.Examples.{WorkedRun, WrongRuns};
ghost use Rattle.oneshot_bridge.specs.Gives.{OneReceiveGets, RunLosesNoWakeup, RunFreesOnce, RunFreesLast, RunFreesByItsHolder};
ghost use Rattle.oneshot_bridge.specs.Joined.{TablesAreOfRuns};
ghost use Rattle.oneshot_bridge.specs.Homes.{RunsHaveCells};
ghost use Rattle.oneshot_bridge.specs.OrdersRun.{OrdersAreRuns};
ghost use Rattle.oneshot_bridge.specs.RunOrder.{RunsAreInOrder, WorkedOrder, WrongOrder};
ghost use Rattle.oneshot_bridge.specs.RunExamples.{AnswersThatAre, RunsThatAre, RunsThatAreNot, RunsSay};
ghost use Rattle.oneshot_bridge.specs.Scripted.{SenderIsScripted, ReceiverIsScripted, StatesAreOfRuns};
ghost use Rattle.oneshot_bridge.specs.Woken.{NobodyWaitsInARun, WakeIsNextInARun, WasDropped, NobodyIsLeft};

use oneshot_word::Promise;

/// Each order of both ends' operations is that of a run of the model, in which each end alone carries
/// out its script. The run keeps every law of a trace.
pub fn orders_are_runs<T>()
    ensures { OrdersAreRuns T }
{}

/// Each run of the model whose logs the rule of the word allows performs the operations of both in
/// their one order. So if the operations of real ends happened in an order in which each finds the word that the
/// one before it left, a run with their logs performs them in this order.
pub fn runs_are_in_order<T>()
    ensures law { RunsAreInOrder T }
    ensures worked { (m : T) → WorkedOrder m }
    ensures wrong { (m : T) → WrongOrder m }
{}

/// Each run of the model whose logs the rule of the word allows leads to a world whose cells are as the
/// rule has the slots at home. It frees the block only where one end has both slots.
pub fn runs_have_cells<T>()
    ensures { RunsHaveCells T }
{}

/// For each log that an order allows an end, there are a script and a walk of it with this log.
pub fn ends_are_scripted<T>()
    ensures sender { SenderIsScripted T }
    ensures receiver { ReceiverIsScripted }
{}

/// For each state that the rule of the word allows, there are two scripts and a schedule. The run of
/// the model has the state's operations of the sender and of the receiver, and its word, and it keeps
/// every law of a trace. `runs_have_cells` states which cells it has.
pub fn every_state_is_of_a_run<T>()
    ensures { StatesAreOfRuns T }
{}

/// For each state that the rule of the shared table allows once both ends exist, a run of the model has
/// the operations of both views, this word, and these slots at home. A message that is at home, that
/// the sender gave or that the receiver took is the message of that run. If the receiver is between two
/// calls, there is also such a run that has made the receiver's own calls, with the same replies.
pub fn every_table_answers_calls<T, H, K, W, P: Promise<T>>()
    ensures { TablesAreOfRuns H K W P.keeps }
{}

/// Between calls, a run of the model makes a program's own calls. If each call of a receiver, or of a
/// future, appended the operations of one run of its table to the log, a run of the model has made the
/// same calls with the same replies (`received`). If the sender is between its calls too, the run has
/// made the calls of both (`both`). At most one call of the receiver returned the message (`one_gets`).
pub fn calls_are_of_a_run<T, W>()
    ensures received { CallsAreRuns T W }
    ensures both { BothCallsAreRuns T W }
    ensures one_gets { OneCallGets T W }
{}

/// What the laws of the model state wherever both ends have come to by their scripts, in an order of
/// their operations: at most one receive returned the message. In each run that leads there, once the
/// sender's `send` or drop has replied, a receiver that is about to park has its token. The block is
/// freed at most once, by the only end that holds it, and nothing uses it after that. These are facts
/// of the model: a real end's park, wake and free are no operations on the word.
pub fn laws_of_each_run<T>()
    ensures one_receive_gets { OneReceiveGets T }
    ensures run_loses_no_wakeup { RunLosesNoWakeup T }
    ensures run_frees_once { RunFreesOnce T }
    ensures run_frees_last { RunFreesLast T }
    ensures run_frees_by_its_holder { RunFreesByItsHolder T }
{}

/// What the laws of the model state, in each run, of a receiver that waits in a park or in a task. Once
/// the sender's `send` or drop has replied, it does not wait. The other clauses are of runs whose operations
/// also come by rows of the phases of both ends (`Reaches`). If the sender's last operation found the receiver
/// here and the call is still under way, the sender's next step is a wake, after which the receiver does not
/// wait. If that operation found the receiver gone, the receiver was dropped, and has ended.
pub fn wakes_of_each_run<T>()
    ensures nobody_waits_in_a_run { NobodyWaitsInARun T }
    ensures wake_is_next_in_a_run { WakeIsNextInARun T }
    ensures was_dropped { WasDropped T }
    ensures nobody_is_left { NobodyIsLeft T }
{}

/// Examples and counterexamples of the definitions, by worked runs.
pub fn examples_are_so<T>()
    ensures run { (m : T) → WorkedRun m }
    ensures wrong { (m : T) → WrongRuns m }
    ensures cells { (m : T) → WorkedCells m }
    ensures wrong_cells { (m : T) → WrongCells m }
    ensures wrong_uses { (m : T) → WrongUses m }
    ensures calls { WorkedCalls T (Unit {0}) }
    ensures wrong_calls { WrongCalls T (Unit {0}) }
    ensures answers { AnswersThatAre }
    ensures runs { (m : T) → RunsThatAre m }
    ensures no_runs { (m : T) → RunsThatAreNot m }
    ensures runs_say { (m : T) → RunsSay m }
{}
