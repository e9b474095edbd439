//! Examples of the word, of what its table has, and of what passes through it, and counterexamples.

ghost use Rattle.oneshot_contract_examples.specs.StateExamples.{LogsSay, StatesThatAre, StatesThatAreNot};
ghost use Rattle.oneshot_contract_examples.specs.ReadExamples.{ReadsThatAre, ReadsThatAreNot};
ghost use Rattle.oneshot_contract_examples.specs.SeatExamples.{SlotsAsSeen, SeatsThatAre, SeatsThatAreNot};
ghost use Rattle.oneshot_contract_examples.specs.SideExamples.{SidesThatAre, SidesThatAreNot};
ghost use Rattle.oneshot_contract_examples.specs.OneOrderExamples.{WorkedOrders, WrongOrders};
ghost use Rattle.oneshot_contract_examples.specs.ReceivedExamples.{MessagesThatPass, MessagesThatDoNot, WakersThatPass, WakersThatDoNot};

use oneshot_word::Promise;

/// Examples and counterexamples: what logs show, which states of the word have a row of owners, what a
/// seat carries, what a side shows and does, what a reader finds of the table, which messages and wakers pass
/// through it, and which end performs each operation of an order.
pub fn examples_are_so<T, H, K, P: Promise<T>>()
    ensures logs { LogsSay }
    ensures states { StatesThatAre T H K }
    ensures no_states { StatesThatAreNot T H K }
    ensures slots { SlotsAsSeen }
    ensures seats { SeatsThatAre }
    ensures no_seats { SeatsThatAreNot }
    ensures sides { SidesThatAre }
    ensures no_sides { SidesThatAreNot }
    ensures reads { ReadsThatAre }
    ensures no_reads { ReadsThatAreNot }
    ensures messages { MessagesThatPass H K P.keeps }
    ensures no_messages { MessagesThatDoNot H K P.keeps }
    ensures wakers { WakersThatPass H K P.keeps }
    ensures no_wakers { WakersThatDoNot H K P.keeps }
    ensures orders { WorkedOrders }
    ensures no_orders { WrongOrders }
{}
