//! Laws of the definitions that contracts cite: each function's contract is a law, and its body is empty.

ghost use Rattle.oneshot_machine.specs.Exact.{SenderIsExact, ReceiverIsExact};
ghost use Rattle.oneshot_machine.specs.LeadExamples.{RowsThatLead};
ghost use Rattle.oneshot_machine.specs.Orders.{ReachedInOrder};

/// After each log whose operations find words that the definitions let them find, the definitions allow an end exactly
/// its table's operations, except those of looks. Each finds only words for which the table has a row. That the
/// definitions allow no less is stated for types `T` and `W` that have a value.
pub fn tables_are_exact<T, W>()
    ensures sender { SenderIsExact T W }
    ensures receiver { ReceiverIsExact T W }
{}

/// In each order of both ends' operations by the rows of their phases, each operation finds the word that the
/// one before it left.
pub fn phases_keep_order()
    ensures { ReachedInOrder }
{}

/// Examples of where a row leads. No other crate can name the type of a row's end; the other examples of the tables are
/// in `oneshot_contract_examples`.
pub(crate) fn examples_are_so()
    ensures { RowsThatLead }
{}
