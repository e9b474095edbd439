//! The peek: the load beneath a look.

ghost use Rattle.std.specs.Prelude.{◌<◌};
ghost use Rattle.std.specs.Arc.{arc_value};
ghost use Rattle.oneshot_machine.specs.Phases.{sender_at, receiver_at};
ghost use Rattle.oneshot_machine.specs.Slots.{SenderOwns, ReceiverOwns};
ghost use Rattle.oneshot_word.specs.ReadRule.{RuleReads};

use crate::promise::Promise;
use crate::receiver::ReceiverSide;
use crate::sender::SenderSide;
use crate::table::WordTable;
use std::alloc::Global;
use std::sync::Arc;

/// The load beneath a look. It is a trait, so only a file that imports it can perform this load.
pub trait Peek {
    /// Loads the word and returns it. The load is not logged, and no contract states what it found.
    fn peek(&self) -> u8;
}

impl<T, H, K, P: Promise<T>> Peek for SenderSide<T, H, K, P> {
    fn peek(&self) -> u8
        ensures rule { RuleReads H K P.keeps }
        ensures slots { SenderOwns (sender_at self.now.log) self.now.message self.now.waker }
    {
        load(&self.table)
    }
}

impl<T, H, K, P: Promise<T>> Peek for ReceiverSide<T, H, K, P> {
    fn peek(&self) -> u8
        ensures rule { RuleReads H K P.keeps }
        ensures slots { ReceiverOwns (receiver_at self.now.log) self.now.message self.now.waker }
    {
        load(&self.table)
    }
}

// No proof knows what a load without a seat finds. The rule keeps the word below 5, so its low byte is
// all of it.
fn load<T, H, K, P: Promise<T>>(table: &Arc<WordTable<T, H, K, P>, Global>) -> u8
    requires { 0 < (arc_value table.now).shared.table_id.words }
{
    (table.shared.peek(0) & 0xff) as u8
}
