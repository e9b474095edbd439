//! Makes a channel's table, with a side for each end.

ghost use Rattle.std.specs.Prelude.{◌≡◌, [], ◌∷◌, IfOk};
ghost use Rattle.std.specs.Arc.{arc_value};
ghost use Rattle.oneshot_word.specs.Seats.{IsAt, new_sender, new_receiver};
ghost use Rattle.oneshot_word.specs.Side.{AreEnds};
ghost use Rattle.oneshot_word.specs.declared.rule.Slot.TheVariants.{Empty};

use crate::plays::{MakesReceiver, TakesMessageSlot};
use crate::promise::Promise;
use crate::receiver::ReceiverSide;
use crate::rule::Slot;
use crate::sender::SenderSide;
use crate::table::{WordSeat, WordTable};
use atomic_table::Table;
use oneshot_machine::states::EMPTY;
use std::alloc::{AllocError, Global};
use std::sync::Arc;

/// Makes a new table in `alloc`, for a channel about the value `about`, and returns both sides. Returns
/// `AllocError` when out of memory, and keeps nothing.
#[inline(always)]
pub fn open<T: Send + Drop, H: Send + Drop, K: Send + Drop, P: Promise<T>>(
    alloc: Global,
    about: &P,
) -> Result<(SenderSide<T, H, K, P>, ReceiverSide<T, H, K, P>), AllocError>
    ensures { IfOk result (λ sides. AreEnds about.now sides.0 sides.1) }
{
    let (made, seat, other) = seated(alloc, about)?;
    match shared(alloc, made) {
        Ok((table, shared)) => {
            let sender = SenderSide::new(table, seat);
            let receiver = ReceiverSide {
                table: shared,
                seat: other,
            };
            Ok((sender, receiver))
        }
        // Dropped by hand: otherwise the borrow checker would give up on this function, and leave the whole proof to be
        // written by hand.
        Err(error) => {
            drop(seat);
            drop(other);
            Err(error)
        }
    }
}

/// Releases both sides of a new table, by which no operation was performed.
pub fn discard<T: Drop, H: Drop, K: Drop, P: Promise<T>>(
    sender: SenderSide<T, H, K, P>,
    receiver: ReceiverSide<T, H, K, P>,
)
    requires { (about : P) × AreEnds about sender receiver }
{
    let SenderSide { table: _, seat: _ } = sender;
    let ReceiverSide { table: _, seat: _ } = receiver;
}

// A table, with the sender's seat and the receiver's.
type Seated<T, H, K, P> = (
    WordTable<T, H, K, P>,
    WordSeat<T, H, K, P>,
    WordSeat<T, H, K, P>,
);

// Makes a table with a seat for each end. The sender's has the message's slot.
#[inline(always)]
fn seated<T: Send + Drop, H: Send + Drop, K: Send + Drop, P: Promise<T>>(
    alloc: Global,
    about: &P,
) -> Result<Seated<T, H, K, P>, AllocError>
    ensures sender_at { IfOk result (λ made. IsAt made.0.shared.table_id made.1.table_id) }
    ensures sender { IfOk result (λ made. made.1.me ≡ new_sender about.now) }
    ensures receiver_at { IfOk result (λ made. IsAt made.0.shared.table_id made.2.table_id) }
    ensures receiver { IfOk result (λ made. made.2.me ≡ new_receiver about.now) }
{
    let Ok((made, mut seat)) = Table::new(alloc, &[EMPTY as u64], empty_slots(alloc)?, about) else {
        return Err(AllocError);
    };
    // Performs the step `TakesMessageSlot`, which gives the maker the slot of the message. The word that the load
    // finds, `EMPTY`, is not used.
    made.shared.load::<TakesMessageSlot>(&mut seat, 0);
    let other = made.shared.split_seat::<MakesReceiver>(&mut seat);
    Ok((made, seat, other))
}

// Returns two references to the table, one for each side.
#[inline(always)]
fn shared<T: Send + Drop, H: Send + Drop, K: Send + Drop, P: Promise<T>>(
    alloc: Global,
    made: WordTable<T, H, K, P>,
) -> Result<
    (
        Arc<WordTable<T, H, K, P>, Global>,
        Arc<WordTable<T, H, K, P>, Global>,
    ),
    AllocError,
>
    ensures { IfOk result (λ two. (arc_value two.0 ≡ made) × (arc_value two.1 ≡ made)) }
{
    let table = Arc::new(alloc, made)?;
    let shared = Arc::try_clone(&table)?;
    Ok((table, shared))
}

fn empty_slots<T: Drop, H: Drop, K: Drop>(alloc: Global) -> Result<Vec<Slot<T, H, K>>, AllocError>
    ensures { IfOk result (λ slots. slots.items ≡ Empty ∷ Empty ∷ []) }
{
    let mut slots = Vec::with_capacity(alloc, 2)?;
    slots.push(Slot::Empty)?;
    slots.push(Slot::Empty)?;
    Ok(slots)
}
