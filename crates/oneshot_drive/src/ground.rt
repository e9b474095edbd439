//! The traits of grounds: what an end does to the world.
//!
//! A ground is the backend of a driver. The driver decides which step of its call comes next, and the ground makes the
//! step. A driver is generic over its ground, so a call is proved once, for each backend that keeps the contracts of
//! these traits: the ground of a real end (`oneshot_ends`, in `src/ground`), the same ground lent to a call that blocks
//! or to a poll, and a ground in memory (`oneshot_memory`), by which tests compare each step.
//!
//! There is a trait for each kind of call. A driver whose calls may not block, write a waker or drop a message has a
//! trait without that step, except `into_inner`, which has the trait of `drop_error`.

ghost use Rattle.std.specs.Prelude.{◌≡◌, Bool, true, ◌∷◌, [], Option, Some, None, IfSome};
ghost use Rattle.oneshot_machine.specs.declared.machine.Step.TheVariants.{DropMessage, WriteWaker, TakeWaker, Withdraw, Wake, WakeOwn, Free};
ghost use Rattle.oneshot_machine.specs.declared.states.Op.TheVariants.{Load, Store, Swap, Exchange, Add, Xor};
ghost use Rattle.oneshot_machine.specs.Phases.{By};
ghost use Rattle.oneshot_machine.specs.Logs.{Grows, words, sender_of, receiver_of, did, wrote, took, handed, parked, clocked, copied, worded};
ghost use Rattle.oneshot_machine.specs.Slots.{away, vacant, held};
ghost use Rattle.oneshot_machine.specs.Over.{SenderIsOver};
ghost use Rattle.oneshot_drive.specs.Blocking.{Parks};
ghost use Rattle.oneshot_drive.specs.Grounds.{GroundState, SenderAsks, SenderMakes, ReceiverAsks, ReceiverMakes};
ghost use Rattle.oneshot_drive.specs.Wakes.{found_receiver_waiting};

/// The steps of the sender in its one call, for messages `T` and wakers `W`.
pub trait SenderGround<T, W> {
    // The ground's log, and both slots as the end sees them.
    ghost state: { Self → GroundState T W };

    // What the ground has beside the channel is kept from one state to a later one.
    ghost keeps: { Self → Self → Type 0 };

    ghost keeps_on: { (a b c : Self) → keeps a b → keeps b c → keeps a c };

    // What the ground requires of a message that is written.
    ghost admits: { Self → T → Type 0 };

    // The waker that the ground took out of its slot.
    ghost owed: { Self → W → Type 0 };

    // What the ground guarantees once this waker was used: it has woken its receiver.
    ghost woken: { Self → W → Type 0 };

    // The end has given this message to the channel.
    ghost gave: { Self → T → Type 0 };

    // What holds of an end once its `send` or its drop is over: it may be released.
    ghost ended: { By → Self → Type 0 };

    // Its last operation is made, and it has woken the receiver that it found waiting.
    ghost ended_by: { (by : By) (a : Self) → SenderIsOver by (sender_of (state a).log)
        → (found_receiver_waiting (words (state a).log.list) ≡ true → (waker : W) × woken a waker) → ended by a };

    /// Adds one to the word, and returns the word before.
    fn add(&mut self) -> u8
        requires { SenderAsks Add (state self.old) }
        ensures log { Grows (state self.old).log (state self.new).log (worded Add result ∷ []) }
        ensures finds { SenderMakes Add result (state self.old) (state self.new) }
        ensures gave { (x : T) → (state self.old).message ≡ held x → (state self.new).message ≡ away
            → gave self.new x }
        ensures keeps { keeps self.old self.new };

    /// Xors the word with one, and returns the word before.
    fn xor(&mut self) -> u8
        requires { SenderAsks Xor (state self.old) }
        ensures log { Grows (state self.old).log (state self.new).log (worded Xor result ∷ []) }
        ensures finds { SenderMakes Xor result (state self.old) (state self.new) }
        ensures keeps { keeps self.old self.new };

    /// Stores `last` in the word, as the sender's last operation, and returns the word before.
    fn swap(&mut self, last: u8) -> u8
        requires { SenderAsks (Swap last) (state self.old) }
        ensures log { Grows (state self.old).log (state self.new).log (worded (Swap last) result ∷ []) }
        ensures finds { SenderMakes (Swap last) result (state self.old) (state self.new) }
        ensures owed { (waker : W) → owed self.old waker → owed self.new waker }
        ensures gave { (x : T) → (state self.old).message ≡ held x → (state self.new).message ≡ away
            → gave self.new x }
        ensures keeps { keeps self.old self.new };

    /// Writes `message` into its slot, which is the end's and empty.
    fn write_message(&mut self, message: T)
        requires slot { (state self.old).message ≡ vacant }
        requires promise { admits self.old message }
        ensures log { Grows (state self.old).log (state self.new).log (wrote message ∷ []) }
        ensures message { (state self.new).message ≡ held message }
        ensures waker { (state self.new).waker ≡ (state self.old).waker }
        ensures keeps { keeps self.old self.new };

    /// Takes the waiting receiver's waker out of its slot, and returns it.
    fn take_waker(&mut self) -> W
        requires { (k : W) × ((state self.old).waker ≡ held k) }
        ensures log { Grows (state self.old).log (state self.new).log (handed TakeWaker result ∷ []) }
        ensures was { (state self.old).waker ≡ held result }
        ensures owed { owed self.new result }
        ensures message { (state self.new).message ≡ (state self.old).message }
        ensures waker { (state self.new).waker ≡ vacant }
        ensures keeps { keeps self.old self.new };

    /// Wakes the receiver with `waker`, which is the one that the ground took, and consumes it.
    fn wake(&mut self, waker: W)
        requires { owed self.old waker }
        ensures log { Grows (state self.old).log (state self.new).log (handed Wake waker ∷ []) }
        ensures message { (state self.new).message ≡ (state self.old).message }
        ensures waker { (state self.new).waker ≡ (state self.old).waker }
        ensures woken { woken self.new waker }
        ensures gave { (x : T) → gave self.old x → gave self.new x }
        ensures keeps { keeps self.old self.new };

    /// Frees the block. Before, both slots are the end's and empty; after, neither is the end's.
    fn free(&mut self)
        requires message { (state self.old).message ≡ vacant }
        requires waker { (state self.old).waker ≡ vacant }
        ensures log { Grows (state self.old).log (state self.new).log (did Free ∷ []) }
        ensures message { (state self.new).message ≡ away }
        ensures waker { (state self.new).waker ≡ away }
        ensures woken { (waker : W) → woken self.old waker → woken self.new waker }
        ensures keeps { keeps self.old self.new };
}

/// The steps of the error of a refused `send`, for messages `T` and wakers `W`.
pub trait ErrorGround<T, W> {
    // The ground's log, and both slots as the end sees them.
    ghost state: { Self → GroundState T W };

    /// Takes the message out of its slot, and returns it.
    fn take_message(&mut self) -> T
        requires { (x : T) × ((state self.old).message ≡ held x) }
        ensures log { Grows (state self.old).log (state self.new).log (took result ∷ []) }
        ensures was { (state self.old).message ≡ held result }
        ensures message { (state self.new).message ≡ vacant }
        ensures waker { (state self.new).waker ≡ (state self.old).waker };

    /// Drops the message in its slot.
    fn drop_message(&mut self)
        requires { (x : T) × ((state self.old).message ≡ held x) }
        ensures log { Grows (state self.old).log (state self.new).log (did DropMessage ∷ []) }
        ensures message { (state self.new).message ≡ vacant }
        ensures waker { (state self.new).waker ≡ (state self.old).waker };

    /// Frees the block. Before, both slots are the end's and empty; after, neither is the end's.
    fn free(&mut self)
        requires message { (state self.old).message ≡ vacant }
        requires waker { (state self.old).waker ≡ vacant }
        ensures log { Grows (state self.old).log (state self.new).log (did Free ∷ []) }
        ensures message { (state self.new).message ≡ away }
        ensures waker { (state self.new).waker ≡ away };
}

/// The steps of the receiver in any call, for messages `T` and wakers `W`.
pub trait ReceiverGround<T, W> {
    // The ground's log, and both slots as the end sees them.
    ghost state: { Self → GroundState T W };

    // What the ground has beside the channel is kept from one state to a later one.
    ghost keeps: { Self → Self → Type 0 };

    ghost keeps_same: { (a : Self) → keeps a a };

    ghost keeps_on: { (a b c : Self) → keeps a b → keeps b c → keeps a c };

    // What the ground is ready for, beside this waker, which is not in its slot: to give a waker, and to park.
    ghost has: { Self → Option W → Type 0 };

    // What holds of a message that the ground hands out.
    ghost gives: { Self → T → Type 0 };

    // What holds of a message in a later state holds in an earlier one too.
    ghost gives_on: { (a b : Self) (x : T) → keeps a b → gives b x → gives a x };

    // This message has come out of the channel.
    ghost had: { Self → T → Type 0 };

    // A message that has come out in one state has in a later one too.
    ghost had_on: { (a b : Self) (x : T) → keeps a b → had a x → had b x };

    /// Loads the word, and returns it.
    fn load(&mut self) -> u8
        requires { ReceiverAsks Load (state self.old) }
        ensures log { Grows (state self.old).log (state self.new).log (worded Load result ∷ []) }
        ensures finds { ReceiverMakes Load result (state self.old) (state self.new) }
        ensures keeps { keeps self.old self.new };

    /// Stores `new` in the word, and returns the word before. Drivers ignore it: a receiver stores only once the sender
    /// has performed its last operation, and then its phase shows the word.
    fn store(&mut self, new: u8) -> u8
        requires { ReceiverAsks (Store new) (state self.old) }
        ensures log { Grows (state self.old).log (state self.new).log (worded (Store new) result ∷ []) }
        ensures finds { ReceiverMakes (Store new) result (state self.old) (state self.new) }
        ensures keeps { keeps self.old self.new };

    /// Swaps `new` into the word, and returns the word before.
    fn swap(&mut self, new: u8) -> u8
        requires { ReceiverAsks (Swap new) (state self.old) }
        ensures log { Grows (state self.old).log (state self.new).log (worded (Swap new) result ∷ []) }
        ensures finds { ReceiverMakes (Swap new) result (state self.old) (state self.new) }
        ensures keeps { keeps self.old self.new };

    /// Puts `new` into the word if it is `expected`, and returns the word before.
    fn exchange(&mut self, expected: u8, new: u8) -> u8
        requires { ReceiverAsks (Exchange expected new) (state self.old) }
        ensures log { Grows (state self.old).log (state self.new).log (worded (Exchange expected new) result ∷ []) }
        ensures finds { ReceiverMakes (Exchange expected new) result (state self.old) (state self.new) }
        ensures has { (hand : Option W) → has self.old hand → has self.new hand }
        ensures keeps { keeps self.old self.new };

    /// Takes the message out of its slot, and returns it.
    fn take_message(&mut self) -> T
        requires { (x : T) × ((state self.old).message ≡ held x) }
        ensures log { Grows (state self.old).log (state self.new).log (took result ∷ []) }
        ensures was { (state self.old).message ≡ held result }
        ensures given { gives self.old result }
        ensures had { had self.new result }
        ensures message { (state self.new).message ≡ vacant }
        ensures waker { (state self.new).waker ≡ (state self.old).waker }
        ensures keeps { keeps self.old self.new };

    /// Takes the waker back out of its slot, and returns it.
    fn withdraw(&mut self) -> W
        requires { (k : W) × ((state self.old).waker ≡ held k) }
        ensures log { Grows (state self.old).log (state self.new).log (handed Withdraw result ∷ []) }
        ensures was { (state self.old).waker ≡ held result }
        ensures has { (waker : W) → has self.old (Some waker) → has self.new (Some waker) }
        ensures message { (state self.new).message ≡ (state self.old).message }
        ensures waker { (state self.new).waker ≡ vacant }
        ensures keeps { keeps self.old self.new };

    /// Frees the block. Before, both slots are the end's and empty; after, neither is the end's.
    fn free(&mut self)
        requires message { (state self.old).message ≡ vacant }
        requires waker { (state self.old).waker ≡ vacant }
        ensures log { Grows (state self.old).log (state self.new).log (did Free ∷ []) }
        ensures message { (state self.new).message ≡ away }
        ensures waker { (state self.new).waker ≡ away }
        ensures keeps { keeps self.old self.new };
}

/// The steps of the receiver in its drop. No call that returns a message has them.
pub trait DropGround<T, W>: ReceiverGround<T, W> {
    /// Drops the message in its slot.
    fn drop_message(&mut self)
        requires { (x : T) × ((Self.state self.old).message ≡ held x) }
        ensures log { Grows (Self.state self.old).log (Self.state self.new).log (did DropMessage ∷ []) }
        ensures message { (Self.state self.new).message ≡ vacant }
        ensures waker { (Self.state self.new).waker ≡ (Self.state self.old).waker }
        ensures keeps { Self.keeps self.old self.new };
}

/// The steps of the receiver in a call that may give its waker.
pub trait WaitGround<T, W>: ReceiverGround<T, W> {
    /// Writes `waker` into its slot, which is the end's and empty.
    fn write_waker(&mut self, waker: W)
        requires slot { (Self.state self.old).waker ≡ vacant }
        requires has { Self.has self.old (Some waker) }
        ensures log { Grows (Self.state self.old).log (Self.state self.new).log (handed WriteWaker waker ∷ []) }
        ensures message { (Self.state self.new).message ≡ (Self.state self.old).message }
        ensures waker { (Self.state self.new).waker ≡ held waker }
        ensures has { Self.has self.new None }
        ensures keeps { Self.keeps self.old self.new };
}

/// The steps of the receiver in a call that blocks.
pub trait BlockGround<T, W>: WaitGround<T, W> {
    // What a park, with a deadline or without, does beside the channel.
    ghost parks: { Bool → Self → Self → Type 0 };

    // What a reading of the clock, by which the deadline is over or not, does beside the channel.
    ghost reads: { Bool → Self → Self → Type 0 };

    /// Blocks until the receiver is woken; if `timed`, at most until its deadline. It may return earlier (a
    /// spurious wakeup). Only the log records whether the receiver was woken. A receiver whose deadline is
    /// over parks without one, because a timed park would not block.
    fn park(&mut self, timed: bool)
        requires waits { Parks timed (receiver_of (Self.state self.old).log) }
        requires has { Self.has self.old None }
        ensures log { (woken : Bool) × Grows (Self.state self.old).log (Self.state self.new).log (parked woken ∷ []) }
        ensures message { (Self.state self.new).message ≡ (Self.state self.old).message }
        ensures waker { (Self.state self.new).waker ≡ (Self.state self.old).waker }
        ensures keeps { Self.keeps self.old self.new }
        ensures parks { parks timed self.old self.new };

    /// Reads the clock, and returns whether the deadline is over. A reading that fails counts as past every
    /// deadline. The first call for a timeout may reuse the reading from which its deadline was computed.
    fn over(&mut self) -> bool
        ensures log { Grows (Self.state self.old).log (Self.state self.new).log (clocked result ∷ []) }
        ensures message { (Self.state self.new).message ≡ (Self.state self.old).message }
        ensures waker { (Self.state self.new).waker ≡ (Self.state self.old).waker }
        ensures keeps { Self.keeps self.old self.new }
        ensures reads { reads result self.old self.new };

    // What it is ready for stays so, and it may give a waker again that it takes back.
    ghost has_on: { (a b : Self) (hand : Option W) → Self.keeps a b → Self.has a hand → Self.has b hand };

    ghost has_back: { (a b : Self) (waker : W) → (Self.state a).waker ≡ held waker → Self.keeps a b
        → Self.has a None → Self.has b (Some waker) };
}

/// The steps of the receiver in a poll.
pub trait TaskGround<T, W>: WaitGround<T, W> {
    // The poll's task will be polled again: it was woken, or its waker was copied.
    ghost heard: { Self → Type 0 };

    // The poll has woken its own task.
    ghost woke_own: { Self → Type 0 };

    /// Copies the task's waker, and returns the copy, which may be one that was kept. `None`: the copy was refused.
    fn copy(&mut self) -> Option<W>
        ensures log { Grows (Self.state self.old).log (Self.state self.new).log (copied result ∷ []) }
        ensures message { (Self.state self.new).message ≡ (Self.state self.old).message }
        ensures waker { (Self.state self.new).waker ≡ (Self.state self.old).waker }
        ensures heard { IfSome result (λ _. heard self.new) }
        ensures has { IfSome result (λ waker. Self.has self.new (Some waker)) }
        ensures keeps { Self.keeps self.old self.new };

    /// Wakes the poll's task with its own waker.
    fn wake_own(&mut self)
        ensures log { Grows (Self.state self.old).log (Self.state self.new).log (did WakeOwn ∷ []) }
        ensures message { (Self.state self.new).message ≡ (Self.state self.old).message }
        ensures waker { (Self.state self.new).waker ≡ (Self.state self.old).waker }
        ensures heard { heard self.new }
        ensures woken { woke_own self.new }
        ensures keeps { Self.keeps self.old self.new };

    ghost heard_on: { (a b : Self) → heard a → Self.keeps a b → heard b };
}
