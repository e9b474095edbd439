//! The copies of wakers that a future keeps outside its channel, each with the number of its task.

ghost use Rattle.std.specs.Prelude.{◌≡◌, ◌≢◌, true, false, None, Some, MatchOption, IfSome, IfNone};

/// A copy of a waker, with the number that its task has in its queue.
#[derive(Drop)]
pub(crate) struct TaskCopy<K> {
    waker: K,
    task: usize,
}

/// The copies of wakers that are not in the channel.
///
/// Dropping a waker wakes its task. So a copy that the channel gives back is kept, and reused when the same
/// task polls again: otherwise each poll would wake its own task.
#[derive(Drop)]
pub(crate) struct Copies<K> {
    // The copy that was made, or a spare one.
    hand: Option<TaskCopy<K>>,
    // A copy that came back while another was in hand.
    spare: Option<TaskCopy<K>>,
    // The number of the task whose copy is in the channel.
    stored: usize,
}

impl<K: Drop> Copies<K> {
    /// No copy: none in hand, none spare, and none in the channel.
    pub(crate) fn new() -> Copies<K>
        ensures { (result.hand ≡ None) × (result.spare ≡ None) }
    {
        Copies {
            hand: None,
            spare: None,
            stored: 0,
        }
    }

    /// Takes the copy in hand, if its task has the number `task`.
    ///
    /// - `Some`: that copy. Then none is in hand.
    /// - `None`: no copy is in hand, or another task's is, and stays there: taken, it would hide a refusal.
    ///
    /// Tasks of two executors may have the same number, and no library call distinguishes them.
    pub(crate) fn take_of(&mut self, task: usize) -> Option<K>
        ensures taken { IfSome result (λ waker.
            self.old.hand ≡ Some (record { waker = waker; task = task })) }
        ensures left { IfSome result (λ _. self.new ≡ record self.old { hand = None }) }
        ensures stays { IfNone result (self.new ≡ self.old) }
        ensures others { IfNone result (IfSome self.old.hand (λ copy. copy.task ≢ task)) }
    {
        match self.hand.take() {
            Some(copy) if copy.task == task => Some(copy.waker),
            other => {
                self.hand = other;
                None
            }
        }
    }

    /// Puts `made`, a copy for the task numbered `task`, in hand. A copy that was there is dropped, which
    /// wakes its task. `false`: none was made, and nothing changes.
    pub(crate) fn keep_made(&mut self, task: usize, made: Option<K>) -> bool
        ensures { MatchOption made ((result ≡ false) × (self.new ≡ self.old)) (λ waker. (result ≡ true)
            × (self.new ≡ record self.old { hand = Some (record { waker = waker; task = task }) })) }
    {
        match made {
            Some(waker) => {
                self.hand = Some(TaskCopy { waker, task });
                true
            }
            None => false,
        }
    }

    /// Returns the copy in hand, for the channel, and puts the spare one in hand. `None`: none was in hand.
    pub(crate) fn give(&mut self) -> Option<K>
        ensures given { MatchOption self.old.hand ((result ≡ None) × (self.new.stored ≡ self.old.stored))
            (λ copy. (result ≡ Some copy.waker) × (self.new.stored ≡ copy.task)) }
        ensures hand { self.new.hand ≡ self.old.spare }
        ensures spare { self.new.spare ≡ None }
    {
        let given = self.hand.take();
        self.hand = self.spare.take();
        let TaskCopy { waker, task } = given?;
        self.stored = task;
        Some(waker)
    }

    /// Keeps `waker`, which the channel gave back: in hand if that is empty, else as the spare one.
    pub(crate) fn take_back(&mut self, waker: K)
        ensures { MatchOption self.old.hand
            (self.new ≡ record self.old { hand = Some (record { waker = waker; task = self.old.stored }) })
            (λ _. self.new ≡ record self.old { spare = Some (record { waker = waker; task = self.old.stored }) }) }
    {
        let copy = Some(TaskCopy {
            waker,
            task: self.stored,
        });
        if self.hand.is_none() {
            self.hand = copy;
        } else {
            self.spare = copy;
        }
    }
}
