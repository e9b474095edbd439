//! What the scheduler may see of a run beside its operations and replies.

/// The faults of a run: how the word of each begins, and what it means.
const FAULTS: &[(&str, &str)] = &[
    // An end reaches a block that is freed.
    ("!freed", "a freed block is accessed"),
    // A block is freed that is freed already.
    ("!freed-twice", "a block is freed twice"),
    // The address that is freed is within a block.
    ("!freed-inside", "a block is freed from its middle"),
    // Nothing has freed a block when the program is done.
    ("!left", "a block is left"),
    // A call asks for memory.
    ("!allocates", "a call allocates"),
    // Two accesses, one of them a write, are not ordered by the operations.
    ("!race", "two accesses race"),
    // The program ended before its last word.
    ("!died", "the program died"),
    // The scheduler cannot go on.
    ("!tool", "the scheduler gave up"),
];

/// Reads the word of a fault, which ends with the place, and returns what it means; `None` if the scheduler has no
/// such fault.
pub(crate) fn fault_of(word: &str) -> Option<&'static str> {
    let (name, _) = word.split_once(':')?;
    for (begin, fault) in FAULTS {
        if name == *begin {
            return Some(*fault);
        }
    }
    None
}
