//! Numbers drawn from a seed.

ghost use Rattle.std.specs.Prelude.{◌<◌, length};

/// An endless sequence of numbers, drawn from a 64-bit state other than 0.
#[derive(Drop)]
pub(super) struct Draws {
    state: u64,
}

impl Draws {
    /// The numbers drawn from `seed`.
    pub(super) fn new(seed: u64) -> Draws {
        Draws { state: seed }
    }

    /// Draws a number below `bound`, or 0 if `bound` is 0.
    pub(super) fn below(&mut self, bound: usize) -> usize
        ensures { 0 < bound → result < bound }
    {
        self.shift();
        if bound == 0 {
            return 0;
        }
        self.state as usize % bound
    }

    /// Draws one of `items`.
    pub(super) fn one_of<T: Copy>(&mut self, items: &[T]) -> T
        requires { 0 < length items.now }
    {
        items[self.below(items.len())]
    }

    /// Goes to the next state. A shift drops the bits that it shifts out.
    fn shift(&mut self) {
        self.state ^= self.state << 13;
        self.state ^= self.state >> 7;
        self.state ^= self.state << 17;
    }
}
