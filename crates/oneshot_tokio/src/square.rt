//! The answer of every request of this program: the square of a number.

ghost use Rattle.std.specs.Prelude.{◌≡◌, ◌*◌};

use oneshot_channel::reply::Answer;

/// A number and its square.
#[derive(Drop)]
pub struct Square {
    /// The number.
    pub root: u32,
    /// Its square.
    pub value: u64,
    ghost squared: { value ≡ root * root },
}

impl Square {
    /// Squares `root`.
    pub fn of(root: u32) -> Square
        ensures { result.root ≡ root }
    {
        let value = u64::from(root) * u64::from(root);
        Square { root, value }
    }
}

impl Answer<u32> for Square {
    ghost use Rattle.std.specs.Prelude.{◌≡◌, ◌*◌};

    ghost asked = { λ square. square.root };

    ghost answers = { λ root square. square.value ≡ root * root };

    ghost is_right = { λ square. square.squared };

    fn question(&self) -> &u32 {
        &self.root
    }
}
