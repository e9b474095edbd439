//! Moves that are drawn from a seed.

use crate::scripts::moves_of;
use oneshot_asserts::{Asserts, assert_same};
use oneshot_replay::Move;

fn receiver(over: bool, refuse: bool) -> Move {
    Move::Receiver { over, refuse }
}

/// An endless sequence of moves, drawn from a 64-bit state other than 0.
#[derive(Drop)]
pub(crate) struct Draws {
    state: u64,
}

impl Draws {
    /// The moves drawn from `seed`.
    pub(crate) fn new(seed: u64) -> Draws {
        Draws { state: seed }
    }

    /// Draws the next move: in four of eight cases the sender's, in two the receiver's, in one the
    /// receiver's with its deadline over, and in one the receiver's with a copy refused.
    pub(crate) fn draw(&mut self) -> Move {
        self.shift();
        match self.state % 8 {
            0..=3 => Move::Sender,
            4 | 5 => receiver(false, false),
            6 => receiver(true, false),
            _ => receiver(false, true),
        }
    }

    /// Goes to the next state. A shift drops the bits that it shifts out.
    fn shift(&mut self) {
        self.state ^= self.state << 13;
        self.state ^= self.state >> 7;
        self.state ^= self.state << 17;
    }
}

/// Seeds, each with the letters of the first moves. The letters were computed by another program.
const DRAWN: &[(u64, &str); 3] = &[
    (
        1,
        "sssrrssrnorsosrsrsnrsssssrsnsrrrsrorssssssssrssossssrsrsrrssssso",
    ),
    (
        2,
        "ssssssnsrrrrrsrrnrossssrsrnsssrssnnsrssrsrorsssosnrsrsssonosrsoo",
    ),
    (
        10_000,
        "osorrssnrnsrsosrssrsnnsrsrrrsrsssonrsrssnssrrnrsoosssnonsssrrsrs",
    ),
];

#[test]
fn seeds_draw_their_moves(rt: HostRuntime) {
    for &(seed, letters) in DRAWN {
        assert_draws(&rt, seed, &moves_of(&rt, letters));
    }
}

/// Fails unless these are the first moves drawn from the seed.
fn assert_draws(rt: &impl Asserts, seed: u64, moves: &[Move]) {
    let mut draws = Draws::new(seed);
    for (place, &wanted) in moves.iter().enumerate() {
        assert_same!(rt; (seed, place, draws.draw()), (seed, place, wanted));
    }
}
