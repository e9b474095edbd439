//! The law of the world's steps on which every exploration of its runs rests.

ghost use Rattle.oneshot_world.specs.Commutes.{TurnsCommute};

/// Does nothing. Its contract states that a step does the same if wakers and polls are known only by
/// their classes, whatever the classes.
pub fn turns_commute()
    ensures { TurnsCommute }
{}
