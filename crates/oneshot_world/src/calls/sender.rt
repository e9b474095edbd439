//! The calls left to the sender, or to the error of its refused `send`.

ghost use Rattle.std.specs.Prelude.{◌≡◌, []};
ghost use Rattle.std.specs.Option.{option_and_then};
ghost use Rattle.oneshot_machine.specs.declared.machine.End.TheVariants as Ends;
ghost use Rattle.oneshot_world.specs.Calls.{first, rest, left_by, as_sender_call};
ghost use Rattle.oneshot_world.specs.Scripts.{sender_calls, error_script, error_calls};
ghost use Rattle.oneshot_world.specs.Looks.{looks_left};

use crate::script::{ErrorLast, ErrorScript, SenderLast, SenderScript};
use oneshot_machine::machine::{Reply, SenderCall};
use std::marker::Model;

/// What is left of a script: so many looks, and then a last call.
#[derive(Clone, Copy)]
struct Looks {
    look: SenderCall,
    looks: usize,
    last: Option<SenderCall>,
}

impl Looks {
    /// The call under way or the next one; `None` if none is left.
    fn first(&self) -> Option<SenderCall>
        ensures { result ≡ option_and_then as_sender_call (first (looks_left self.now)) }
    {
        if self.looks > 0 {
            Some(self.look)
        } else {
            self.last
        }
    }

    /// What is left once that call has replied.
    fn answered(self) -> Looks
        ensures { looks_left result ≡ rest (looks_left self) }
    {
        if self.looks > 0 {
            Looks {
                look: self.look,
                looks: self.looks - 1,
                last: self.last,
            }
        } else {
            Looks {
                look: self.look,
                looks: 0,
                last: None,
            }
        }
    }
}

/// The calls left to the sender, the one under way first, and those of the error of a refused `send`.
#[derive(Drop)]
pub(crate) struct SenderCalls {
    left: Looks,
    error: Looks,
}

impl Model for SenderCalls {
    ghost use Rattle.oneshot_world.specs.Calls.{Unanswered};
    ghost use Rattle.oneshot_world.specs.Looks.{looks_left};

    ghost Value = { Unanswered };

    ghost view = { λ c. record { calls = looks_left c.left; error = looks_left c.error } };
}

impl SenderCalls {
    /// All calls of `script`.
    pub(crate) fn new<T>(script: &SenderScript<T>) -> SenderCalls
        ensures calls { result.calls ≡ sender_calls script.now }
        ensures error { result.error ≡ error_calls script.now.last }
    {
        let (last, error) = match &script.last {
            SenderLast::Send(_, error) => (Some(SenderCall::Send), error_looks(error)),
            SenderLast::Drop => (Some(SenderCall::Drop), no_error()),
            SenderLast::Stop => (None, no_error()),
        };
        let left = Looks {
            look: SenderCall::IsClosed,
            looks: script.looks,
            last,
        };
        SenderCalls { left, error }
    }

    /// The call under way or the next one; `None` if none is left.
    pub(crate) fn first(&self) -> Option<SenderCall>
        ensures { result ≡ option_and_then as_sender_call (first self.now.calls) }
    {
        self.left.first()
    }

    /// Removes that call if a step of it gave a `reply`. After a refused `send` the error's calls are left.
    pub(crate) fn advance(&mut self, reply: Option<Reply>)
        ensures { self.new ≡ left_by Ends.Sender reply self.old }
    {
        match reply {
            None => {}
            Some(Reply::Refused) => self.left = self.error,
            Some(_) => self.left = self.left.answered(),
        }
    }
}

/// The calls of an error.
fn error_looks(script: &ErrorScript) -> Looks
    ensures { looks_left result ≡ error_script script.now }
{
    Looks {
        look: SenderCall::AsInner,
        looks: script.looks,
        last: match script.last {
            ErrorLast::IntoInner => Some(SenderCall::IntoInner),
            ErrorLast::Drop => Some(SenderCall::DropError),
            ErrorLast::Stop => None,
        },
    }
}

/// No calls: a script that sends nothing has no error.
fn no_error() -> Looks
    ensures { looks_left result ≡ [] }
{
    Looks {
        look: SenderCall::AsInner,
        looks: 0,
        last: None,
    }
}
