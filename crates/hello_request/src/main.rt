//! Sends a request to a server, and waits up to a minute for the reply, which is proved to be the requested square.
#![tactic(auto)]

ghost use Rattle.std.specs.Prelude.{◌≡◌, ◌*◌, IfOk};

use oneshot_channel::RecvTimeoutError;
use oneshot_channel::reply::{Answer, Request, Ticket, request};
use std::alloc::AllocError;
use std::io;
use std::sync::Wait;
use std::thread::join;
use std::time::{Clock, Duration};

/// The square of a number, and that number.
#[derive(Drop)]
struct Square {
    root: u32,
    value: u64,
    ghost squared: { value ≡ root * root },
}

impl Answer<u32> for Square {
    ghost asked = { λ square. square.root };

    ghost answers = { λ root square. square.value ≡ root * root };

    ghost is_right = { λ square. square.squared };

    fn question(&self) -> &u32 {
        &self.root
    }
}

/// Answers a request with the square of its number.
fn serve(request: Request<u32, Square>) {
    let root = *request.question();
    let value = u64::from(root) * u64::from(root);
    // If the ticket is gone, nobody needs the answer.
    let _ = request.answer(Square { root, value });
}

/// Waits up to a minute for the square of the ticket's number.
fn square_of<Rt: Wait + Clock + Drop>(
    mut ticket: Ticket<u32, Square, Rt>,
) -> Result<u64, RecvTimeoutError>
    ensures { IfOk result (λ value. value ≡ ticket.channel.about.question * ticket.channel.about.question) }
{
    Ok(ticket.wait_for(Duration::from_secs(60))?.value)
}

fn main(rt: HostRuntime) -> io::Result<()> {
    let (request, ticket) = request(&rt, rt.alloc(), 12).map_err(|_| AllocError)?;
    let (square, ()) = join(&rt, || square_of(ticket), || serve(request));
    match square {
        Ok(square) => println!(rt; "the square is {square}"),
        Err(error) => println!(rt; "{error}"),
    }
}
