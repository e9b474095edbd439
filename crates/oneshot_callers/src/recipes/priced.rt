//! A reply that names only its key. Two more recipes are for the same reply.

ghost use Rattle.std.specs.Prelude.{◌≡◌, ⊤, IfOk};

mod deadline;
mod pending;

use oneshot_asserts::assert_same;
use oneshot_channel::RecvTimeoutError;
use oneshot_channel::reply::{Answer, Request, Ticket, request};
use std::sync::Wait;
use std::time::{Clock, Duration};

/// An article, and its price in cents if it is sold.
#[derive(Debug, PartialEq, Drop)]
struct Price {
    article: u32,
    cents: Option<u64>,
}

impl Answer<u32> for Price {
    ghost asked = { λ price. price.article };

    // Each price is right for each article.
    ghost answers = { λ article price. ⊤ };

    ghost is_right = { λ price. tt };

    fn question(&self) -> &u32 {
        &self.article
    }
}

/// Waits up to ten seconds for the price of the ticket's article.
fn price_of<Rt: Wait + Clock + Drop>(
    mut ticket: Ticket<u32, Price, Rt>,
) -> Result<Price, RecvTimeoutError>
    ensures { IfOk result (λ price. price.article ≡ ticket.channel.about.question) }
{
    ticket.wait_for(Duration::from_secs(10))
}

/// Answers a request with this price. `false`: its ticket was dropped.
fn serve(request: Request<u32, Price>, cents: Option<u64>) -> bool {
    let article = *request.question();
    request.answer(Price { article, cents }).is_ok()
}

#[test]
fn a_price_names_its_article(rt: HostRuntime) {
    for (article, cents) in [(7, Some(250)), (8, None)] {
        let (request, ticket) = request(&rt, rt.alloc(), article).expect(&rt, "memory");
        let served = serve(request, cents);
        assert_same!(rt;
            (served, price_of(ticket)),
            (true, Ok(Price { article, cents }))
        );
    }
}
