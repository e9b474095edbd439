//! A table of the requests that wait for a reply.

ghost use Rattle.std.specs.Prelude.{◌≡◌, ◌≢◌, ℕ, None, IfOk, IfSome};
ghost use Rattle.std.specs.Ordering.{nat_cmp};
ghost use Rattle.std.specs.BTreeMap.{get};

use super::Price;
use oneshot_asserts::assert_same;
use oneshot_channel::TryRecvError;
use oneshot_channel::reply::{Request, Ticket, request};
use std::alloc::{AllocError, Global};
use std::collections::BTreeMap;

/// The requests that wait for a reply, by the article that each asks for.
type Pending = BTreeMap<u32, Request<u32, Price>>;

/// Asks for the price of an article. An older request for it is dropped.
fn ask<Rt: Drop>(
    rt: Rt,
    alloc: Global,
    pending: &mut Pending,
    article: u32,
) -> Result<Ticket<u32, Price, Rt>, AllocError>
    ensures { IfOk result (λ ticket. ticket.channel.about.question ≡ article) }
{
    let (request, ticket) = request(rt, alloc, article).map_err(|_| AllocError)?;
    pending.insert(article, request)?;
    Ok(ticket)
}

/// Sends a price to the ticket that waits for it. `false`: no ticket does.
fn settle(pending: &mut Pending, price: Price) -> bool
    ensures taken { get nat_cmp pending.new price.article ≡ None }
    ensures others { (other : ℕ) → other ≢ price.article
        → get nat_cmp pending.new other ≡ get nat_cmp pending.old other }
{
    match pending.remove(&price.article) {
        Some(request) if request.fits(&price) => request.answer(price).is_ok(),
        _ => false,
    }
}

#[test]
fn each_price_reaches_its_ticket(rt: HostRuntime) {
    let mut pending = BTreeMap::new(rt.alloc());
    let mut seven = ask((), rt.alloc(), &mut pending, 7).expect(&rt, "memory");
    let mut eight = ask((), rt.alloc(), &mut pending, 8).expect(&rt, "memory");
    assert!(rt; settle(&mut pending, price(8, 90)));
    assert_same!(rt; seven.try_take(), Err(TryRecvError::Empty));
    assert_same!(rt; settle_others(&mut pending), (true, false, false));
    assert_same!(rt; pending.len(), 0);
    assert_same!(rt; seven.try_take(), Ok(price(7, 250)));
    assert_same!(rt; eight.try_take(), Ok(price(8, 90)));
}

/// Sends a price, another one for the same article, and one that nobody asked for.
fn settle_others(pending: &mut Pending) -> (bool, bool, bool) {
    let second = settle(pending, price(7, 250));
    let again = settle(pending, price(7, 251));
    let unasked = settle(pending, price(9, 10));
    (second, again, unasked)
}

fn price(article: u32, cents: u64) -> Price {
    Price {
        article,
        cents: Some(cents),
    }
}
