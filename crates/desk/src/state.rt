// The state at its start, and with one of its parts anew.
ghost use Rattle.std.specs.Prelude.{◌≡◌};
ghost use Rattle.exchange.specs.Exchange.{fresh_exchange, got_verdict, latest_after, put_incoming, put_own, put_replied, saved_now, sent_behind, sent_from, with_sending};

use exchange::{Exchange, Numbers, Sending};
use life::{incoming, own};
use place::{Incoming, Own};
use seek::{incoming_at, incoming_put, number_of, own_at, own_put};

// Whether a place got its verdict now.
#[tactic(auto, unfolding(exchange::specs::Exchange::got_verdict))]
pub fn got_verdict(before: Own, after: Own) -> bool
    ensures { result ≡ got_verdict before after }
{
    !own::has_verdict(before) && own::has_verdict(after)
}

// The number of the latest own transaction to get a verdict, once this place went from `before` to `after`.
#[tactic(auto, unfolding(exchange::specs::Exchange::latest_after))]
pub fn latest_after(latest: u16, before: Own, after: Own) -> u16
    ensures { result ≡ latest_after latest before after }
{
    if got_verdict(before, after) {
        number_of(after)
    } else {
        latest
    }
}

// No place is in use. `last` is the last transaction number given before the start, 0 if none is kept.
pub fn fresh(last: u16) -> Exchange
    ensures { result ≡ fresh_exchange last }
{
    Exchange {
        own: [own::fresh(); 4],
        incoming: [incoming::fresh(); 4],
        saved: None,
        numbers: Numbers { last, latest: 0 },
        sending: Sending::Nothing,
        reports: reports::none(),
    }
}

// An own place is put anew.
#[tactic(auto, unfolding(exchange::specs::Exchange::put_own))]
pub fn put_own(exchange: Exchange, place: usize, after: Own) -> Exchange
    ensures { result ≡ put_own exchange place after }
{
    let before = own_place(exchange, place);
    Exchange {
        own: own_put(exchange.own, place, after),
        numbers: Numbers {
            latest: latest_after(exchange.numbers.latest, before, after),
            ..exchange.numbers
        },
        ..exchange
    }
}

// An incoming place is put anew.
#[tactic(auto, unfolding(exchange::specs::Exchange::put_incoming))]
pub fn put_incoming(exchange: Exchange, place: usize, after: Incoming) -> Exchange
    ensures { result ≡ put_incoming exchange place after }
{
    Exchange {
        incoming: incoming_put(exchange.incoming, place, after),
        ..exchange
    }
}

// Another message is being sent, or none.
#[tactic(auto, unfolding(exchange::specs::Exchange::with_sending))]
pub fn with_sending(exchange: Exchange, sending: Sending) -> Exchange
    ensures { result ≡ with_sending exchange sending }
{
    Exchange {
        sending,
        ..exchange
    }
}

// Whether the message being sent is the primary of this place.
fn sent_from(sending: Sending, place: usize) -> bool
    ensures { result ≡ sent_from sending place }
{
    matches!(sending, Sending::Primary { place: from, .. } if from == place)
}

// What is being sent once a block of the reply in this place has come: its primary no more, for it was received.
#[tactic(auto, unfolding(exchange::specs::Exchange::sent_behind))]
fn sent_behind(sending: Sending, place: usize) -> Sending
    ensures { result ≡ sent_behind sending place }
{
    if sent_from(sending, place) {
        Sending::Nothing
    } else {
        sending
    }
}

// An own place is put anew by a block of its reply.
#[tactic(auto, unfolding(exchange::specs::Exchange::put_replied))]
pub fn put_replied(exchange: Exchange, place: usize, after: Own) -> Exchange
    ensures { result ≡ put_replied exchange place after }
{
    with_sending(
        put_own(exchange, place, after),
        sent_behind(exchange.sending, place),
    )
}

// Rule 2: "Otherwise the header is saved, even if the block is thrown out below."
#[tactic(auto, unfolding(exchange::specs::Exchange::saved_now))]
pub fn with_saved(exchange: Exchange, header: [u8; 10]) -> Exchange
    ensures { result ≡ saved_now exchange header }
{
    Exchange {
        saved: Some(header),
        ..exchange
    }
}

pub fn own_place(exchange: Exchange, place: usize) -> Own
    ensures { result ≡ Rattle.exchange.specs.Exchange.own_place exchange place }
{
    own_at(exchange.own, place)
}

pub fn incoming_place(exchange: Exchange, place: usize) -> Incoming
    ensures { result ≡ Rattle.exchange.specs.Exchange.incoming_place exchange place }
{
    incoming_at(exchange.incoming, place)
}
