// Whether the numbers of a state are in the ranges of docs/STATE.md: the transactions' part of refusal 3.
ghost use Rattle.std.specs.Prelude.{◌≡◌};
ghost use Rattle.exchange.specs.Range.{exchange_in_range, incomings_in_range, owns_in_range, sending_in_range};

use exchange::{Exchange, Sending};
use place::{Incoming, Own};
use wire::MESSAGE_LIMIT;

#[tactic(auto, unfolding(exchange::specs::Range::owns_in_range))]
fn owns_in_range(own: [Own; 4]) -> bool
    ensures { result ≡ owns_in_range own }
{
    own.iter().all(|place| life::own_in_range(*place))
}

#[tactic(auto, unfolding(exchange::specs::Range::incomings_in_range))]
fn incomings_in_range(incoming: [Incoming; 4]) -> bool
    ensures { result ≡ incomings_in_range incoming }
{
    incoming.iter().all(|place| life::incoming_in_range(*place))
}

// The place of the message being sent is one of four, and its data fits the send area.
#[tactic(auto, unfolding(exchange::specs::Range::message_in_range))]
fn message_in_range(place: usize, length: u16) -> bool
    ensures { result ≡ Rattle.exchange.specs.Range.message_in_range place length }
{
    place <= 3 && usize::from(length) <= MESSAGE_LIMIT
}

fn sending_in_range(sending: Sending) -> bool
    ensures { result ≡ sending_in_range sending }
{
    match sending {
        Sending::Nothing | Sending::Report { .. } => true,
        Sending::Primary { place, length } | Sending::Reply { place, length, .. } => {
            message_in_range(place, length)
        }
    }
}

#[tactic(auto, unfolding(exchange::specs::Range::exchange_in_range))]
pub fn in_range(exchange: Exchange) -> bool
    ensures { result ≡ exchange_in_range exchange }
{
    owns_in_range(exchange.own)
        && incomings_in_range(exchange.incoming)
        && sending_in_range(exchange.sending)
        && reports::in_range(exchange.reports)
}
