// The four incoming places.
ghost use Rattle.std.specs.Prelude.{◌≡◌};
ghost use Rattle.table.specs.Incoming.{free_incoming, incoming_at, incoming_put, message_for, open_alike, ticked_incoming};

use crate::find::{first, put_at};
use header::Header;
use life::incoming;
use place::Incoming;
use settings::Terms;

pub fn incoming_at(incoming: [Incoming; 4], place: usize) -> Incoming
    ensures { result ≡ incoming_at incoming place }
{
    incoming.get(place).copied().unwrap_or(incoming::fresh())
}

pub fn incoming_put(incoming: [Incoming; 4], place: usize, put: Incoming) -> [Incoming; 4]
    ensures { result ≡ incoming_put incoming place put }
{
    put_at(incoming, place, put)
}

// Rule 6: "the lowest free incoming place".
#[tactic(auto, unfolding(table::specs::Incoming::free_incoming))]
pub fn free_incoming(incoming: [Incoming; 4]) -> Option<usize>
    ensures { result ≡ free_incoming incoming }
{
    first(incoming.map(incoming::is_free))
}

// Rule 3: the place of the open message that a block continues.
#[tactic(auto, unfolding(table::specs::Incoming::message_for))]
pub fn message_for(incoming: [Incoming; 4], header: Header) -> Option<usize>
    ensures { result ≡ message_for incoming header }
{
    first(incoming.map(|place| incoming::takes(place, header)))
}

// Whether a place has an open message with these system bytes.
#[tactic(auto, unfolding(table::specs::Incoming::alike))]
fn alike(place: Incoming, header: Header) -> bool
    ensures { result ≡ Rattle.table.specs.Incoming.alike header place }
{
    incoming::is_open(place) && incoming::primary(place).system == header.system
}

// Rule 6: the place of an open message with the system bytes of a new one.
#[tactic(auto, unfolding(table::specs::Incoming::open_alike))]
pub fn open_alike(incoming: [Incoming; 4], header: Header) -> Option<usize>
    ensures { result ≡ open_alike incoming header }
{
    first(incoming.map(|place| alike(place, header)))
}

// A tick at each place. The places are named: `map` moves an incoming one to and fro, which doubles what a tick costs.
pub fn tick_incoming(incoming: [Incoming; 4], terms: Terms) -> [Incoming; 4]
    ensures { result ≡ ticked_incoming terms incoming }
{
    let [a, b, c, d] = incoming;
    [
        incoming::tick(a, terms),
        incoming::tick(b, terms),
        incoming::tick(c, terms),
        incoming::tick(d, terms),
    ]
}
