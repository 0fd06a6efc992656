// The four own places.
ghost use Rattle.std.specs.Prelude.{◌≡◌};
ghost use Rattle.table.specs.Own.{free_own, own_at, own_put, reply_for, ticked_own};

use crate::find::{first, put_at};
use header::Header;
use life::own;
use place::Own;
use settings::Terms;

pub fn own_at(own: [Own; 4], place: usize) -> Own
    ensures { result ≡ own_at own place }
{
    own.get(place).copied().unwrap_or(own::fresh())
}

pub fn own_put(own: [Own; 4], place: usize, put: Own) -> [Own; 4]
    ensures { result ≡ own_put own place put }
{
    put_at(own, place, put)
}

// "A primary takes the lowest free own place."
#[tactic(auto, unfolding(table::specs::Own::free_own))]
pub fn free_own(own: [Own; 4]) -> Option<usize>
    ensures { result ≡ free_own own }
{
    first(own.map(own::is_free))
}

// Rule 3: the place of the reply that a block is of.
#[tactic(auto, unfolding(table::specs::Own::reply_for))]
pub fn reply_for(own: [Own; 4], header: Header) -> Option<usize>
    ensures { result ≡ reply_for own header }
{
    first(own.map(|place| own::takes(place, header)))
}

// A tick at each place.
pub fn tick_own(own: [Own; 4], terms: Terms) -> [Own; 4]
    ensures { result ≡ ticked_own terms own }
{
    own.map(|place| own::tick(place, terms))
}
