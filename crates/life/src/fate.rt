// What becomes of a block of a message (01, "A block that goes up is judged in this order"): the same for a reply to us and for
// a message of the far end.
ghost use Rattle.std.specs.Prelude.{◌≡◌};
ghost use Rattle.place.specs.Fate.{begins_primary, begins_reply, fate_of, lacks_data, starts_message};

use header::Header;
use place::Fate;
use wire::MESSAGE_LIMIT;

// Whether the block can be a message's first: "number 1, or 0 with E = 1".
#[tactic(auto, unfolding(place::specs::Fate::starts_message))]
fn starts_message(header: Header) -> bool
    ensures { result ≡ starts_message header }
{
    header.number == 1 || header.number == 0 && header.e
}

// Whether the block can be the first of a primary: "odd function, same number rule".
#[tactic(auto, unfolding(place::specs::Fate::begins_primary))]
pub fn begins_primary(header: Header) -> bool
    ensures { result ≡ begins_primary header }
{
    header.function % 2 == 1 && starts_message(header)
}

// Whether the block can be the first of a reply.
#[tactic(auto, unfolding(place::specs::Fate::begins_reply))]
pub(crate) fn begins_reply(header: Header) -> bool
    ensures { result ≡ begins_reply header }
{
    header.function % 2 == 0 && starts_message(header)
}

// Rule 4: "E = 0, or number above 1, with no data".
#[tactic(auto, unfolding(place::specs::Fate::lacks_data))]
fn lacks_data(header: Header, size: usize) -> bool
    ensures { result ≡ lacks_data header size }
{
    size == 0 && (!header.e || 1 < header.number)
}

// Rules 4, 5 and 7 for a block with `size` data bytes, behind `have` bytes of its message that are kept.
#[tactic(auto, unfolding(place::specs::Fate::fate_of, place::specs::Fate::too_long))]
pub fn fate_of(header: Header, have: u16, size: usize) -> Fate
    ensures { result ≡ fate_of header have size }
{
    let total = usize::from(have).saturating_add(size);
    if lacks_data(header, size) {
        Fate::Empty
    } else if MESSAGE_LIMIT < total {
        Fate::TooLong
    } else if header.e {
        Fate::Last(total as u16)
    } else {
        Fate::More(total as u16)
    }
}
