// A message that is arriving (E4 7.2; 01, "Messages"): one machine for a reply to us and for a message of the far end.
ghost use Rattle.std.specs.Prelude.{◌≡◌};
ghost use Rattle.place.specs.Arriving.{arriving_from, arriving_tick, continues_arriving, kind_of};

use header::Header;
use place::{Arriving, Kind};
use settings::Terms;

// What a block says of its message.
fn kind_of(header: Header) -> Kind
    ensures { result ≡ kind_of header }
{
    Kind {
        w: header.w,
        stream: header.stream,
        function: header.function,
    }
}

// A block with E = 0 is kept, `length` data bytes in all: "With E = 0, T4 restarts."
pub(crate) fn from(header: Header, length: u16) -> Arriving
    ensures { result ≡ arriving_from header length }
{
    Arriving {
        timer: 0,
        next: u32::from(header.number) + 1,
        kind: kind_of(header),
        length,
    }
}

// 0.1 s have passed: what is left of it, or nothing, for "T4 beyond its limit breaks the message."
#[tactic(auto, unfolding(place::specs::Arriving::arriving_tick))]
pub(crate) fn tick(arriving: Arriving, terms: Terms) -> Option<Arriving>
    ensures { result ≡ arriving_tick terms arriving }
{
    let timer = terms.t4.tick(arriving.timer)?;
    Some(Arriving { timer, ..arriving })
}

// Whether a block has W, stream and function of a message.
#[tactic(auto, unfolding(place::specs::Arriving::same_kind))]
fn same_kind(kind: Kind, header: Header) -> bool
    ensures { result ≡ Rattle.place.specs.Arriving.same_kind kind header }
{
    kind.stream == header.stream && kind.function == header.function && kind.w == header.w
}

// Whether a block is the next one of a message that has device ID and system bytes of this primary.
#[tactic(auto, unfolding(place::specs::Arriving::continues_arriving))]
pub(crate) fn continues(arriving: Arriving, primary: Header, header: Header) -> bool
    ensures { result ≡ continues_arriving primary.device primary.system arriving header }
{
    primary.device == header.device
        && primary.system == header.system
        && u32::from(header.number) == arriving.next
        && same_kind(arriving.kind, header)
}
