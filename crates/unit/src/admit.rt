// Refusals 1 to 3, which every call that is lent room and output gives before any other.
//
// `byte` and `tick` hand the parts of the unit over one by one: what they are read for does not need the received bytes, and a copy of
// the whole unit is what a call costs.
ghost use Rattle.std.specs.Prelude.{◌≡◌};
ghost use Rattle.link.specs.State.{gate_of, link_in_range, parts_of};

use crate::setup::settings_in_range;
use exchange::Exchange;
use line::Line;
use link::{Link, Refusal, Settings};

// Whether every number is in its range (docs/STATE.md).
#[tactic(auto, unfolding(link::specs::State::link_in_range, settings::specs::Panel::between))]
fn fits(settings: Settings, line: Line, exchange: Exchange, block: u16) -> bool
    ensures { result ≡ link_in_range (parts_of settings line exchange block) }
{
    1 <= block
        && block <= cut::MOST_BLOCKS
        && settings_in_range(settings)
        && line.in_range()
        && desk::in_range(exchange)
}

// `room` and `out` are how many bytes of each are lent.
#[tactic(auto, unfolding(link::specs::State::gate_of, link::specs::State::output_short, link::specs::State::room_fits))]
pub(crate) fn admits(
    settings: Settings,
    line: Line,
    exchange: Exchange,
    block: u16,
    room: usize,
    out: usize,
) -> Result<(), Refusal>
    ensures { result ≡ gate_of (parts_of settings line exchange block) room out }
{
    if out < 257 {
        return Err(Refusal::OutputShort);
    }
    if room != 36864 {
        return Err(Refusal::RoomSize);
    }
    if fits(settings, line, exchange, block) {
        return Ok(());
    }
    Err(Refusal::State)
}

// The same of a whole unit, where a copy of it does not matter.
#[tactic(auto, unfolding(link::specs::State::gate_of, link::specs::State::link_in_range))]
pub(crate) fn gate(link: Link, room: usize, out: usize) -> Result<(), Refusal>
    ensures { result ≡ gate_of link room out }
{
    admits(
        link.settings,
        link.line,
        link.exchange,
        link.block,
        room,
        out,
    )
}

// And for a call that is lent no memory.
#[tactic(auto, unfolding(link::specs::State::link_in_range))]
pub(crate) fn in_range(link: Link) -> bool
    ensures { result ≡ link_in_range link }
{
    fits(link.settings, link.line, link.exchange, link.block)
}
