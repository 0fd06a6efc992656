// Requests: open a primary, reply, release (01, "Messages").
ghost use Rattle.std.specs.Prelude.{◌≡◌, ◌≤◌, cond, length};
ghost use Rattle.cut.specs.Blocks.{most_blocks};
ghost use Rattle.link.specs.Run.{left};
ghost use Rattle.link.specs.State.{link_in_range, refused_as};
ghost use Rattle.link.specs.declared.Refusal.TheVariants;
ghost use Rattle.link.specs.Call.{requested_by, frees, open_call, release_incoming_call, release_own_call, reply_call};

use crate::admit::{gate, in_range};
use crate::courier::course;
use crate::state::{answers, refused};
use crate::told::untold;
use exchange::{Primary, Requested};
use line::{Out, Told};
use link::{Answer, Link, Note, Outcome, Refusal};

// A message that was accepted is to be sent: the courier asks for its first block.
fn asks(link: Link, requested: Requested, room: &[u8], out: &mut [u8]) -> Answer
    requires { (257 ≤ length out.old) × (link.block ≤ most_blocks) }
    ensures { left result room.now out.new ≡ requested_by requested.asked link requested.exchange room.now out.old }
{
    match requested.asked {
        Ok(place) => {
            course(
                link,
                Out::Nothing,
                Told::Nothing,
                untold(requested.exchange, Note::Nothing),
                Outcome::Taken(place),
                room,
                out,
            )
        }
        Err(refusal) => refused(link, Refusal::Request(refusal)),
    }
}

// Opens a primary.
pub fn open(link: Link, primary: Primary, data: &[u8], room: &mut [u8], out: &mut [u8]) -> Answer
    ensures { left result room.new out.new ≡ open_call link primary «data».now room.old out.old }
{
    if let Err(refusal) = gate(link, room.len(), out.len()) {
        return refused(link, refusal);
    }
    let requested = clerk::open(link.exchange, link.settings.terms, primary, data, room);
    asks(link, requested, room, out)
}

// Replies to the message in an incoming place. The stream is the primary's.
pub fn reply(
    link: Link,
    place: usize,
    function: u8,
    data: &[u8],
    room: &mut [u8],
    out: &mut [u8],
) -> Answer
    ensures { left result room.new out.new ≡ reply_call link place function «data».now room.old out.old }
{
    if let Err(refusal) = gate(link, room.len(), out.len()) {
        return refused(link, refusal);
    }
    let requested = clerk::reply(link.exchange, place, function, data, room);
    asks(link, requested, room, out)
}

// A release, which the transactions answer with `requested`: the line has no part in it. It is refused by 3 before anything is done.
fn freed(mut link: Link, requested: Requested) -> Answer
    ensures { result ≡ cond (link_in_range link) (frees link requested) (refused_as link Rattle.link.specs.declared.Refusal.TheVariants.State) }
{
    if !in_range(link) {
        return refused(link, Refusal::State);
    }
    match requested.asked {
        Ok(place) => {
            link.exchange = requested.exchange;
            answers(
                link,
                0,
                Outcome::Taken(place),
                Note::Nothing,
                desk::no_flags(),
            )
        }
        Err(refusal) => refused(link, Refusal::Request(refusal)),
    }
}

// Releases an own place that has its verdict.
#[tactic(auto, unfolding(link::specs::Call::free_call))]
pub fn release_own(link: Link, place: usize) -> Answer
    ensures { result ≡ release_own_call link place }
{
    freed(link, clerk::release_own(link.exchange, place))
}

// Releases an incoming place whose message is complete and has no reply on its way.
#[tactic(auto, unfolding(link::specs::Call::free_call))]
pub fn release_incoming(link: Link, place: usize) -> Answer
    ensures { result ≡ release_incoming_call link place }
{
    freed(link, clerk::release_incoming(link.exchange, place))
}
