// The calls on the line. Each refuses by 1, 2 and 3 before it does anything.
//
// What a call costs is how often the unit is copied. A byte or a tick at which there is nothing to do but to settle the line, as most
// are, takes a short way: past the transactions and the courier, with the line and the received bytes changed where they lie.
ghost use Rattle.std.specs.Prelude.{◌≡◌};
ghost use Rattle.link.specs.Run.{left};
ghost use Rattle.link.specs.Call.{byte_call, drained_call, tick_call};

use crate::admit::{admits, gate};
use crate::courier::settles;
use crate::state::refused;
use crate::step::{is_quiet, onward, unless_block};
use line::{Out, Remark, Step, Told};
use link::{Answer, Link, Note, Outcome};

// A byte has come.
pub fn byte(mut link: Link, b: u8, room: &mut [u8], out: &mut [u8]) -> Answer
    ensures { left result room.new out.new ≡ byte_call link b room.old out.old }
{
    if let Err(refusal) = admits(
        link.settings,
        link.line,
        link.exchange,
        link.block,
        room.len(),
        out.len(),
    ) {
        return refused(link, refusal);
    }
    let step = link.line.byte(link.settings.limits, b, &mut link.received);
    link.line = step.line;
    if is_quiet(step) {
        return settles(
            link,
            step.out,
            Outcome::Done,
            Note::Nothing,
            desk::no_flags(),
            out,
        );
    }
    unless_block(link, step, room, out)
}

// 0.1 s have passed.
pub fn tick(mut link: Link, room: &mut [u8], out: &mut [u8]) -> Answer
    ensures { left result room.new out.new ≡ tick_call link room.old out.old }
{
    if let Err(refusal) = admits(
        link.settings,
        link.line,
        link.exchange,
        link.block,
        room.len(),
        out.len(),
    ) {
        return refused(link, refusal);
    }
    let step = link.line.tick(link.settings.limits);
    link.line = step.line;
    if is_quiet(step) && clerk::is_still(link.exchange) {
        return settles(
            link,
            step.out,
            Outcome::Done,
            Note::Nothing,
            desk::no_flags(),
            out,
        );
    }
    onward(link, step, true, room, out)
}

// The last byte of our block has left the wire.
pub fn drained(mut link: Link, room: &mut [u8], out: &mut [u8]) -> Answer
    ensures { left result room.new out.new ≡ drained_call link room.old out.old }
{
    if let Err(refusal) = gate(link, room.len(), out.len()) {
        return refused(link, refusal);
    }
    link.line = link.line.drained();
    let step = Step {
        line: link.line,
        out: Out::Nothing,
        told: Told::Nothing,
        remark: Remark::Nothing,
    };
    onward(link, step, false, room, out)
}
