// The courier between the transactions and the line, and behind it the end of a call: the line settles.
ghost use Rattle.std.specs.Prelude.{◌≡◌, ◌≤◌, length};
ghost use Rattle.cut.specs.Blocks.{most_blocks};
ghost use Rattle.link.specs.Courier.{courier_of, goes_on};
ghost use Rattle.link.specs.Run.{left};
ghost use Rattle.unit.specs.Settle.{settled_as, settled_out};

use crate::put::put_codes;
use crate::state::answers;
use exchange::{Flags, Sending};
use line::{Line, Out, Told};
use link::{Answer, Carried, Link, Midway, Note, Outcome};

// "ACK means sent; the message's next block goes out with ENQ in the same call."
fn goes_on(told: Told, line: Line, block: u16) -> Carried
    requires { block ≤ most_blocks }
    ensures { result ≡ goes_on told line block }
{
    match told {
        Told::Sent => Carried {
            line: line.ask(),
            block: block + 1,
        },
        Told::Nothing | Told::PutOut | Told::Failed | Told::Up(_) => Carried { line, block },
    }
}

// What is being sent before a call and after it is compared: a message that began is asked for from its first block, also a report that
// starts as a message ends; one that goes on has its next block asked for behind an ACK, one that is gone is withdrawn from the line.
// Where nothing changes and nothing is told nothing is done, so that a call may leave the courier out (call.rt). The room is lent for what
// is to be sent; nothing is read yet.
fn courier(
    before: Sending,
    after: Sending,
    told: Told,
    line: Line,
    block: u16,
    room: &[u8],
) -> Carried
    requires { block ≤ most_blocks }
    ensures { result ≡ courier_of before after told line block room.now }
{
    let was = desk::is_message(before);
    let is = desk::is_message(after);
    if was && is && desk::same_message(before, after) {
        return goes_on(told, line, block);
    }
    if is {
        return Carried {
            line: line.ask(),
            block: 1,
        };
    }
    if was {
        return Carried {
            line: line.withdraw(),
            block: 1,
        };
    }
    Carried { line, block }
}

// The last step of every call that is not refused, and the only place at which the line settles. `put` is what its step put out.
pub(crate) fn settles(
    mut link: Link,
    put: Out,
    outcome: Outcome,
    note: Note,
    flags: Flags,
    out: &mut [u8],
) -> Answer
    requires { 257 ≤ length out.old }
    ensures { (result ≡ settled_as link put outcome note flags) × (out.new ≡ settled_out link put out.old) }
{
    let end = link.line.settle();
    link.line = end.line;
    let count = put_codes(out, put, end.out);
    answers(link, count, outcome, note, flags)
}

// From the transactions on: the courier, and the line settles. `link` is the unit as the device's step left it, which put `put` out and
// told `told`.
pub(crate) fn course(
    mut link: Link,
    put: Out,
    told: Told,
    midway: Midway,
    outcome: Outcome,
    room: &[u8],
    out: &mut [u8],
) -> Answer
    requires { (257 ≤ length out.old) × (link.block ≤ most_blocks) }
    ensures { left result room.now out.new ≡ Rattle.link.specs.Run.course link put told midway outcome room.now out.old }
{
    let carried = courier(
        link.exchange.sending,
        midway.exchange.sending,
        told,
        link.line,
        link.block,
        room,
    );
    link.line = carried.line;
    link.exchange = midway.exchange;
    link.block = carried.block;
    settles(link, put, outcome, midway.note, midway.flags, out)
}
