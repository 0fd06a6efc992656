// A call on the line, behind the device's step.
ghost use Rattle.std.specs.Prelude.{◌≡◌, ◌≤◌, length};
ghost use Rattle.cut.specs.Blocks.{most_blocks};
ghost use Rattle.link.specs.Run.{block_out, byte_onward, hearing, left};
ghost use Rattle.unit.specs.Short.{is_quiet};

use crate::answer::note_of;
use crate::courier::course;
use crate::put::put_message;
use crate::state::answers;
use crate::told::{passing, tells};
use line::{Out, Remark, Step, Told};
use link::{Answer, Link, Outcome};

// Whether the line tells and remarks nothing and puts no block out: then a byte has nothing to do but to settle the line.
pub(crate) fn is_quiet(step: Step) -> bool
    ensures { result ≡ is_quiet step.out step.told step.remark }
{
    matches!(
        step,
        Step {
            out: Out::Nothing | Out::Code(_),
            told: Told::Nothing,
            remark: Remark::Nothing,
            ..
        }
    )
}

// "EOT puts out the whole block": nothing else leaves, is judged or settles in that call. The transactions are told behind it, for the
// message that leaves is the one that they had.
fn block_out(mut link: Link, step: Step, room: &mut [u8], out: &mut [u8]) -> Answer
    requires { 257 ≤ length out.old }
    ensures { left result room.new out.new ≡ block_out link (hearing step.told step.remark link room.old) room.old out.old }
{
    let count = put_message(
        out,
        link.settings.terms.device,
        link.exchange.reports.shown,
        clerk::outgoing(link.exchange),
        link.block,
        room,
    );
    let heard = tells(link, step.told, note_of(step.remark), room);
    link.exchange = heard.exchange;
    answers(link, count, Outcome::Done, heard.note, heard.flags)
}

// The transactions are told, and the call goes on. `ticks`: whether 0.1 s pass in it.
pub(crate) fn onward(link: Link, step: Step, ticks: bool, room: &mut [u8], out: &mut [u8]) -> Answer
    requires { (257 ≤ length out.old) × (link.block ≤ most_blocks) }
    ensures { left result room.new out.new ≡ Rattle.link.specs.Run.onward step.out ticks step.told link (hearing step.told step.remark link room.old) out.old }
{
    let heard = tells(link, step.told, note_of(step.remark), room);
    let midway = passing(ticks, link.settings.terms, heard);
    course(link, step.out, step.told, midway, Outcome::Done, room, out)
}

// The same after a byte, at which the whole block may go out.
pub(crate) fn unless_block(link: Link, step: Step, room: &mut [u8], out: &mut [u8]) -> Answer
    requires { (257 ≤ length out.old) × (link.block ≤ most_blocks) }
    ensures { left result room.new out.new ≡ byte_onward step.out step.told link (hearing step.told step.remark link room.old) room.old out.old }
{
    match step.out {
        Out::Nothing | Out::Code(_) => onward(link, step, false, room, out),
        Out::Block => block_out(link, step, room, out),
    }
}
