// Makes the calls of a line (01, "Bench program and proved table"): "`B` and `T` make many calls: outputs joined, last call's number and
// note". Each call writes behind what the calls before it put out.
ghost use Rattle.std.specs.Prelude.{◌≡◌, ◌≤◌, length};
ghost use Rattle.talk.specs.Run.{byte_run, bytes_run, joined_ran, nothing_ran, running, tick_run, ticks_run};

use link::{Answer, Link};
use talk::Ran;

// No call was made: "a zero count prints `0 - 20`".
fn nothing(link: Link) -> Ran
    ensures { result ≡ nothing_ran link }
{
    Ran {
        link,
        number: 0,
        note: 20,
        count: 0,
    }
}

// After one call more. `before` is how many bytes the calls before it put out.
pub(crate) fn joined(before: usize, answer: Answer) -> Ran
    requires { (before ≤ 4096) × (answer.count ≤ 4096) }
    ensures { result ≡ joined_ran before answer }
{
    Ran {
        link: answer.link,
        number: unit::outcome_number(answer.outcome),
        note: unit::note_number(answer.note),
        count: before + answer.count,
    }
}

fn byte(ran: Ran, b: u8, room: &mut [u8], out: &mut [u8]) -> Ran
    requires { (ran.count ≤ length out.old) × (length out.old ≤ 4096) }
    ensures { running result room.new out.new ≡ byte_run (running ran room.old out.old) b }
{
    let answer = unit::byte(ran.link, b, room, &mut out[ran.count..]);
    joined(ran.count, answer)
}

fn tick(ran: Ran, room: &mut [u8], out: &mut [u8]) -> Ran
    requires { (ran.count ≤ length out.old) × (length out.old ≤ 4096) }
    ensures { running result room.new out.new ≡ tick_run (running ran room.old out.old) }
{
    let answer = unit::tick(ran.link, room, &mut out[ran.count..]);
    joined(ran.count, answer)
}

// `B`: one call for each byte.
pub(crate) fn bytes(link: Link, bytes: &[u8], room: &mut [u8], out: &mut [u8; 4096]) -> Ran
    ensures { running result room.new out.new ≡ bytes_run (running (nothing_ran link) room.old out.old) bytes.now }
{
    let mut ran = nothing(link);
    for &b in bytes {
        ran = byte(ran, b, room, out);
    }
    ran
}

// `T`: one call for each tick.
pub(crate) fn ticks(link: Link, count: u32, room: &mut [u8], out: &mut [u8; 4096]) -> Ran
    ensures { running result room.new out.new ≡ ticks_run (running (nothing_ran link) room.old out.old) count }
{
    let mut ran = nothing(link);
    for done in 0..count {
        ran = tick(ran, room, out);
    }
    ran
}
