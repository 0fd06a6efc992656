// The line by itself: `L ROLE T1 T2 RTY CALLS ..`, a run of calls on a line that is fresh.
//
// ROLE is H, the host, which is the slave, or E, the equipment, which is the master (E4 5.5). T1, T2 and RTY are as on the
// panel. Each CALLS is a field by itself:
//
//   A       a block is to be sent
//   D       drained
//   T100    so many ticks
//   050A    so many bytes in, two hex digits each
//
// Each ask, drained, tick and byte is a call, and ends as a call of the unit does: the line settles. There is nothing above
// the line: what goes up is not judged, and no next block is asked for but by `A`.
//
// It prints 4, and nothing of the calls, if a setting is out of its range. Else it prints 0, and for each CALLS a space and
// what came of them. That is, for each call that put something out, told or remarked something, in their order and with a comma
// between two: what went out, a code as two hex digits and our whole block as `*`; then what was told, which is `/sent`,
// `/failed`, or `/up=` and the N bytes of the block that came, or what was remarked, which is `/gave-way`, or `/` and the note of a
// NAK. `-` stands where no call did.
// CALLS that can't be read print `?`, and end the run. If ROLE or a setting can't be read, `?` is all.
use crate::show::Hex;
use crate::text::Role;
use crate::{show, text};
use line::{Line, Out, Remark, Step, Told};
use settings::{Fifths, Limits, Panel, Tenths};
use std::io;

// The line amid the calls of a field, and whether one of them has shown something.
#[derive(Clone, Copy)]
struct Trial {
    line: Line,
    shown: bool,
}

// Takes ROLE and the settings off, and makes the calls, if each setting is in its range. The equipment is the master, the host the
// slave. What is left begins with the space before the first CALLS: so an empty field differs from none.
pub(crate) fn answer(rt: &impl Print, fields: &[u8]) -> io::Result<()> {
    let Some((panel, calls)) = read_panel(fields) else {
        return show::unreadable(rt);
    };
    match panel.limits() {
        Some(limits) => {
            print!(rt; "0")?;
            run(rt, limits, calls)
        }
        None => print!(rt; "4"),
    }
}

// ROLE, T1, T2 and RTY, and what stands behind them.
fn read_panel(fields: &[u8]) -> Option<(Panel, &[u8])> {
    let (role, rest) = text::front_role(fields)?;
    let ([t1, t2, rty], calls) = text::front_numbers::<3>(rest, b' ')?;
    let panel = Panel {
        t1: Tenths(t1),
        t2: Fifths(t2),
        rty: u8::try_from(rty).ok()?,
        master: role == Role::Equipment,
    };
    Some((panel, calls))
}

// Makes the calls of each field in turn, up to one that can't be read. A space stands before each.
fn run(rt: &impl Print, limits: Limits, calls: &[u8]) -> io::Result<()> {
    let mut received = [0; 256];
    let mut line = Line::fresh();
    for field in calls.split(|byte| *byte == b' ').skip(1) {
        print!(rt; " ")?;
        let Some(trial) = run_field(rt, limits, line, field, &mut received)? else {
            return show::unreadable(rt);
        };
        if !trial.shown {
            print!(rt; "-")?;
        }
        line = trial.line;
    }
    Ok(())
}

// The calls of one field. `A` and `D` alone are calls, and in pairs they are hex digits.
fn run_field(
    rt: &impl Print,
    limits: Limits,
    line: Line,
    field: &[u8],
    received: &mut [u8; 256],
) -> io::Result<Option<Trial>> {
    let begun = Trial { line, shown: false };
    match field {
        [b'A'] => run_still(rt, begun, line.ask(), received),
        [b'D'] => run_still(rt, begun, line.drained(), received),
        [b'T', count @ ..] => run_ticks(rt, limits, begun, count, received),
        _ => run_hex(rt, limits, begun, field, received),
    }
}

// A call that left the line so. By itself it puts nothing out, and tells and remarks nothing: what comes of it, settling does.
fn run_still(
    rt: &impl Print,
    before: Trial,
    line: Line,
    received: &[u8; 256],
) -> io::Result<Option<Trial>> {
    let step = Step {
        line,
        out: Out::Nothing,
        told: Told::Nothing,
        remark: Remark::Nothing,
    };
    Ok(Some(settled(rt, before, step, received)?))
}

// So many ticks.
fn run_ticks(
    rt: &impl Print,
    limits: Limits,
    mut trial: Trial,
    count: &[u8],
    received: &[u8; 256],
) -> io::Result<Option<Trial>> {
    let Some(count) = text::decimal(count) else {
        return Ok(None);
    };
    for _ in 0..count {
        trial = settled(rt, trial, trial.line.tick(limits), received)?;
    }
    Ok(Some(trial))
}

// Each of the bytes.
fn run_hex(
    rt: &impl Print,
    limits: Limits,
    mut trial: Trial,
    field: &[u8],
    received: &mut [u8; 256],
) -> io::Result<Option<Trial>> {
    let mut buffer = [0; 5000];
    let Some(bytes) = text::some_bytes(field, &mut buffer) else {
        return Ok(None);
    };
    for byte in bytes {
        let step = trial.line.byte(limits, *byte, received);
        trial = settled(rt, trial, step, received)?;
    }
    Ok(Some(trial))
}

// The end of a call: the line settles, and what the call put out, told and remarked is shown.
fn settled(rt: &impl Print, before: Trial, step: Step, received: &[u8; 256]) -> io::Result<Trial> {
    let last = step.line.settle();
    let line = last.line;
    if is_still(step) && is_still(last) {
        return Ok(Trial { line, ..before });
    }
    if before.shown {
        print!(rt; ",")?;
    }
    show_out(rt, step)?;
    show_out(rt, last)?;
    show_told(rt, step, received)?;
    show_remark(rt, step)?;
    show_told(rt, last, received)?;
    show_remark(rt, last)?;
    Ok(Trial { line, shown: true })
}

// Whether a step put nothing out, and told and remarked nothing.
fn is_still(step: Step) -> bool {
    matches!(
        step,
        Step {
            out: Out::Nothing,
            told: Told::Nothing,
            remark: Remark::Nothing,
            ..
        }
    )
}

// What a step put out.
fn show_out(rt: &impl Print, step: Step) -> io::Result<()> {
    match step.out {
        Out::Nothing => Ok(()),
        Out::Code(code) => print!(rt; "{code:02X}"),
        Out::Block => print!(rt; "*"),
    }
}

// What a step told. A block that came is its N bytes, which are the first N received.
fn show_told(rt: &impl Print, step: Step, received: &[u8; 256]) -> io::Result<()> {
    match step.told {
        // What it put out shows it.
        Told::Nothing | Told::PutOut => Ok(()),
        Told::Sent => print!(rt; "/sent"),
        Told::Failed => print!(rt; "/failed"),
        Told::Up(n) => print!(rt; "/up={}", Hex(&received[..usize::from(n)])),
    }
}

// What a step remarked: that it gave way, or the note of a NAK.
fn show_remark(rt: &impl Print, step: Step) -> io::Result<()> {
    match step.remark {
        Remark::Nothing => Ok(()),
        Remark::GaveWay => print!(rt; "/gave-way"),
        Remark::NoLength | Remark::Gap | Remark::Bad(_) => { print!(rt; "/{}", step.remark.note()) }
    }
}
