// What a line does, and what is printed for it (01, "Bench program and proved table").
ghost use Rattle.std.specs.Prelude.{◌≡◌, ◌≤◌, length, take};
ghost use Rattle.place.specs.Verdict.{standing_number};
ghost use Rattle.talk.specs.Answer.{command_done, done, early_shown, line_done, shown_ran, start_shown, unread_shown, verdict_by};
ghost use Rattle.link.specs.Reading.{own_of};

use crate::run;
use link::{Link, Setup};
use place::Standing;
use script::{Command, Printed};
use talk::{Ran, Shown};

// The first bytes of some; all, where there are no more.
pub(crate) fn first(bytes: &[u8], count: usize) -> &[u8]
    ensures { result.now ≡ take count bytes.now }
{
    if count <= bytes.len() {
        &bytes[..count]
    } else {
        bytes
    }
}

// `?`, and all is as it was.
fn unreadable(bench: Option<Link>) -> Shown
    ensures { result ≡ unread_shown bench }
{
    Shown {
        bench,
        printed: Printed::Unreadable,
        count: 0,
    }
}

// A refused start leaves the unit that there was, or none.
#[tactic(auto, unfolding(talk::specs::Answer::start_shown))]
fn start(bench: Option<Link>, setup: Setup) -> Shown
    ensures { result ≡ start_shown bench setup }
{
    let answer = unit::start(setup);
    let number = unit::outcome_number(answer.outcome);
    Shown {
        bench: if number == 0 {
            Some(answer.link)
        } else {
            bench
        },
        printed: Printed::Answer { number, note: 20 },
        count: 0,
    }
}

// The unit's calls were made.
fn ran(ran: Ran) -> Shown
    ensures { result ≡ shown_ran ran }
{
    Shown {
        bench: Some(ran.link),
        printed: Printed::Answer {
            number: ran.number,
            note: ran.note,
        },
        count: ran.count,
    }
}

// The number of a verdict, 0 while there is none.
fn standing_number(standing: Standing) -> u8
    ensures { result ≡ standing_number standing }
{
    match standing {
        Standing::Free | Standing::Open => 0,
        Standing::Given(verdict) => life::verdict_number(verdict),
    }
}

// "`V` place prints V, place, verdict, or `9 - 20` for a free place or one above 3."
fn verdict(link: Link, place: u8) -> Printed
    ensures { result ≡ verdict_by (own_of link place) place }
{
    match unit::own(link, usize::from(place)) {
        Some(own) => Printed::Verdict {
            place,
            verdict: standing_number(own.standing),
        },
        None => Printed::Answer {
            number: 9,
            note: 20,
        },
    }
}

// A command for a unit that was started. `bytes` begins with those that the line says.
fn command(
    link: Link,
    command: Command,
    bytes: &[u8],
    room: &mut [u8],
    out: &mut [u8; 4096],
) -> Shown
    ensures { done result room.new out.new ≡ command_done link command bytes.now room.old out.old }
{
    match command {
        Command::Start(setup) => start(Some(link), setup),
        Command::Open { primary, length } => {
            let answer = unit::open(link, primary, first(bytes, length), room, out);
            ran(run::joined(0, answer))
        }
        Command::Reply {
            place,
            function,
            length,
        } => {
            let answer = unit::reply(
                link,
                usize::from(place),
                function,
                first(bytes, length),
                room,
                out,
            );
            ran(run::joined(0, answer))
        }
        Command::ReleaseOwn(place) => {
            let answer = unit::release_own(link, usize::from(place));
            ran(run::joined(0, answer))
        }
        Command::ReleaseIncoming(place) => {
            let answer = unit::release_incoming(link, usize::from(place));
            ran(run::joined(0, answer))
        }
        Command::Bytes(length) => ran(run::bytes(link, first(bytes, length), room, out)),
        Command::Ticks(count) => ran(run::ticks(link, count, room, out)),
        Command::Drained => {
            let answer = unit::drained(link, room, out);
            ran(run::joined(0, answer))
        }
        Command::Verdict(place) => Shown {
            bench: Some(link),
            printed: verdict(link, place),
            count: 0,
        },
        Command::Dropped => Shown {
            bench: Some(link),
            printed: Printed::Dropped {
                count: unit::dropped(link),
            },
            count: 0,
        },
    }
}

// A command before the first start: a start alone does anything.
fn early(command: Command) -> Shown
    ensures { result ≡ early_shown command }
{
    match command {
        Command::Start(setup) => start(None, setup),
        _ => unreadable(None),
    }
}

// Does what a line says.
#[tactic(auto, unfolding(talk::specs::Answer::line_done))]
pub(crate) fn line(bench: Option<Link>, line: &[u8], room: &mut [u8], out: &mut [u8; 4096]) -> Shown
    ensures { done result room.new out.new ≡ line_done bench line.now room.old out.old }
{
    let mut bytes = [0u8; 512];
    let Some(read) = scribe::read_line(line, &mut bytes) else {
        return unreadable(bench);
    };
    match bench {
        Some(link) => command(link, read, &bytes, room, out),
        None => early(read),
    }
}
