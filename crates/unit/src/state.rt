// A unit's start, and the two forms of an answer.
ghost use Rattle.std.specs.Prelude.{◌≡◌};
ghost use Rattle.link.specs.State.{answer_as, fresh_link, refused_as, start_of};

use crate::setup::{no_settings, ranged};
use exchange::Flags;
use line::Line;
use link::{Answer, Link, Note, Outcome, Refusal, Settings, Setup};

// The line idle, no place in use.
fn fresh(settings: Settings, last: u16) -> Link
    ensures { result ≡ fresh_link settings last }
{
    Link {
        settings,
        line: Line::fresh(),
        received: [0; 256],
        exchange: desk::fresh(last),
        block: 1,
    }
}

pub(crate) fn answers(
    link: Link,
    count: usize,
    outcome: Outcome,
    note: Note,
    flags: Flags,
) -> Answer
    ensures { result ≡ answer_as link count outcome note flags }
{
    Answer {
        link,
        outcome,
        count,
        note,
        flags,
    }
}

// "A refusal reports 0 bytes out, note 20, state and memory untouched."
pub(crate) fn refused(link: Link, refusal: Refusal) -> Answer
    ensures { result ≡ refused_as link refusal }
{
    answers(
        link,
        0,
        Outcome::Refused(refusal),
        Note::Nothing,
        desk::no_flags(),
    )
}

// Starts a unit. A refused start hands back one whose settings are out of their ranges: every call refuses it by 3.
pub fn start(setup: Setup) -> Answer
    ensures { result ≡ start_of setup }
{
    match ranged(setup) {
        Some(settings) => {
            answers(
                fresh(settings, setup.last),
                0,
                Outcome::Done,
                Note::Nothing,
                desk::no_flags(),
            )
        }
        None => refused(fresh(no_settings(), 0), Refusal::Setting),
    }
}
