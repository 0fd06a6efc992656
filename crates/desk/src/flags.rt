// Making flags: none, that of an own place, those of an incoming place.
ghost use Rattle.std.specs.Prelude.{◌≡◌};
ghost use Rattle.exchange.specs.Flags.{incoming_flags, mark_at, no_flags, verdict_flag};

use exchange::Flags;

// One place's mark.
fn mark_at(place: usize, on: bool) -> [bool; 4]
    ensures { result ≡ mark_at place on }
{
    let mut marks = [false; 4];
    if place < 4 {
        marks[place] = on;
    }
    marks
}

pub fn no_flags() -> Flags
    ensures { result ≡ no_flags }
{
    Flags {
        verdicts: [false; 4],
        completed: [false; 4],
        dropped: [false; 4],
    }
}

// An own place got its verdict, or not.
pub fn verdict_flag(place: usize, given: bool) -> Flags
    ensures { result ≡ verdict_flag place given }
{
    Flags {
        verdicts: mark_at(place, given),
        ..no_flags()
    }
}

// An incoming place's message became complete, or not; one was dropped there, or not.
pub fn incoming_flags(place: usize, done: bool, gone: bool) -> Flags
    ensures { result ≡ incoming_flags place done gone }
{
    Flags {
        completed: mark_at(place, done),
        dropped: mark_at(place, gone),
        ..no_flags()
    }
}
