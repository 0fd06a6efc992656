// Units to start a loop with, made by the unit's own calls.
ghost use Rattle.std.specs.Prelude.{◌≤◌};

use exchange::Primary;
use link::{Link, Setup};
use place::{Incoming, IncomingStage, Own, OwnStage};
use settings::{Fifths, Seconds, Tenths};

// A tool's unit. T3 and T4 are 120 s, the longest of both: 1,200 ticks.
pub(crate) fn fresh() -> Link {
    unit::start(Setup {
        host: false,
        t1: Tenths(5),
        t2: Fifths(50),
        t3: Seconds(120),
        t4: Seconds(120),
        rty: 3,
        device: 0,
        duplicates: 1,
        last: 0,
    })
    .link
}

// Sends S1F1 with W, a block without data: ENQ leaves, EOT comes, the block leaves, ACK comes. Then its reply is awaited.
fn asked(link: Link, room: &mut [u8; 36864], out: &mut [u8; 257]) -> Link {
    let primary = Primary {
        source: 1,
        w: true,
        stream: 1,
        function: 1,
    };
    let asking = unit::open(link, primary, &[], room, out).link;
    let granted = unit::byte(asking, 4, room, out).link;
    let left = unit::drained(granted, room, out).link;
    unit::byte(left, 6, room, out).link
}

// Takes the first block of a message, with E = 0, so that more are to come: ENQ, length 11, the header with these system bytes,
// one byte of data, and the sum.
fn opened(mut link: Link, system: u8, room: &mut [u8; 36864], out: &mut [u8; 257]) -> Link
    requires { system ≤ 4 }
{
    let sum = 0x83 + system;
    for byte in [5, 11, 0, 0, 0x81, 1, 0, 1, 0, 0, 0, system, 0, 0, sum] {
        link = unit::byte(link, byte, room, out).link;
    }
    link
}

// Four replies are awaited, and four messages are open.
pub(crate) fn waiting(room: &mut [u8; 36864], out: &mut [u8; 257]) -> Link {
    let mut link = fresh();
    for _ in 0..4 {
        link = asked(link, room, out);
    }
    for system in 1..=4 {
        link = opened(link, system, room, out);
    }
    link
}

// The timer of an own place whose reply is awaited, else 0.
fn own_timer(place: Own) -> u64 {
    match place.stage {
        OwnStage::Awaiting { timer } => u64::from(timer),
        _ => 0,
    }
}

// The timer of an incoming place whose message is open, else 0.
fn incoming_timer(place: Incoming) -> u64 {
    match place.stage {
        IncomingStage::Open(arriving) => u64::from(arriving.timer),
        _ => 0,
    }
}

// The eight timers, added.
pub(crate) fn timers(link: Link) -> u64 {
    let mut sum: u64 = 0;
    for place in link.exchange.own {
        sum = sum.wrapping_add(own_timer(place));
    }
    for place in link.exchange.incoming {
        sum = sum.wrapping_add(incoming_timer(place));
    }
    sum
}
