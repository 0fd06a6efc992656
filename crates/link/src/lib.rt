// The link unit (01) as a value. It owns no port and no clock: a call takes the unit with a byte, a tick or a request, the lent room
// and the lent output, and hands the next unit back with what it came to, how many bytes are to leave, a note and flags. Nothing else
// is kept anywhere.
//
// The model: types here, definitions and statements in `specs/`, and the proofs about them. The calls are crate `unit`.
#![tactic(auto)]

use exchange::{Exchange, Flags};
use line::{Fault, Line};
use settings::{Fifths, Limits, Seconds, Tenths, Terms};

// 01's table, and which end this is.
#[derive(Clone, Copy)]
pub struct Setup {
    // The host is the slave, the equipment the master (E4 5.5).
    pub host: bool,
    pub t1: Tenths,
    pub t2: Fifths,
    pub t3: Seconds,
    pub t4: Seconds,
    pub rty: u16,
    // DEVID.
    pub device: u16,
    // The duplicate check: 1 on, 0 off.
    pub duplicates: u16,
    // The last transaction number; 0 if none is kept.
    pub last: u16,
}

// In ticks.
#[derive(Clone, Copy)]
pub struct Settings {
    pub limits: Limits,
    pub terms: Terms,
}

// The unit's state.
#[derive(Clone, Copy)]
pub struct Link {
    pub settings: Settings,
    pub line: Line,
    // The bytes of the block that is being received.
    pub received: [u8; 256],
    pub exchange: Exchange,
    // Which block of the message being sent is on its way or held; 1 while none is being sent. The courier alone sets it.
    pub block: u16,
}

// What a call answers.
#[derive(Clone, Copy)]
pub struct Answer {
    // The next state; of a refused call the one that it was given.
    pub link: Link,
    pub outcome: Outcome,
    // How many bytes of the output are to leave.
    pub count: usize,
    pub note: Note,
    // Places that got a verdict, completed or were dropped.
    pub flags: Flags,
}

// What a call came to.
#[derive(Clone, Copy)]
pub enum Outcome {
    Done,
    // A message was accepted for sending, or a place released: its place.
    Taken(usize),
    Refused(Refusal),
}

// Refusals 1 to 11 of 01's table.
#[derive(Clone, Copy)]
pub enum Refusal {
    // 1: "output buffer under 257 bytes".
    OutputShort,
    // 2: "room not 36,864 bytes".
    RoomSize,
    // 3: "state with a field outside the ranges listed in docs/".
    State,
    // 4: "setting out of range".
    Setting,
    // 5 to 11: by the transactions.
    Request(exchange::Refusal),
}

// "Every call on the line also answers a note".
#[derive(Clone, Copy)]
pub enum Note {
    // 20.
    Nothing,
    // 21 to 27: a block went up, and was judged.
    Block(exchange::Note),
    // 28: a NAK went out, for no length came in T2;
    NoLength,
    // 29: for the bytes of a block stopped;
    Gap,
    // 30 and 31: for the block had this fault.
    Bad(Fault),
}

// A call midway, once the transactions were told: what they are then, and note and flags so far.
#[derive(Clone, Copy)]
pub struct Midway {
    pub exchange: Exchange,
    pub note: Note,
    pub flags: Flags,
}

// What the courier leaves: the line, and which block of the message being sent is on its way or held.
#[derive(Clone, Copy)]
pub struct Carried {
    pub line: Line,
    pub block: u16,
}
