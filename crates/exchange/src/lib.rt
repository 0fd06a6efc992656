// Transactions (E4 6.8, 7.3, 7.4; 01, "Messages"): which message a block belongs to, what becomes of it, and how each message of
// ours ends. The line is not known here: the transactions are told that the last block of the message being sent was put out, was
// acknowledged or failed, are handed the blocks that went up, ticks and requests, and answer with the next state, a note or a refusal,
// and flags.
//
// The model: types here, definitions and statements in `specs/`, and the proofs about them. The functions are crate `clerk`.
#![tactic(auto)]

use header::Header;
use place::{Incoming, Own, Reply, Standing};
use reports::Reports;

// The state: four own places, four incoming places, the saved header, the transaction numbers, what is being sent, and the reports that
// wait.
#[derive(Clone, Copy)]
pub struct Exchange {
    pub own: [Own; 4],
    pub incoming: [Incoming; 4],
    // The header of the block that came last and was no duplicate (E4 7.4.2), if any is saved; "none at a start".
    pub saved: Option<[u8; 10]>,
    pub numbers: Numbers,
    pub sending: Sending,
    pub reports: Reports,
}

// Transaction numbers: the last one given, and that of the latest own transaction to get a verdict. 0 is no number.
#[derive(Clone, Copy)]
pub struct Numbers {
    pub last: u16,
    pub latest: u16,
}

// The one message that is being sent or held: whose it is, and how many data bytes it has. A report of stream 9 has no place: what is
// being sent is told by its function and its number, and what it shows lies with those that wait (`Reports`).
#[derive(Clone, Copy, PartialEq, Eq)]
pub enum Sending {
    Nothing,
    Primary {
        place: usize,
        length: u16,
    },
    Reply {
        place: usize,
        function: u8,
        length: u16,
    },
    Report {
        function: u8,
        number: u16,
    },
}

// The message to be cut into blocks: its header, whose block number and E do not count, for each block gets its own, and how many data
// bytes lie in the send area; or a report, of which nothing lies there.
#[derive(Clone, Copy)]
pub enum Outgoing {
    Nothing,
    Message { header: Header, length: u16 },
    Report { function: u8, number: u16 },
}

// The part of the state that a report touches: the last number given, what is being sent, and the reports that wait.
#[derive(Clone, Copy)]
pub struct Outbox {
    pub last: u16,
    pub sending: Sending,
    pub reports: Reports,
}

// What judging leaves: the next state, the note, and flags.
#[derive(Clone, Copy)]
pub struct Judged {
    pub exchange: Exchange,
    pub note: Note,
    pub flags: Flags,
}

// What a block that was judged comes to, with each note's number in 01.
#[derive(Clone, Copy)]
pub enum Note {
    // 21: kept.
    Kept = 21,
    // 22: R-bit or device ID not this link's incoming one.
    Misrouted = 22,
    // 23: the header is the saved one.
    Duplicate = 23,
    // 24: of no message that is open or awaited, and not the first block of a primary.
    Stray = 24,
    // 25: all four incoming places are in use.
    NoPlace = 25,
    // 26: total data above 4,096.
    TooLong = 26,
    // 27: no data where there must be some.
    Empty = 27,
}

// "flags for places that got a verdict, completed or were dropped" (01, "Refusal numbers and notes"), one for each place.
#[derive(Clone, Copy)]
pub struct Flags {
    // Own places that got their verdict in this call.
    pub verdicts: [bool; 4],
    // Incoming places whose message became complete.
    pub completed: [bool; 4],
    // Incoming places whose message was broken or thrown out.
    pub dropped: [bool; 4],
}

// What a tick, or the end of a send, leaves: the next state, and flags.
#[derive(Clone, Copy)]
pub struct Changed {
    pub exchange: Exchange,
    pub flags: Flags,
}

// A primary that is asked for.
#[derive(Clone, Copy)]
pub struct Primary {
    // The caller's source ID, the upper half of the system bytes.
    pub source: u16,
    pub w: bool,
    pub stream: u8,
    pub function: u8,
}

// What a request leaves.
#[derive(Clone, Copy)]
pub struct Requested {
    pub exchange: Exchange,
    pub asked: Asked,
}

// What a request comes to: taken, for this place, or refused.
pub type Asked = Result<usize, Refusal>;

// Refusals 5 to 11 of 01's table, with their numbers.
#[derive(Clone, Copy)]
pub enum Refusal {
    // "stream above 127; function even in a primary; in a reply, neither primary + 1 nor 0".
    Message = 5,
    // "data above 4,096 bytes".
    DataLong = 6,
    // "a message is being sent or held".
    Sending = 7,
    // "all 4 own places in use".
    NoPlace = 8,
    // "place above 3 or free; ..".
    Place = 9,
    // "reply to a primary with W = 0".
    NotWanted = 10,
    // "a reply to this primary was accepted before, even if it failed".
    Replied = 11,
}

// What is read of an own place in use: the primary, how it stands, and what is kept of its reply.
#[derive(Clone, Copy)]
pub struct OwnReading {
    pub primary: Header,
    pub standing: Standing,
    pub reply: Reply,
}

// What is read of an incoming place in use: the header of its first block, how many data bytes are kept, whether the message is
// complete, and our reply.
#[derive(Clone, Copy)]
pub struct IncomingReading {
    pub primary: Header,
    pub length: u16,
    pub complete: bool,
    pub reply: ReplyStage,
}

// Our reply to an incoming message.
#[derive(Clone, Copy)]
pub enum ReplyStage {
    // None is to be given, or not yet: W = 0, or the message is not complete.
    NotOwed,
    Owed,
    OnItsWay,
    Sent,
    Failed,
}
