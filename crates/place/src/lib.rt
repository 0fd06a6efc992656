// A place: one transaction's life (E4 7.3, 7.4; 01, "Messages").
//
// An own place holds a primary of ours from the moment it is accepted until its verdict is released. An incoming place holds a
// message of the far end from its first block until it is released or dropped. Each is a value: an event takes the place and
// hands the next one back. A place knows nothing of the line, of other places, or of where bytes lie: it is told that its
// primary's last block was put out, was acknowledged or failed, is offered blocks, and counts ticks.
//
// The model: types here, definitions and statements in `specs/`, and the proofs about them. The functions are crate `life`.
#![tactic(auto)]

use header::Header;

// What all blocks of a message share, beside device ID and system bytes.
#[derive(Clone, Copy)]
pub struct Kind {
    pub w: bool,
    pub stream: u8,
    pub function: u8,
}

// A message that is arriving, a reply to us or a message of the far end: blocks of it are kept, and more are to come.
#[derive(Clone, Copy)]
pub struct Arriving {
    // Ticks since the last block kept (T4).
    pub timer: u32,
    // The number of the next block.
    pub next: u32,
    pub kind: Kind,
    // How many data bytes are kept.
    pub length: u16,
}

// A place of an own transaction: from the primary's acceptance to the release of its verdict.
#[derive(Clone, Copy)]
pub struct Own {
    // The primary's header. Block number and E are each block's own, and 0 here.
    pub header: [u8; 10],
    pub stage: OwnStage,
}

// How far it is.
#[derive(Clone, Copy)]
pub enum OwnStage {
    Free,
    // The primary is being sent or held.
    Sending,
    // The same, and the bytes of its last block have left: with W = 1 the reply is awaited from then on (02, request 1).
    PutOut,
    // Its last block was acknowledged, so many ticks ago (T3).
    Awaiting { timer: u32 },
    // Blocks of the reply are kept, and more are to come.
    Replying(Arriving),
    Done { verdict: Verdict, reply: Reply },
}

// What is known of a reply: W, stream and function of its blocks, and how many of its data bytes are kept.
#[derive(Clone, Copy)]
pub struct Reply {
    pub w: bool,
    pub stream: u8,
    pub function: u8,
    pub length: u16,
}

// The verdicts of an own place, and their numbers in 01 ("Messages").
#[derive(Clone, Copy)]
pub enum Verdict {
    // 1: "W = 0, all acknowledged".
    Sent = 1,
    // 2: "complete reply, same stream, function one higher".
    Answered = 2,
    // 3: "same stream, function 0".
    Declined = 3,
    // 4: "other reply".
    Other = 4,
    // 5: "broken".
    Broken = 5,
    // 6: "no reply in T3".
    NoReply = 6,
    // 7: "send failed".
    SendFailed = 7,
}

// How a place stands to its user.
#[derive(Clone, Copy)]
pub enum Standing {
    // No message is in it.
    Free,
    // 0: its verdict has not fallen.
    Open,
    Given(Verdict),
}

// A place of a message of the far end: from its first block until it is released or dropped.
#[derive(Clone, Copy)]
pub struct Incoming {
    // The header of its first block.
    pub header: Header,
    pub stage: IncomingStage,
}

// How far it is.
#[derive(Clone, Copy)]
pub enum IncomingStage {
    Free,
    // Blocks are kept, and more are to come.
    Open(Arriving),
    Complete { length: u16 },
    // Our reply to it is being sent or held.
    Replying { length: u16 },
    Replied { length: u16, end: End },
}

// How our reply ended.
#[derive(Clone, Copy)]
pub enum End {
    Sent,
    Failed,
}

// What becomes of a block of a message (01, "A block that goes up is judged in this order"): the same for a reply to us and for a
// message of the far end.
#[derive(Clone, Copy)]
pub enum Fate {
    // Rule 4: it has no data and should have some.
    Empty,
    // Rule 5: the message would grow beyond its limit.
    TooLong,
    // Rule 7: kept, and the message, of so many bytes, is complete.
    Last(u16),
    // Rule 7: kept, and the message has so many bytes so far.
    More(u16),
}
