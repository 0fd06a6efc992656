// What a call on the line hands back.
ghost use Rattle.std.specs.Prelude.{◌≡◌};
ghost use Rattle.line.specs.Codes.{note_of};

use crate::line::Line;
use crate::phase::Fault;

// What goes out.
#[derive(Clone, Copy)]
pub enum Out {
    Nothing,
    // One handshake code.
    Code(u8),
    // The whole block that is being sent: length byte, header, data and sum.
    Block,
}

// What the transactions are told, as any device tells them.
#[derive(Clone, Copy)]
pub enum Told {
    Nothing,
    // The whole block goes out in this call.
    PutOut,
    // The block was acknowledged.
    Sent,
    // The block was tried RTY + 1 times.
    Failed,
    // A block has come, and is acknowledged: its length N. Its bytes are the first N of the received ones.
    Up(u8),
}

// What has only a note, or not even that: nothing comes of it above the line.
#[derive(Clone, Copy)]
pub enum Remark {
    Nothing,
    // The block is held, for the far end goes first.
    GaveWay,
    // A NAK went out: no length came in T2,
    NoLength,
    // the bytes of a body stopped for longer than T1,
    Gap,
    // or the block had this fault.
    Bad(Fault),
}

#[derive(Clone, Copy)]
pub struct Step {
    pub line: Line,
    pub out: Out,
    pub told: Told,
    pub remark: Remark,
}

impl Remark {
    // The note of a call that ends here. That of a block which went up is its judge's.
    pub fn note(self) -> u8
        ensures { result ≡ note_of self }
    {
        match self {
            Remark::Nothing | Remark::GaveWay => 20,
            Remark::NoLength => 28,
            Remark::Gap => 29,
            Remark::Bad(Fault::Length) => 30,
            Remark::Bad(Fault::Sum { .. }) => 31,
        }
    }
}
