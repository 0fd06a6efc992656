// Where the line is (01, "The line"). Each number stands in the phases in which it means something, and nowhere else.

// Why a block that came is not taken.
#[derive(Clone, Copy)]
pub enum Fault {
    // Its length was not 10 to 254.
    Length,
    // The sum that came is not the sum of the bytes that came.
    Sum { received: u16, counted: u16 },
}

// A block of which the length has come.
#[derive(Clone, Copy)]
pub struct Arrival {
    // N of the block.
    pub length: u8,
    // How many of its N + 2 bytes have come.
    pub got: u16,
    // The sum of those among the first N.
    pub sum: u16,
    // The high byte of the sum that came, once it has.
    pub high: u8,
}

#[derive(Clone, Copy)]
pub enum Phase {
    Idle,
    // Our ENQ is out.
    WaitEot { timer: u32, tries: u8 },
    // Our block is on its way out.
    Draining { tries: u8 },
    // Our block is out.
    WaitAck { timer: u32, tries: u8 },
    // Our EOT is out.
    WaitLength { timer: u32 },
    // A block is coming in.
    Body { timer: u32, block: Arrival },
    // A block that is not taken is coming in.
    Silence { timer: u32, fault: Fault },
}
