// What a block alone is (E4 5.6, 5.7): what writing and reading one answer. What a header says is crate `header`, the checksum crate
// `wire`, and the cutting of a message into blocks crate `cut`.
//
// The model: types here, definitions and statements in `specs/`, and the proofs about them. The functions are crate `codec`.
#![tactic(auto)]

use header::Header;

// What is read: the header, and the block length N, header and data.
#[derive(Clone, Copy)]
pub struct Block {
    pub header: Header,
    pub length: usize,
}

// What a block alone is refused by, with its number in 01's table ("Refusal numbers and notes").
#[derive(Clone, Copy)]
pub enum Refusal {
    // An output of less than 257 bytes.
    OutputShort = 1,
    // A block length outside 10 to 254, or not the bytes given.
    BlockLength = 12,
    // The checksum differs.
    ChecksumDiffers = 13,
}
