// Cutting a message into blocks (E4 7.2). Blocks are filled: each but the last carries 244 data bytes.
//
// Nothing here knows of the line or of transactions. No public function has a `requires`: each answers for every
// input, and its `ensures` is an equation with a definition of `specs/`.
#![tactic(auto)]

ghost use Rattle.std.specs.Prelude.{◌≡◌};
ghost use Rattle.cut.specs.Blocks.{block_count, cut_of};

use header::Header;

// How many data bytes a filled block carries: 254 less the ten of the header.
const BLOCK_DATA: usize = 244;

// The most blocks of a message: "4,096 data bytes make .. 17 blocks".
pub const MOST_BLOCKS: u16 = 17;

// The highest block number (E4 6.7).
const LAST_NUMBER: usize = 32767;

// One block of a message: its header, and its part of the message's data, `length` bytes from `start` on.
#[derive(Clone, Copy)]
pub struct Cut {
    pub header: Header,
    pub start: usize,
    pub length: usize,
}

// How many blocks a message of `length` data bytes makes.
pub fn blocks_in(length: usize) -> usize
    ensures { result ≡ block_count length }
{
    if length == 0 {
        return 1;
    }
    (length - 1) / BLOCK_DATA + 1
}

// Block `k` of a message of `length` data bytes, if there is one. The message's header gives all but the block number and the E-bit.
pub fn cut_block(header: Header, length: usize, k: usize) -> Option<Cut>
    ensures { result ≡ cut_of header length k }
{
    let count = blocks_in(length);
    if k < 1 || count < k || LAST_NUMBER < k {
        return None;
    }
    let start = (k - 1) * BLOCK_DATA;
    let last = k == count;
    Some(Cut {
        header: header.numbered(k as u16, last),
        start,
        length: if last { length - start } else { BLOCK_DATA },
    })
}
