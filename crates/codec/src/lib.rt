// A block alone: written into a lent output, and read as it stood on the line (E4 5.6, 5.7). What a block is, is said in crate `block`.
//
// Nothing here knows of the line or of transactions. No public function has a `requires`: each answers for every input, and its
// `ensures` is an equation with a definition of `block`.
#![tactic(auto)]

ghost use Rattle.std.specs.Prelude.{◌≡◌, ◌+◌, ◌-◌, ◌≤◌, ◌++◌, length};
ghost use Rattle.header.specs.Header.{first_ten};
ghost use Rattle.wire.specs.Bytes.{part};
ghost use Rattle.wire.specs.Lent.{on_front};
ghost use Rattle.block.specs.Block.{GoodLength, data_in, framed, length_good, read_of, read_sized, write_of, writing};
ghost use Rattle.block.specs.Refusal.{refusal_number};

use block::{Block, Refusal};
use header::Header;
use wire::{checksum, halves, pair, put};

// Whether a block length is one that E4 5.6 allows, and is the bytes given.
#[tactic(auto, unfolding(block::specs::Block::length_good))]
fn good_length(length: usize, given: usize) -> bool
    ensures { result ≡ length_good length given }
{
    (10..=254).contains(&length) && length == given
}

// Puts a block into an output that has room for it: length byte, header, data, and the sum with its high byte first.
fn put_block(header: [u8; 10], data: &[u8], out: &mut [u8])
    requires { (length «data».now ≤ 244) × (257 ≤ length out.old) }
    ensures { out.new ≡ on_front (framed (header ++ «data».now)) out.old }
{
    let n = 10 + data.len();
    let sum = checksum(&header).wrapping_add(checksum(data));
    put(out, 0, &[n as u8]);
    put(out, 1, &header);
    put(out, 11, data);
    put(out, n + 1, &halves(sum));
}

// Writes the block of a header and data into a lent output. `length` is the block length N that the caller means
// to send; it must be the ten bytes of the header and all of `data`.
#[tactic(auto, unfolding(block::specs::Block::write_of, block::specs::Block::output_short, block::specs::Block::refused_write, block::specs::Block::taken_write), using(block::proofs::Reading::good_length))]
pub fn write_block(
    length: usize,
    header: Header,
    data: &[u8],
    out: &mut [u8],
) -> Result<usize, Refusal>
    ensures { writing result out.new ≡ write_of length header «data».now out.old }
{
    if out.len() < 257 {
        return Err(Refusal::OutputShort);
    }
    if good_length(length, 10 + data.len()) {
        put_block(header.bytes(), data, out);
        return Ok(length + 3);
    }
    Err(Refusal::BlockLength)
}

// The first ten bytes of a slice.
#[tactic(auto, using(header::proofs::Headers::first_ten_lem))]
fn first_ten(s: &[u8]) -> [u8; 10]
    requires { 10 ≤ length s.now }
    ensures { result ≡ first_ten s.now }
{
    let mut ten = [0; 10];
    ten.copy_from_slice(&s[..10]);
    ten
}

// Reads a block whose length N is good: what is left to judge is its sum.
#[tactic(auto, unfolding(block::specs::Block::read_sized, block::specs::Block::sums_agree, header::specs::Header::header_of, wire::specs::Bytes::part))]
fn read_sized(line: &[u8], n: usize) -> Result<Block, Refusal>
    requires { GoodLength n (length line.now - 3) }
    ensures { result ≡ read_sized line.now n }
{
    let body = &line[1..n + 1];
    if checksum(body) == pair(line[n + 1], line[n + 2]) {
        Ok(Block {
            header: Header::from_bytes(first_ten(body)),
            length: n,
        })
    } else {
        Err(Refusal::ChecksumDiffers)
    }
}

// Reads a block as it stood on the line, from its length byte to the second byte of its sum.
#[tactic(auto, unfolding(block::specs::Block::read_of), using(block::proofs::Reading::good_length, block::proofs::Reading::read_short))]
pub fn read_block(line: &[u8]) -> Result<Block, Refusal>
    ensures { result ≡ read_of line.now }
{
    if line.len() < 3 {
        return Err(Refusal::BlockLength);
    }
    let n = usize::from(line[0]);
    if good_length(n, line.len() - 3) {
        read_sized(line, n)
    } else {
        Err(Refusal::BlockLength)
    }
}

// The bytes behind the header of a block of length N.
#[tactic(auto, unfolding(wire::specs::Bytes::part))]
fn data_part(line: &[u8], n: usize) -> &[u8]
    requires { GoodLength n (length line.now - 3) }
    ensures { result.now ≡ part 11 (n + 1) line.now }
{
    &line[11..n + 1]
}

// The data of a good block, as a part of the slice that it was read from. A refused block has none.
pub fn block_data(line: &[u8]) -> &[u8]
    ensures { result.now ≡ data_in (read_of line.now) line.now }
{
    match read_block(line) {
        Ok(block) => data_part(line, block.length),
        Err(_) => &line[..0],
    }
}

// The refusal's number in 01's table.
pub fn refusal_number(refusal: Refusal) -> u8
    ensures { result ≡ refusal_number refusal }
{
    refusal as u8
}
