// The checksum (E4 5.7): sixteen bits, the sum of the bytes after the length byte.
ghost use Rattle.std.specs.Prelude.{◌≡◌};
ghost use Rattle.wire.specs.Sum.{checksum_of, sum_with};

// The sum after one byte more.
#[tactic(auto, unfolding(crate::specs::Sum::sum_with))]
pub fn sum_with(sum: u16, byte: u8) -> u16
    ensures { result ≡ sum_with sum byte }
{
    sum.wrapping_add(u16::from(byte))
}

// The sum of all of `bytes`. Those of a block are 254 at most, and their sum never wraps.
#[tactic(auto, unfolding(crate::specs::Sum::plain_sum, crate::specs::Sum::checksum_of, crate::specs::Sum::sum_with), using(crate::proofs::Sums::sum_next))]
pub fn checksum(bytes: &[u8]) -> u16
    ensures { result ≡ checksum_of bytes.now }
{
    let mut sum: u16 = 0;
    for &byte in bytes {
        sum = sum_with(sum, byte);
    }
    sum
}
