// Numbers of 16 and of 32 bits as bytes, the high order byte first (E4 5.7, 6).
ghost use Rattle.std.specs.Prelude.{◌≡◌};
ghost use Rattle.wire.specs.Bytes.{halves_of, pair_of, quad_of, quarters_of};

// Two bytes as one number.
pub fn pair(high: u8, low: u8) -> u16
    ensures { result ≡ pair_of high low }
{
    u16::from_be_bytes([high, low])
}

// A number as two bytes.
pub fn halves(number: u16) -> [u8; 2]
    ensures { result ≡ halves_of number }
{
    u16::to_be_bytes(number)
}

// Four bytes as one number.
pub fn quad(a: u8, b: u8, c: u8, d: u8) -> u32
    ensures { result ≡ quad_of a b c d }
{
    u32::from_be_bytes([a, b, c, d])
}

// A number as four bytes.
pub fn quarters(number: u32) -> [u8; 4]
    ensures { result ≡ quarters_of number }
{
    u32::to_be_bytes(number)
}
