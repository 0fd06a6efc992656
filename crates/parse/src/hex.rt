// Bytes as hex digits: "bytes hex, `-` no data" (01, "Bench program and proved table").
ghost use Rattle.std.specs.Prelude.{◌≡◌};
ghost use Rattle.wire.specs.Lent.{filled, filled_with};
ghost use Rattle.text.specs.Hex.{are_digits, byte_of, data_of, digit_of, is_data};

// The value of a hex digit of either case.
#[tactic(auto, unfolding(text::specs::Hex::digit_of))]
fn digit(byte: u8) -> Option<u8>
    ensures { result ≡ digit_of byte }
{
    match byte {
        b'0'..=b'9' => Some(byte - b'0'),
        b'A'..=b'F' => Some(byte - b'A' + 10),
        b'a'..=b'f' => Some(byte - b'a' + 10),
        _ => None,
    }
}

fn are_digits(text: &[u8]) -> bool
    ensures { result ≡ are_digits text.now }
{
    text.iter().all(|byte| digit(*byte).is_some())
}

// Whether a field says bytes: `-`, or hex digits, two for a byte.
#[tactic(auto, unfolding(text::specs::Hex::is_data))]
pub fn is_data(text: &[u8]) -> bool
    ensures { result ≡ is_data text.now }
{
    match text {
        [] => false,
        [byte] => *byte == b'-',
        _ => text.len() % 2 == 0 && are_digits(text),
    }
}

// The byte that two digits say. What is no digit counts as 0: `is_data` tells which fields are digits.
fn pair(first: u8, second: u8) -> u8
    ensures { result ≡ byte_of first second }
{
    digit(first).unwrap_or(0) * 16 + digit(second).unwrap_or(0)
}

// Puts the bytes that a field says at the front of `bytes`, and gives back how many there are. Where there is no room for all of them,
// nothing is put there, and the answer is 0.
pub fn put_data(text: &[u8], bytes: &mut [u8]) -> usize
    ensures { filled result bytes.new ≡ filled_with (data_of text.now) bytes.old }
{
    let count = text.len() / 2;
    if bytes.len() < count {
        return 0;
    }
    for i in 0..count {
        bytes[i] = pair(text[2 * i], text[2 * i + 1]);
    }
    count
}
