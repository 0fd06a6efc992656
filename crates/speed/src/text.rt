// Reading the two arguments.

// A number with one more digit, if it is 100,000,000 at most.
fn with_digit(value: u64, digit: u8) -> Option<u64> {
    let more = match digit {
        b'0'..=b'9' => value.checked_mul(10)?.checked_add(u64::from(digit - b'0'))?,
        _ => return None,
    };
    if more <= 100000000 { Some(more) } else { None }
}

// How many turns are asked for: decimal digits alone, at least one.
pub(crate) fn decimal(text: &[u8]) -> Option<u64> {
    if text.is_empty() {
        return None;
    }
    let mut value = 0;
    for digit in text {
        value = with_digit(value, *digit)?;
    }
    Some(value)
}
