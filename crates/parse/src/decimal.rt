// Decimal numbers.
ghost use Rattle.std.specs.Prelude.{◌≡◌, ◌≤◌};
ghost use Rattle.text.specs.Number.{number_of, with_digit};

// A number with one digit more: none where the byte is no digit, and none above 100,000.
#[tactic(auto, unfolding(text::specs::Number::with_digit))]
fn with_digit(value: u32, byte: u8) -> Option<u32>
    requires { value ≤ 100000 }
    ensures { result ≡ with_digit value byte }
{
    if byte < b'0' || b'9' < byte {
        return None;
    }
    let more = value * 10 + u32::from(byte - b'0');
    if 100000 < more {
        return None;
    }
    Some(more)
}

// The number that a field says, if it says one up to 100,000.
pub fn number(text: &[u8]) -> Option<u32>
    ensures { result ≡ number_of text.now }
{
    if text.len() == 0 {
        return None;
    }
    let mut value = 0;
    for byte in text {
        value = with_digit(value, *byte)?;
    }
    Some(value)
}
