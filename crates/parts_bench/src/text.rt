// Reading the fields of a line.
ghost use Rattle.std.specs.Prelude.{◌≤◌, IfSome};

// The end of the link that a line is about.
#[derive(Clone, Copy, PartialEq)]
pub(crate) enum Role {
    Host,
    Equipment,
}

// The role at the front of a text, with a space behind it, and the text from that space on.
pub(crate) fn front_role(text: &[u8]) -> Option<(Role, &[u8])> {
    match text {
        [b'H', b' ', ..] => Some((Role::Host, &text[1..])),
        [b'E', b' ', ..] => Some((Role::Equipment, &text[1..])),
        _ => None,
    }
}

// What stands before the first `mark`, or before the end where there is none, and what stands from there on.
fn cut_at(text: &[u8], mark: u8) -> (&[u8], &[u8]) {
    match text.iter().position(|byte| *byte == mark) {
        Some(at) => text.split_at(at),
        None => (text, &[]),
    }
}

// What stands in a text behind the mark that it begins with. Where it is at its end it is nothing, as a field that is empty.
pub(crate) fn behind(text: &[u8]) -> &[u8] {
    match text {
        [_, rest @ ..] => rest,
        [] => text,
    }
}

// A number with one decimal digit more, as long as it is 65,535 at most.
fn with_digit(value: u16, byte: u8) -> Option<u16> {
    match byte {
        b'0'..=b'9' => value.checked_mul(10)?.checked_add(u16::from(byte - b'0')),
        _ => None,
    }
}

// A text of decimal digits alone, at least one, that is 65,535 at most.
pub(crate) fn decimal(text: &[u8]) -> Option<u16> {
    if text.is_empty() {
        return None;
    }
    let mut value = 0;
    for byte in text {
        value = with_digit(value, *byte)?;
    }
    Some(value)
}

// The numbers at the front of a text, so many of them, each with a mark before it, and what stands behind them: nothing, or a mark
// and more.
pub(crate) fn front_numbers<const N: usize>(text: &[u8], mark: u8) -> Option<([u16; N], &[u8])> {
    let mut numbers = [0; N];
    let mut rest = text;
    for number in &mut numbers {
        let (field, more) = cut_at(rest.strip_prefix(&[mark])?, mark);
        *number = decimal(field)?;
        rest = more;
    }
    Some((numbers, rest))
}

// The same where nothing stands behind them.
pub(crate) fn all_numbers<const N: usize>(text: &[u8], mark: u8) -> Option<[u16; N]> {
    let Some(front) = front_numbers(text, mark) else {
        return None;
    };
    let (numbers, rest) = front;
    if rest.is_empty() { Some(numbers) } else { None }
}

// The value of a hex digit.
fn digit(byte: u8) -> Option<u8>
    ensures { IfSome result (λ value. value ≤ 15) }
{
    match byte {
        b'0'..=b'9' => Some(byte - b'0'),
        b'A'..=b'F' => Some(byte - b'A' + 10),
        b'a'..=b'f' => Some(byte - b'a' + 10),
        _ => None,
    }
}

// The byte of two hex digits. The last digit of an odd number of them has no second.
fn two_digits(pair: &[u8]) -> Option<u8> {
    match pair {
        [high, low] => Some(digit(*high)? * 16 + digit(*low)?),
        _ => None,
    }
}

// Puts the bytes of a text in hex at the start of `bytes`, and gives them back. No line is long enough to fill it.
fn hex<'a>(text: &[u8], bytes: &'a mut [u8; 5000]) -> Option<&'a [u8]> {
    for (byte, pair) in bytes.iter_mut().zip(text.chunks(2)) {
        *byte = two_digits(pair)?;
    }
    bytes.get(..text.len() / 2)
}

// The same for a field, which has at least one byte.
pub(crate) fn some_bytes<'a>(text: &[u8], bytes: &'a mut [u8; 5000]) -> Option<&'a [u8]> {
    if text.is_empty() {
        None
    } else {
        hex(text, bytes)
    }
}

// The same for a field in which `-` may stand for no bytes.
pub(crate) fn all_bytes<'a>(text: &[u8], bytes: &'a mut [u8; 5000]) -> Option<&'a [u8]> {
    match text {
        [b'-'] => Some(&[]),
        _ => some_bytes(text, bytes),
    }
}

// The same for a field in which the last byte, with `x` and a count behind it, stands for so many bytes like it.
pub(crate) fn repeated_bytes<'a>(text: &[u8], bytes: &'a mut [u8; 5000]) -> Option<&'a [u8]> {
    let (front, rest) = cut_at(text, b'x');
    if rest.is_empty() {
        return all_bytes(front, bytes);
    }
    let n = all_bytes(front, bytes)?.len();
    repeat_last(bytes, n, usize::from(decimal(behind(rest))?))
}

// Puts the last of the first `n` bytes there so many times, as far as there is room, and gives back all that are there then.
fn repeat_last(bytes: &mut [u8; 5000], n: usize, count: usize) -> Option<&[u8]> {
    let before = n.checked_sub(1)?;
    let end = before.checked_add(count)?;
    let last = *bytes.get(before)?;
    bytes.get_mut(before..end)?.fill(last);
    bytes.get(..end)
}
