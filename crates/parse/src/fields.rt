// The fields of a line: one space between two (docs/READINGS.md, 27). Two spaces have an empty field between them, and nothing reads as one.
ghost use Rattle.std.specs.Prelude.{◌≡◌};
ghost use Rattle.text.specs.Field.{behind_of, field_of, letter_of};
ghost use Rattle.text.specs.Find.{index_of};

// Where the first such byte of a text stands: at its end, where it has none.
fn find(text: &[u8], byte: u8) -> usize
    ensures { result ≡ index_of byte text.now }
{
    match text.iter().position(|each| *each == byte) {
        Some(at) => at,
        None => text.len(),
    }
}

// The first field of a text: what stands before its first space, or all of it.
pub fn field(text: &[u8]) -> &[u8]
    ensures { result.now ≡ field_of text.now }
{
    let end = find(text, b' ');
    &text[0..end]
}

// What stands behind the first space of a text: nothing, where it has none.
pub fn behind(text: &[u8]) -> &[u8]
    ensures { result.now ≡ behind_of text.now }
{
    let end = find(text, b' ');
    if end < text.len() {
        &text[end + 1..]
    } else {
        &text[..0]
    }
}

// The byte of a field that is one byte.
#[tactic(auto, unfolding(text::specs::Field::letter_of))]
pub fn letter(text: &[u8]) -> Option<u8>
    ensures { result ≡ letter_of text.now }
{
    match text {
        [byte] => Some(*byte),
        _ => None,
    }
}
