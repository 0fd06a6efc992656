// Which note a kept or broken block gets (01, "A block that goes up is judged in this order"), and each note's number.
ghost use Rattle.std.specs.Prelude.{◌≡◌};
ghost use Rattle.exchange.specs.Note.{note_by, note_number};

use exchange::Note;
use place::Fate;

pub fn note_number(note: Note) -> u8
    ensures { result ≡ note_number note }
{
    note as u8
}

// Rules 4, 5 and 7.
pub fn note_of(fate: Fate) -> Note
    ensures { result ≡ note_by fate }
{
    match fate {
        Fate::Empty => Note::Empty,
        Fate::TooLong => Note::TooLong,
        Fate::Last(_) | Fate::More(_) => Note::Kept,
    }
}
