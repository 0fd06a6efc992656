// The numbers of refusals, outcomes and notes (01, "Refusal numbers and notes").
ghost use Rattle.std.specs.Prelude.{◌≡◌};
ghost use Rattle.link.specs.Answer.{note_by, note_number, outcome_number, refusal_number};

use line::Remark;
use link::{Note, Outcome, Refusal};

// The refusal's number in 01's table.
pub fn refusal_number(refusal: Refusal) -> u8
    ensures { result ≡ refusal_number refusal }
{
    match refusal {
        Refusal::OutputShort => 1,
        Refusal::RoomSize => 2,
        Refusal::State => 3,
        Refusal::Setting => 4,
        Refusal::Request(refusal) => clerk::refusal_number(refusal),
    }
}

// 01's number: 0 where nothing was refused.
pub fn outcome_number(outcome: Outcome) -> u8
    ensures { result ≡ outcome_number outcome }
{
    match outcome {
        Outcome::Done | Outcome::Taken(_) => 0,
        Outcome::Refused(refusal) => refusal_number(refusal),
    }
}

// What the line remarked, as a note. That of a block which went up is its judge's.
pub(crate) fn note_of(remark: Remark) -> Note
    ensures { result ≡ note_by remark }
{
    match remark {
        Remark::Nothing | Remark::GaveWay => Note::Nothing,
        Remark::NoLength => Note::NoLength,
        Remark::Gap => Note::Gap,
        Remark::Bad(fault) => Note::Bad(fault),
    }
}

// The note's number in 01.
pub fn note_number(note: Note) -> u8
    ensures { result ≡ note_number note }
{
    match note {
        Note::Nothing => Remark::Nothing.note(),
        Note::Block(note) => desk::note_number(note),
        Note::NoLength => Remark::NoLength.note(),
        Note::Gap => Remark::Gap.note(),
        Note::Bad(fault) => Remark::Bad(fault).note(),
    }
}
