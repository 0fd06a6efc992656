// The flags of two steps in one call.
ghost use Rattle.std.specs.Prelude.{◌≡◌};
ghost use Rattle.link.specs.Run.{both_flags, either_marks};

use exchange::Flags;
use std::array;

fn either_marks(a: [bool; 4], b: [bool; 4]) -> [bool; 4]
    ensures { result ≡ either_marks a b }
{
    array::from_fn(|place| a[place] | b[place])
}

pub(crate) fn both_flags(a: Flags, b: Flags) -> Flags
    ensures { result ≡ both_flags a b }
{
    Flags {
        verdicts: either_marks(a.verdicts, b.verdicts),
        completed: either_marks(a.completed, b.completed),
        dropped: either_marks(a.dropped, b.dropped),
    }
}
