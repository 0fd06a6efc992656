// Which place of four is meant, and putting one anew.
ghost use Rattle.std.specs.Prelude.{◌≡◌, set};
ghost use Rattle.table.specs.Find.{first_of};

// The lowest place that is marked.
pub(crate) fn first(marks: [bool; 4]) -> Option<usize>
    ensures { result ≡ first_of marks }
{
    marks.iter().position(|mark| *mark)
}

// The places with one put anew; outside of them nothing is put.
pub(crate) fn put_at<P: Copy>(mut places: [P; 4], place: usize, put: P) -> [P; 4]
    ensures { result ≡ set places place put }
{
    if place < 4 {
        places[place] = put;
    }
    places
}
