// Transaction numbers (E4 6.8, R1-5; 01, "Messages"): "the next after the last given, 65,535 being followed by 1, passing over any
// number in an own place in use and that of the latest own transaction to get a verdict".
ghost use Rattle.std.specs.Prelude.{◌≡◌};
ghost use Rattle.table.specs.Number.{following, held_number, next_number, number_of};

use life::own;
use place::Own;

// The number in a place: the lower half of its system bytes.
#[tactic(auto, unfolding(table::specs::Number::number_of))]
pub fn number_of(place: Own) -> u16
    ensures { result ≡ number_of place }
{
    (own::primary(place).system % 65536) as u16
}

// The number in a place in use; 0, which is no number, of a free one.
#[tactic(auto, unfolding(table::specs::Number::held_number))]
fn held_number(place: Own) -> u16
    ensures { result ≡ held_number place }
{
    if own::is_free(place) {
        0
    } else {
        number_of(place)
    }
}

// "65,535 being followed by 1": zero is passed over.
#[tactic(auto, unfolding(table::specs::Number::following))]
fn following(number: u16) -> u16
    ensures { result ≡ following number }
{
    let next = number.wrapping_add(1);
    if next == 0 { 1 } else { next }
}

pub fn next_number(own: [Own; 4], last: u16, latest: u16) -> u16
    ensures { result ≡ next_number own last latest }
{
    let mut n = last;
    'search: loop {
        n = following(n);
        if n == latest {
            continue 'search;
        }
        let mut i: usize = 0;
        loop {
            if i == 4 {
                break 'search n;
            }
            let place = own[i];
            if held_number(place) == n {
                continue 'search;
            }
            i = i + 1;
        }
    }
}
